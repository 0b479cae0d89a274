// The operations between relations and sets that may add nodes, after spp.rs: each reads nodes of both kinds and runs its program of `model`.
// The slices and the count are lent one by one, as the C interface lends them: one kind is read and the other written, and which differs.
#![tactic(auto)]

ghost use Rattle.std.specs.Prelude.{ℕ};
ghost use Rattle.model.specs.Store.{set};
ghost use Rattle.model.specs.Images.{two_unions, fwd, bwd};
ghost use Rattle.memory.specs.Performing.{Performs, PerformsOn, OtherNodes, going, ended};
ghost use Rattle.relation_images.specs.Ends.{range};

use crate::ends::{End, Inputs, Outputs};
use memory::memo;

mod ends;
pub mod filters;
pub mod moves;

// The set whose children are the unions of a with b and of c with d.
fn two_unions(
    sets: &mut [u32],
    work: &mut [u32],
    n: &mut usize,
    level: u8,
    a: u32,
    b: u32,
    c: u32,
    d: u32,
) -> Option<u32>
    ensures { Performs set (two_unions level a b c d) (going n.old)
        sets.old sets.new work.old work.new (ended n.new result) }
{
    let r0 = sets::union(sets, work, n, level, a, b)?;
    let r1 = sets::union(sets, work, n, level, c, d)?;
    sets::mk(sets, work, n, r0, r1)
}

// What a relation has at one end.
fn range<E: End>(
    relations: &[u32],
    sets: &mut [u32],
    work: &mut [u32],
    n: &mut usize,
    level: u8,
    a: u32,
) -> Option<u32>
    ensures { (j : ℕ) → PerformsOn (OtherNodes set relations.now j) set (range E.outputs level a) (going n.old)
        sets.old sets.new work.old work.new (ended n.new result) }
{
    if a < 2 {
        return Some(a);
    }
    let number = E::range_number();
    if let Some(h) = memo::recall(work, number, level, a, 0) {
        return Some(h);
    }
    if level == 0 {
        return None;
    }
    let p = relations::get(relations, a);
    let (second, third) = E::in_order(p.x01, p.x10);
    let below = level - 1;
    let r0 = range::<E>(relations, sets, work, n, below, p.x00)?;
    let r1 = range::<E>(relations, sets, work, n, below, second)?;
    let r2 = range::<E>(relations, sets, work, n, below, third)?;
    let r3 = range::<E>(relations, sets, work, n, below, p.x11)?;
    let h = two_unions(sets, work, n, below, r0, r1, r2, r3)?;
    memo::keep(work, number, level, a, 0, h);
    Some(h)
}

// The outputs of a relation.
pub fn fwd(
    relations: &[u32],
    sets: &mut [u32],
    work: &mut [u32],
    n: &mut usize,
    level: u8,
    a: u32,
) -> Option<u32>
    ensures { (j : ℕ) → PerformsOn (OtherNodes set relations.now j) set (fwd level a) (going n.old)
        sets.old sets.new work.old work.new (ended n.new result) }
{
    range::<Outputs>(relations, sets, work, n, level, a)
}

// The inputs of a relation.
pub fn bwd(
    relations: &[u32],
    sets: &mut [u32],
    work: &mut [u32],
    n: &mut usize,
    level: u8,
    a: u32,
) -> Option<u32>
    ensures { (j : ℕ) → PerformsOn (OtherNodes set relations.now j) set (bwd level a) (going n.old)
        sets.old sets.new work.old work.new (ended n.new result) }
{
    range::<Inputs>(relations, sets, work, n, level, a)
}
