// Sets as relations: what leads into a set, out of it, and the filter of its packets.
ghost use Rattle.std.specs.Prelude.{◌≡◌, Bool, true, false, ℕ};
ghost use Rattle.model.specs.Store.{rel};
ghost use Rattle.model.specs.Images.{ifwd, ibwd, diagonal};
ghost use Rattle.memory.specs.Performing.{Performs, PerformsOn, OtherNodes, going, ended};
ghost use Rattle.relation_images.specs.Filters.{filter, filter_node, filter_number};

use memory::memo;

// Which packets a relation has for those of a set.
trait Filter {
    // Whether each packet of the set leads to itself alone.
    ghost diagonal: { Bool };

    // The memo's number.
    fn number() -> u32
        ensures { result ≡ filter_number diagonal };

    // The node of the results for the two children, which are of this level.
    fn node(
        relations: &mut [u32],
        work: &mut [u32],
        n: &mut usize,
        level: u8,
        r0: u32,
        r1: u32,
    ) -> Option<u32>
        ensures { Performs rel (filter_node diagonal level r0 r1) (going n.old)
            relations.old relations.new work.old work.new (ended n.new result) };
}

struct Everything;

struct Itself;

impl Filter for Everything {
    ghost diagonal = { false };

    fn number() -> u32 {
        memo::IFWD
    }

    fn node(
        relations: &mut [u32],
        work: &mut [u32],
        n: &mut usize,
        _level: u8,
        r0: u32,
        r1: u32,
    ) -> Option<u32> {
        relations::mk(relations, work, n, r0, r1, r0, r1)
    }
}

impl Filter for Itself {
    ghost diagonal = { true };

    fn number() -> u32 {
        memo::DIAGONAL
    }

    fn node(
        relations: &mut [u32],
        work: &mut [u32],
        n: &mut usize,
        level: u8,
        r0: u32,
        r1: u32,
    ) -> Option<u32> {
        let z = relations::zero_at_depth(relations, work, n, level)?;
        relations::mk(relations, work, n, r0, z, z, r1)
    }
}

// The relation that a filter makes of a set.
fn as_relation<F: Filter>(
    sets: &[u32],
    relations: &mut [u32],
    work: &mut [u32],
    n: &mut usize,
    level: u8,
    p: u32,
) -> Option<u32>
    ensures { (j : ℕ) → PerformsOn (OtherNodes rel sets.now j) rel (filter F.diagonal level p) (going n.old)
        relations.old relations.new work.old work.new (ended n.new result) }
{
    if p < 2 {
        return Some(p);
    }
    let number = F::number();
    if let Some(h) = memo::recall(work, number, level, p, 0) {
        return Some(h);
    }
    if level == 0 {
        return None;
    }
    let x = sets::get(sets, p);
    let below = level - 1;
    let r0 = as_relation::<F>(sets, relations, work, n, below, x.x0)?;
    let r1 = as_relation::<F>(sets, relations, work, n, below, x.x1)?;
    let h = F::node(relations, work, n, below, r0, r1)?;
    memo::keep(work, number, level, p, 0, h);
    Some(h)
}

// The relation of every packet to those of a set.
pub fn ifwd(
    sets: &[u32],
    relations: &mut [u32],
    work: &mut [u32],
    n: &mut usize,
    level: u8,
    p: u32,
) -> Option<u32>
    ensures { (j : ℕ) → PerformsOn (OtherNodes rel sets.now j) rel (ifwd level p) (going n.old)
        relations.old relations.new work.old work.new (ended n.new result) }
{
    as_relation::<Everything>(sets, relations, work, n, level, p)
}

// The relation of the packets of a set to every packet.
pub fn ibwd(
    sets: &[u32],
    relations: &mut [u32],
    work: &mut [u32],
    n: &mut usize,
    level: u8,
    p: u32,
) -> Option<u32>
    ensures { (j : ℕ) → PerformsOn (OtherNodes rel sets.now j) rel (ibwd level p) (going n.old)
        relations.old relations.new work.old work.new (ended n.new result) }
{
    let r = ifwd(sets, relations, work, n, level, p)?;
    relations::flip(relations, work, n, level, r)
}

// The relation of each packet of a set to itself.
pub fn diagonal(
    sets: &[u32],
    relations: &mut [u32],
    work: &mut [u32],
    n: &mut usize,
    level: u8,
    p: u32,
) -> Option<u32>
    ensures { (j : ℕ) → PerformsOn (OtherNodes rel sets.now j) rel (diagonal level p) (going n.old)
        relations.old relations.new work.old work.new (ended n.new result) }
{
    as_relation::<Itself>(sets, relations, work, n, level, p)
}
