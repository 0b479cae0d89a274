// Sets of packets, after sp.rs: operations on set nodes in a lent slice. Each runs its program of `model` for every working memory.
// The lent memories and the count are parameters of their own: a struct of three `&mut` would owe in each contract that each is still the same reference.
#![tactic(auto)]

ghost use Rattle.std.specs.Prelude.{◌≡◌, List, [], ◌∷◌, Some, ℕ, ◌-◌, ◌*◌, ◌%◌, ◌<◌, ◌≤◌};
ghost use Rattle.model.specs.Store.{set, Store, signed, stored, sign};
ghost use Rattle.model.specs.Programs.{Prog, is_universal, has, holds};
ghost use Rattle.model.specs.WellFormed.{Held, WellFormed};
ghost use Rattle.model.specs.Recursion.{node2};
ghost use Rattle.model.specs.Operations.{constant, is_zero, complement, union, intersect, xor, difference};
ghost use Rattle.model.specs.Sets.{intersects, intersects_op, intersects_tests};
ghost use Rattle.memory.specs.Performing.{going, ended, told, Performs, ReadsChildren, LooksUp};
ghost use Rattle.memory.specs.Noting.{LevelIs};
ghost use Rattle.memory.specs.Rows.{places, plain};
ghost use Rattle.memory.specs.Working.{Words};

use binary::{Union, Xor};
use memory::property_words::{child_of, other, set_properties};
use memory::{Lookup, memo};

mod binary;
pub mod fields;

// A node: two children, one for this field being 0 and one for it being 1.
#[derive(Clone, Copy)]
pub struct SPnode {
    pub x0: u32,
    pub x1: u32,
}

// The children of a handle; 0 where it has no node.
pub fn get(nodes: &[u32], sp: u32) -> SPnode
    ensures { ReadsChildren set nodes.now sp (result.x0 ∷ result.x1 ∷ []) }
{
    SPnode {
        x0: child_of(nodes, 2, sp, 0),
        x1: child_of(nodes, 2, sp, 1),
    }
}

// The node that is stored as x0, x1, and its handle with this sign.
fn hold(
    nodes: &mut [u32],
    work: &mut [u32],
    n: &mut usize,
    x0: u32,
    x1: u32,
    polarity: u32,
) -> Option<u32>
    requires { polarity < 2 }
    ensures { (y : List ℕ) → x0 ∷ x1 ∷ [] ≡ stored set y → polarity ≡ sign y
        → Performs set (Prog.mk set y) (going n.old) nodes.old nodes.new work.old work.new (ended n.new result) }
{
    let place = memory::insert::join(nodes, work, n, &[x0, x1])?;
    Some(2 * (place + 1) + polarity)
}

// The node held, else a new one; none where all places are used up, as in each function that adds nodes.
pub fn mk(nodes: &mut [u32], work: &mut [u32], n: &mut usize, x0: u32, x1: u32) -> Option<u32>
    ensures { Performs set (Prog.mk set (x0 ∷ x1 ∷ [])) (going n.old) nodes.old nodes.new work.old work.new (ended n.new result) }
{
    if x0 % 2 == 1 {
        return hold(nodes, work, n, other(x0), other(x1), 1);
    }
    hold(nodes, work, n, x0, x1, 0)
}

// The set of this level whose every walk ends at c.
fn constant(nodes: &mut [u32], work: &mut [u32], n: &mut usize, level: u8, c: u32) -> Option<u32>
    ensures { Performs set (constant set c level) (going n.old) nodes.old nodes.new work.old work.new (ended n.new result) }
{
    if level == 0 {
        return Some(c);
    }
    let z = constant(nodes, work, n, level - 1, c)?;
    mk(nodes, work, n, z, z)
}

// This and the next name their constant to `constant`: a line each.
pub fn zero_at_depth(nodes: &mut [u32], work: &mut [u32], n: &mut usize, level: u8) -> Option<u32>
    ensures { Performs set (constant set 0 level) (going n.old) nodes.old nodes.new work.old work.new (ended n.new result) }
{
    constant(nodes, work, n, level, 0)
}

pub fn one_at_depth(nodes: &mut [u32], work: &mut [u32], n: &mut usize, level: u8) -> Option<u32>
    ensures { Performs set (constant set 1 level) (going n.old) nodes.old nodes.new work.old work.new (ended n.new result) }
{
    constant(nodes, work, n, level, 1)
}

// The level of a held handle, in a store of k fields.
pub fn level(nodes: &[u32], k: u32, sp: u32) -> u32
    ensures { LevelIs nodes.now 2 k sp result × (result ≤ k) }
{
    memory::property_words::level(nodes, 2, k, sp)
}

// Whether a set of this level has all packets.
pub fn is_universal(nodes: &[u32], work: &[u32], level: u8, sp: u32) -> bool
    ensures { (k : ℕ) (B : Store) (n : ℕ) → n ≤ places 2 nodes.now → WellFormed k (plain set B nodes.now n)
        → Words work.now (plain set B nodes.now n) → Held set (plain set B nodes.now n) level sp
        → holds (has is_universal set level sp) (plain set B nodes.now n) ≡ result }
{
    set_properties(nodes, work, level, sp).universal
}

pub fn union(
    nodes: &mut [u32],
    work: &mut [u32],
    n: &mut usize,
    level: u8,
    a: u32,
    b: u32,
) -> Option<u32>
    ensures { Performs set (union set level a b) (going n.old) nodes.old nodes.new work.old work.new (ended n.new result) }
{
    binary::run::<Union>(nodes, work, n, level, a, b)
}

// The other handle of a set.
pub fn complement(a: u32) -> u32
    ensures { (l n : ℕ) (m w : List ℕ) → Performs set (complement set l a) (going n) m m w w (ended n (Some result)) }
{
    other(a)
}

pub fn intersect(
    nodes: &mut [u32],
    work: &mut [u32],
    n: &mut usize,
    level: u8,
    a: u32,
    b: u32,
) -> Option<u32>
    ensures { Performs set (intersect set level a b) (going n.old) nodes.old nodes.new work.old work.new (ended n.new result) }
{
    let r = union(nodes, work, n, level, other(a), other(b))?;
    Some(other(r))
}

pub fn difference(
    nodes: &mut [u32],
    work: &mut [u32],
    n: &mut usize,
    level: u8,
    a: u32,
    b: u32,
) -> Option<u32>
    ensures { Performs set (difference set level a b) (going n.old) nodes.old nodes.new work.old work.new (ended n.new result) }
{
    let r = union(nodes, work, n, level, other(a), b)?;
    Some(other(r))
}

pub fn xor(
    nodes: &mut [u32],
    work: &mut [u32],
    n: &mut usize,
    level: u8,
    a: u32,
    b: u32,
) -> Option<u32>
    ensures { Performs set (xor set level a b) (going n.old) nodes.old nodes.new work.old work.new (ended n.new result) }
{
    binary::run::<Xor>(nodes, work, n, level, a, b)
}

// Whether a set of this level is empty.
pub fn is_zero(nodes: &[u32], work: &[u32], level: u8, a: u32) -> bool
    ensures { (n : ℕ) → Performs set (is_zero set level a) (going n) nodes.now nodes.now work.now work.now (told n result) }
{
    set_properties(nodes, work, level, a).empty
}

// What the properties of two sets, or the memo, know of whether they share a packet, 1 or 0 as the memo has it. Each test has an answer of its own, so they
// stand one by one.
fn intersects_tests(nodes: &[u32], work: &[u32], level: u8, a: u32, b: u32) -> Lookup
    ensures { LooksUp set (intersects_tests level a b (node2 intersects_op level)) (node2 intersects_op level)
        nodes.now work.now result }
{
    if a == other(b) {
        return Lookup::Answer(0);
    }
    let pa = set_properties(nodes, work, level, a);
    if pa.empty {
        return Lookup::Answer(0);
    }
    let pb = set_properties(nodes, work, level, b);
    if pb.empty {
        return Lookup::Answer(0);
    }
    if a == b {
        return Lookup::Answer(1);
    }
    if pa.universal {
        return Lookup::Answer(1);
    }
    if pb.universal {
        return Lookup::Answer(1);
    }
    if b < a {
        return memo::look_up(work, memo::INTERSECTS, level, b, a);
    }
    memo::look_up(work, memo::INTERSECTS, level, a, b)
}

// Whether two sets of this level share a packet.
pub fn intersects(nodes: &[u32], work: &mut [u32], level: u8, a: u32, b: u32) -> bool
    ensures { (n : ℕ) → Performs set (intersects level a b) (going n) nodes.now nodes.now work.old work.new (told n result) }
{
    match intersects_tests(nodes, work, level, a, b) {
        Lookup::Answer(h) => h == 1,
        Lookup::Operands(x, y) => {
            if level == 0 {
                return false;
            }
            let p = get(nodes, x);
            let q = get(nodes, y);
            let meet = intersects(nodes, work, level - 1, p.x0, q.x0)
                || intersects(nodes, work, level - 1, p.x1, q.x1);
            memo::keep(work, memo::INTERSECTS, level, x, y, u32::from(meet));
            meet
        }
    }
}
