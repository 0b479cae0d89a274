// Relations on packets, after spp.rs: operations on relation nodes in a lent slice. Each runs its program of `model` for every working memory.
// The lent memories and the count are parameters of their own: a struct of three `&mut` would owe in each contract that each is still the same reference.
#![tactic(auto)]

ghost use Rattle.std.specs.Prelude.{◌≡◌, [], ◌∷◌, ℕ, ◌≤◌};
ghost use Rattle.model.specs.Store.{rel};
ghost use Rattle.model.specs.Programs.{Prog};
ghost use Rattle.model.specs.Operations.{constant, identity_at_depth, is_zero, complement, union, intersect, xor, difference};
ghost use Rattle.model.specs.Relations.{flip};
ghost use Rattle.memory.specs.Performing.{Performs, ReadsChildren, going, ended, told};
ghost use Rattle.memory.specs.Noting.{LevelIs};

use binary::{Difference, Intersect, Union, Xor};
use memory::memo;
use memory::property_words::{child_of, relation_properties};

mod binary;
pub mod fields;
pub mod shortcuts;

// A node: four children, the first digit for the input's field and the second for the output's.
#[derive(Clone, Copy)]
pub struct SPPnode {
    pub x00: u32,
    pub x01: u32,
    pub x10: u32,
    pub x11: u32,
}

// What shortcuts know where another operation may answer: the answer, the operand of that operation, or the operands to recurse on. Three cases, so no shape of
// Option or Result.
#[derive(Clone, Copy)]
pub enum Shortcut {
    Answer(u32),
    Delegate(u32),
    Recurse(u32, u32),
}

// The children of a handle; 0 where it has no node.
pub fn get(nodes: &[u32], spp: u32) -> SPPnode
    ensures { ReadsChildren rel nodes.now spp (result.x00 ∷ result.x01 ∷ result.x10 ∷ result.x11 ∷ []) }
{
    let x00 = child_of(nodes, 4, spp, 0);
    let x01 = child_of(nodes, 4, spp, 1);
    let x10 = child_of(nodes, 4, spp, 2);
    let x11 = child_of(nodes, 4, spp, 3);
    SPPnode { x00, x01, x10, x11 }
}

// The node held, else a new one; none where the places are used up.
pub fn mk(
    nodes: &mut [u32],
    work: &mut [u32],
    n: &mut usize,
    x00: u32,
    x01: u32,
    x10: u32,
    x11: u32,
) -> Option<u32>
    ensures { Performs rel (Prog.mk rel (x00 ∷ x01 ∷ x10 ∷ x11 ∷ [])) (going n.old)
        nodes.old nodes.new work.old work.new (ended n.new result) }
{
    let place = memory::relation_node::join(nodes, work, n, x00, x01, x10, x11)?;
    Some(place + 2)
}

// The level of a held handle, in a store of k fields.
pub fn level(nodes: &[u32], k: u32, spp: u32) -> u32
    ensures { LevelIs nodes.now 4 k spp result × (result ≤ k) }
{
    memory::property_words::level(nodes, 4, k, spp)
}

// The relation of this level whose every walk ends at c.
fn constant(nodes: &mut [u32], work: &mut [u32], n: &mut usize, level: u8, c: u32) -> Option<u32>
    ensures { Performs rel (constant rel c level) (going n.old) nodes.old nodes.new work.old work.new (ended n.new result) }
{
    if level == 0 {
        return Some(c);
    }
    if let Some(h) = memo::recall(work, memo::CONSTANT, level, c, 0) {
        return Some(h);
    }
    let z = constant(nodes, work, n, level - 1, c)?;
    let h = mk(nodes, work, n, z, z, z, z)?;
    memo::keep(work, memo::CONSTANT, level, c, 0, h);
    Some(h)
}

// This and `top_at_depth` name their constant to `constant`: a line each.
pub fn zero_at_depth(nodes: &mut [u32], work: &mut [u32], n: &mut usize, level: u8) -> Option<u32>
    ensures { Performs rel (constant rel 0 level) (going n.old) nodes.old nodes.new work.old work.new (ended n.new result) }
{
    constant(nodes, work, n, level, 0)
}

// The identity of this level.
pub fn one_at_depth(nodes: &mut [u32], work: &mut [u32], n: &mut usize, level: u8) -> Option<u32>
    ensures { Performs rel (identity_at_depth level) (going n.old) nodes.old nodes.new work.old work.new (ended n.new result) }
{
    if level == 0 {
        return Some(1);
    }
    if let Some(h) = memo::recall(work, memo::IDENTITY, level, 0, 0) {
        return Some(h);
    }
    let one = one_at_depth(nodes, work, n, level - 1)?;
    let zero = zero_at_depth(nodes, work, n, level - 1)?;
    let h = mk(nodes, work, n, one, zero, zero, one)?;
    memo::keep(work, memo::IDENTITY, level, 0, 0, h);
    Some(h)
}

pub fn top_at_depth(nodes: &mut [u32], work: &mut [u32], n: &mut usize, level: u8) -> Option<u32>
    ensures { Performs rel (constant rel 1 level) (going n.old) nodes.old nodes.new work.old work.new (ended n.new result) }
{
    constant(nodes, work, n, level, 1)
}

pub fn union(
    nodes: &mut [u32],
    work: &mut [u32],
    n: &mut usize,
    level: u8,
    a: u32,
    b: u32,
) -> Option<u32>
    ensures { Performs rel (union rel level a b) (going n.old) nodes.old nodes.new work.old work.new (ended n.new result) }
{
    binary::run::<Union>(nodes, work, n, level, a, b)
}

pub fn intersect(
    nodes: &mut [u32],
    work: &mut [u32],
    n: &mut usize,
    level: u8,
    a: u32,
    b: u32,
) -> Option<u32>
    ensures { Performs rel (intersect rel level a b) (going n.old) nodes.old nodes.new work.old work.new (ended n.new result) }
{
    binary::run::<Intersect>(nodes, work, n, level, a, b)
}

pub fn xor(
    nodes: &mut [u32],
    work: &mut [u32],
    n: &mut usize,
    level: u8,
    a: u32,
    b: u32,
) -> Option<u32>
    ensures { Performs rel (xor rel level a b) (going n.old) nodes.old nodes.new work.old work.new (ended n.new result) }
{
    binary::run::<Xor>(nodes, work, n, level, a, b)
}

pub fn difference(
    nodes: &mut [u32],
    work: &mut [u32],
    n: &mut usize,
    level: u8,
    a: u32,
    b: u32,
) -> Option<u32>
    ensures { Performs rel (difference rel level a b) (going n.old) nodes.old nodes.new work.old work.new (ended n.new result) }
{
    binary::run::<Difference>(nodes, work, n, level, a, b)
}

// `complement` and `flip` stand apart: a leaf's answer and the order of the children differ, and a trait for these with two impls is longer than both.
pub fn complement(
    nodes: &mut [u32],
    work: &mut [u32],
    n: &mut usize,
    level: u8,
    a: u32,
) -> Option<u32>
    ensures { Performs rel (complement rel level a) (going n.old) nodes.old nodes.new work.old work.new (ended n.new result) }
{
    if a < 2 {
        return Some(1 - a);
    }
    if let Some(h) = memo::recall(work, memo::COMPLEMENT, level, a, 0) {
        return Some(h);
    }
    if level == 0 {
        return None;
    }
    let p = get(nodes, a);
    let below = level - 1;
    let r00 = complement(nodes, work, n, below, p.x00)?;
    let r01 = complement(nodes, work, n, below, p.x01)?;
    let r10 = complement(nodes, work, n, below, p.x10)?;
    let r11 = complement(nodes, work, n, below, p.x11)?;
    let h = mk(nodes, work, n, r00, r01, r10, r11)?;
    memo::keep(work, memo::COMPLEMENT, level, a, 0, h);
    Some(h)
}

// Whether a relation of this level is empty.
pub fn is_zero(nodes: &[u32], work: &[u32], level: u8, a: u32) -> bool
    ensures { (n : ℕ) → Performs rel (is_zero rel level a) (going n) nodes.now nodes.now work.now work.now (told n result) }
{
    relation_properties(nodes, work, level, a).empty
}

pub fn flip(nodes: &mut [u32], work: &mut [u32], n: &mut usize, level: u8, a: u32) -> Option<u32>
    ensures { Performs rel (flip level a) (going n.old) nodes.old nodes.new work.old work.new (ended n.new result) }
{
    if a < 2 {
        return Some(a);
    }
    if let Some(h) = memo::recall(work, memo::FLIP, level, a, 0) {
        return Some(h);
    }
    if level == 0 {
        return None;
    }
    let p = get(nodes, a);
    let below = level - 1;
    let f00 = flip(nodes, work, n, below, p.x00)?;
    let f01 = flip(nodes, work, n, below, p.x01)?;
    let f10 = flip(nodes, work, n, below, p.x10)?;
    let f11 = flip(nodes, work, n, below, p.x11)?;
    let h = mk(nodes, work, n, f00, f10, f01, f11)?;
    memo::keep(work, memo::FLIP, level, a, 0, h);
    Some(h)
}
