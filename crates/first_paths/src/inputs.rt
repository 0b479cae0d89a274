// The first packet of a set that a relation leads from to another set, by its rank.
ghost use Rattle.std.specs.Prelude.{◌≡◌, Some, IfSome, ℕ, ◌+◌, ◌*◌, ◌<◌, ◌≤◌};
ghost use Rattle.model.specs.Store.{Store, set};
ghost use Rattle.model.specs.Programs.{ran, run};
ghost use Rattle.model.specs.FirstInputs.{either_output, children_rank, first_input, first_input_node};
ghost use Rattle.memory.specs.Performing.{going, ended, PerformsOn, OtherNodes};
ghost use Rattle.memory.specs.Memo.{op_first_input, op_limit, rank_parts};
ghost use Rattle.memory.specs.Working.{Remembers};
ghost use Rattle.first_paths.specs.Inputs.{KnowsPart, KeepsPart, KeepsRank};

use crate::members::{first_member, in_second_half, none_at};
use memory::memo;
use memory::memo::{FIRST_INPUT, OPERATIONS};
use memory::property_words::{relation_properties, set_properties};

// A rank is kept in parts, specs/Memo of `memory`: so many, of so many bits each, below so many.
const PARTS: u32 = 3;

const BITS: u8 = 14;

const UNIT: u32 = 16384;

// The memo has no number for an output set from here on, and no room for the parts of a relation's ranks.
const NO_NUMBER: u32 = OPERATIONS - FIRST_INPUT;

const NO_PARTS: u32 = UNIT / PARTS;

// The operation's number and the second operand by which the memo has part i of the ranks of a to q, where it has room for them.
fn entry(i: u8, a: u32, q: u32) -> Option<(u32, u32)>
    requires { i < rank_parts }
    ensures { IfSome result (λ e. (e.0 ≡ op_first_input + q) × (e.0 < op_limit) × (e.1 ≡ rank_parts * a + i)) }
{
    if q >= NO_NUMBER || a >= NO_PARTS {
        return None;
    }
    Some((FIRST_INPUT + q, PARTS * a + u32::from(i)))
}

// Part i of the rank that the memo has; a rank of a low level has no bits there.
fn recall_part(work: &[u32], i: u8, level: u8, p: u32, a: u32, q: u32) -> Option<u32>
    requires { i < rank_parts }
    ensures { KnowsPart i level p a q work.now result }
{
    if level < BITS * i {
        return Some(0);
    }
    let (op, part) = entry(i, a, q)?;
    memo::recall(work, op, level, p, part)
}

// The rank that the memo has.
fn recall_rank(work: &[u32], level: u8, p: u32, a: u32, q: u32) -> Option<u32>
    ensures { (S : Store) (h : ℕ) → Remembers work.now S → result ≡ Some h → run (first_input_node level p a q) S ≡ ran S h }
{
    let low = recall_part(work, 0, level, p, a, q)?;
    let mid = recall_part(work, 1, level, p, a, q)?;
    let high = recall_part(work, 2, level, p, a, q)?;
    let unit = u64::from(UNIT);
    let rank = u64::from(low) + unit * (u64::from(mid) + unit * u64::from(high));
    u32::try_from(rank).ok()
}

// Keeps part i of a rank, where it may have bits and the memo has room for it.
fn keep_part(work: &mut [u32], i: u8, v: u32, level: u8, p: u32, a: u32, q: u32)
    requires { i < rank_parts }
    ensures { KeepsPart i v level p a q work.old work.new }
{
    if level < BITS * i {
        return;
    }
    if let Some((op, part)) = entry(i, a, q) {
        memo::keep(work, op, level, p, part, v);
    }
}

// Keeps a rank.
fn keep_rank(work: &mut [u32], h: u32, level: u8, p: u32, a: u32, q: u32)
    ensures { KeepsRank h level p a q work.old work.new }
{
    keep_part(work, 0, h % UNIT, level, p, a, q);
    keep_part(work, 1, h / UNIT % UNIT, level, p, a, q);
    keep_part(work, 2, h / UNIT / UNIT, level, p, a, q);
}

// The rank of the first input from p, by a to q0 or by b to q1.
#[cycle(either_output_first_input_rank_children)]
fn either_output(
    relations: &[u32],
    sets: &[u32],
    work: &mut [u32],
    level: u8,
    p: u32,
    a: u32,
    b: u32,
    q0: u32,
    q1: u32,
) -> u32
    requires { level ≤ 31 }
    ensures { (j n : ℕ) → PerformsOn (OtherNodes set relations.now j) set (either_output (first_input level) p a b q0 q1) (going n)
        sets.now sets.now work.old work.new (ended n (Some result)) }
{
    let r0 = first_input(relations, sets, work, level, p, a, q0);
    if r0 == 0 {
        return r0;
    }
    let r1 = first_input(relations, sets, work, level, p, b, q1);
    r0.min(r1)
}

// The rank of the first input from the children of p, a and q. There is a level below.
#[cycle(either_output_first_input_rank_children)]
fn rank_children(
    relations: &[u32],
    sets: &[u32],
    work: &mut [u32],
    level: u8,
    p: u32,
    a: u32,
    q: u32,
) -> u32
    requires { level ≤ 31 }
    ensures { (j n : ℕ) → PerformsOn (OtherNodes set relations.now j) set (children_rank level p a q) (going n)
        sets.now sets.now work.old work.new (ended n (Some result)) }
{
    if level == 0 {
        return 0;
    }
    let x = sets::get(sets, p);
    let z = sets::get(sets, q);
    let y = relations::get(relations, a);
    let below = level - 1;
    let r0 = either_output(relations, sets, work, below, x.x0, y.x00, y.x01, z.x0, z.x1);
    if r0 < none_at(below) {
        return r0;
    }
    let r1 = either_output(relations, sets, work, below, x.x1, y.x10, y.x11, z.x0, z.x1);
    in_second_half(r1, below)
}

// The rank of the first packet of p that a leads from to a packet of q.
#[cycle(either_output_first_input_rank_children)]
pub fn first_input(
    relations: &[u32],
    sets: &[u32],
    work: &mut [u32],
    level: u8,
    p: u32,
    a: u32,
    q: u32,
) -> u32
    requires { level ≤ 31 }
    ensures { (j n : ℕ) → PerformsOn (OtherNodes set relations.now j) set (first_input level p a q) (going n)
        sets.now sets.now work.old work.new (ended n (Some result)) }
{
    let none = none_at(level);
    let pp = set_properties(sets, work, level, p);
    if pp.empty {
        return none;
    }
    let pq = set_properties(sets, work, level, q);
    if pq.empty {
        return none;
    }
    let pa = relation_properties(relations, work, level, a);
    if pa.empty {
        return none;
    }
    if pa.universal {
        return first_member(sets, work, level, p);
    }
    if let Some(h) = recall_rank(work, level, p, a, q) {
        return h;
    }
    if level == 0 {
        return none;
    }
    let path = relation_paths::has_path(relations, sets, work, level, p, a, q);
    if !path {
        return none;
    }
    let h = rank_children(relations, sets, work, level, p, a, q);
    keep_rank(work, h, level, p, a, q);
    h
}
