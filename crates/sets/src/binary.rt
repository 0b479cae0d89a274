// `union` and `xor`: equal or opposite operands, properties or the memo answer at once; else the operation goes on with the children of both, two and two.
ghost use Rattle.std.specs.Prelude.{Bool, true, false, ℕ};
ghost use Rattle.model.specs.Store.{set};
ghost use Rattle.model.specs.Recursion.{node2, op2};
ghost use Rattle.model.specs.Operations.{union_tests, xor_tests};
ghost use Rattle.memory.specs.Performing.{going, ended, Performs, LooksUp};
ghost use Rattle.memory.specs.Memo.{op_set_union, op_set_xor};
ghost use Rattle.sets.specs.Binary.{Tests, binary, KeptAs, union_kept, xor_kept};

use crate::{get, mk, one_at_depth, zero_at_depth};
use memory::property_words::{other, set_properties};
use memory::{Lookup, memo};

// An operation on two sets. Its program is `binary CANCELS tests`, by what it gives on equal and opposite operands and its tests on others.
pub(crate) trait Binary {
    // Its number in the memo.
    const MEMO: u32;

    ghost MEMO: { ℕ };

    // Whether equal operands give the empty set; else they give the operand, and opposite ones the full set.
    const CANCELS: bool;

    ghost CANCELS: { Bool };

    ghost tests: { Tests };

    // What the properties of two sets, or the memo, know of it.
    fn shortcut(nodes: &[u32], work: &[u32], level: u8, a: u32, b: u32) -> Lookup
        ensures { LooksUp set (tests level a b (node2 (binary CANCELS tests) level)) (node2 (binary CANCELS tests) level)
            nodes.now work.now result };

    ghost kept: { KeptAs MEMO (node2 (binary CANCELS tests)) };
}

pub(crate) struct Union;

impl Binary for Union {
    const MEMO: u32 = memo::SET_UNION;

    ghost MEMO = { op_set_union };

    const CANCELS: bool = false;

    ghost CANCELS = { false };

    ghost tests = { union_tests set };

    ghost kept = { union_kept };

    fn shortcut(nodes: &[u32], work: &[u32], level: u8, a: u32, b: u32) -> Lookup {
        let pa = set_properties(nodes, work, level, a);
        if pa.empty {
            return Lookup::Answer(b);
        }
        let pb = set_properties(nodes, work, level, b);
        if pb.universal {
            return Lookup::Answer(b);
        }
        if pb.empty {
            return Lookup::Answer(a);
        }
        if pa.universal {
            return Lookup::Answer(a);
        }
        if b < a {
            return memo::look_up(work, memo::SET_UNION, level, b, a);
        }
        memo::look_up(work, memo::SET_UNION, level, a, b)
    }
}

pub(crate) struct Xor;

impl Binary for Xor {
    const MEMO: u32 = memo::SET_XOR;

    ghost MEMO = { op_set_xor };

    const CANCELS: bool = true;

    ghost CANCELS = { true };

    ghost tests = { xor_tests set };

    ghost kept = { xor_kept };

    fn shortcut(nodes: &[u32], work: &[u32], level: u8, a: u32, b: u32) -> Lookup {
        let pa = set_properties(nodes, work, level, a);
        if pa.empty {
            return Lookup::Answer(b);
        }
        let pb = set_properties(nodes, work, level, b);
        if pb.empty {
            return Lookup::Answer(a);
        }
        if pa.universal {
            return Lookup::Answer(other(b));
        }
        if pb.universal {
            return Lookup::Answer(other(a));
        }
        if b < a {
            return memo::look_up(work, memo::SET_XOR, level, b, a);
        }
        memo::look_up(work, memo::SET_XOR, level, a, b)
    }
}

// The operation where no shortcut answers.
#[cycle(run_children)]
fn children<O: Binary>(
    nodes: &mut [u32],
    work: &mut [u32],
    n: &mut usize,
    level: u8,
    x: u32,
    y: u32,
) -> Option<u32>
    ensures { Performs set (node2 (binary O.CANCELS O.tests) level x y) (going n.old) nodes.old nodes.new work.old work.new (ended n.new result) }
{
    if level == 0 {
        return None;
    }
    let p = get(nodes, x);
    let q = get(nodes, y);
    let r0 = run::<O>(nodes, work, n, level - 1, p.x0, q.x0)?;
    let r1 = run::<O>(nodes, work, n, level - 1, p.x1, q.x1)?;
    mk(nodes, work, n, r0, r1)
}

// The operation itself.
#[cycle(run_children)]
pub(crate) fn run<O: Binary>(
    nodes: &mut [u32],
    work: &mut [u32],
    n: &mut usize,
    level: u8,
    a: u32,
    b: u32,
) -> Option<u32>
    ensures { Performs set (op2 (binary O.CANCELS O.tests) level a b) (going n.old) nodes.old nodes.new work.old work.new (ended n.new result) }
{
    if a == b {
        if O::CANCELS {
            return zero_at_depth(nodes, work, n, level);
        }
        return Some(a);
    }
    if !O::CANCELS && a == other(b) {
        return one_at_depth(nodes, work, n, level);
    }
    match O::shortcut(nodes, work, level, a, b) {
        Lookup::Answer(h) => Some(h),
        Lookup::Operands(x, y) => {
            let h = children::<O>(nodes, work, n, level, x, y)?;
            memo::keep(work, O::MEMO, level, x, y, h);
            Some(h)
        }
    }
}
