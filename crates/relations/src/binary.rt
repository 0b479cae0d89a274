// `union`, `intersect`, `xor` and `difference`: equal operands, their properties or the memo answer at once; else the operation goes on with the children of
// both, two and two.
ghost use Rattle.std.specs.Prelude.{◌≡◌, Bool, true, false, ℕ};
ghost use Rattle.model.specs.Store.{rel};
ghost use Rattle.model.specs.Recursion.{node2, op2};
ghost use Rattle.model.specs.Operations.{complement, union_tests, xor_tests};
ghost use Rattle.memory.specs.Performing.{Performs, going, ended};
ghost use Rattle.memory.specs.Memo.{op_union, op_intersect, op_xor, op_difference};
ghost use Rattle.relations.specs.Shortcuts.{TakesShortcut, difference_tests};
ghost use Rattle.relations.specs.Binary.{Tests, binary, KeptAs, Lifts, intersect_tests};
ghost use Rattle.relations.specs.Binary.{union_kept, union_lifts, never_lifts, intersect_kept, xor_kept, difference_kept};

use crate::shortcuts::{lattice_tests, lifted, ordered};
use crate::{Shortcut, complement, get, mk, zero_at_depth};
use memory::memo;
use memory::property_words::relation_properties;

// An operation on two relations. Its program is `binary CANCELS tests`, by what it gives on equal operands and its tests on others.
pub(crate) trait Binary {
    // Its number in the memo.
    const MEMO: u32;

    ghost MEMO: { ℕ };

    // Whether one call is left of the nodes (a, z, z, a) and (b, z, z, b).
    const LIFTS: bool;

    ghost LIFTS: { Bool };

    // Whether equal operands give the empty relation; else they give the operand.
    const CANCELS: bool;

    ghost CANCELS: { Bool };

    ghost tests: { Tests };

    // What the properties of two relations, or the memo, know of it; the other operation is `complement`.
    fn shortcut(nodes: &[u32], work: &[u32], level: u8, a: u32, b: u32) -> Shortcut
        ensures { TakesShortcut (tests level a b (node2 (binary CANCELS tests) level)) (complement rel level) (node2 (binary CANCELS tests) level)
            nodes.now work.now result };

    ghost kept: { KeptAs MEMO (node2 (binary CANCELS tests)) };

    ghost lifts: { LIFTS ≡ true → Lifts (op2 (binary CANCELS tests)) };
}

pub(crate) struct Union;

impl Binary for Union {
    const MEMO: u32 = memo::UNION;

    ghost MEMO = { op_union };

    const LIFTS: bool = true;

    ghost LIFTS = { true };

    const CANCELS: bool = false;

    ghost CANCELS = { false };

    ghost tests = { union_tests rel };

    ghost kept = { union_kept };

    ghost lifts = { λ _. union_lifts };

    fn shortcut(nodes: &[u32], work: &[u32], level: u8, a: u32, b: u32) -> Shortcut {
        let pa = relation_properties(nodes, work, level, a);
        if pa.empty {
            return Shortcut::Answer(b);
        }
        let pb = relation_properties(nodes, work, level, b);
        Shortcut::from(lattice_tests(work, memo::UNION, level, pa, pb, a, b, b, a))
    }
}

pub(crate) struct Intersect;

impl Binary for Intersect {
    const MEMO: u32 = memo::INTERSECT;

    ghost MEMO = { op_intersect };

    const LIFTS: bool = false;

    ghost LIFTS = { false };

    const CANCELS: bool = false;

    ghost CANCELS = { false };

    ghost tests = { intersect_tests };

    ghost kept = { intersect_kept };

    ghost lifts = { never_lifts _ };

    fn shortcut(nodes: &[u32], work: &[u32], level: u8, a: u32, b: u32) -> Shortcut {
        let pa = relation_properties(nodes, work, level, a);
        if pa.empty {
            return Shortcut::Answer(a);
        }
        let pb = relation_properties(nodes, work, level, b);
        Shortcut::from(lattice_tests(work, memo::INTERSECT, level, pa, pb, a, b, a, b))
    }
}

pub(crate) struct Xor;

impl Binary for Xor {
    const MEMO: u32 = memo::XOR;

    ghost MEMO = { op_xor };

    const LIFTS: bool = false;

    ghost LIFTS = { false };

    const CANCELS: bool = true;

    ghost CANCELS = { true };

    ghost tests = { xor_tests rel };

    ghost kept = { xor_kept };

    ghost lifts = { never_lifts _ };

    fn shortcut(nodes: &[u32], work: &[u32], level: u8, a: u32, b: u32) -> Shortcut {
        let pa = relation_properties(nodes, work, level, a);
        if pa.empty {
            return Shortcut::Answer(b);
        }
        let pb = relation_properties(nodes, work, level, b);
        if pb.empty {
            return Shortcut::Answer(a);
        }
        if pa.universal {
            return Shortcut::Delegate(b);
        }
        if pb.universal {
            return Shortcut::Delegate(a);
        }
        Shortcut::from(ordered(work, memo::XOR, level, a, b))
    }
}

pub(crate) struct Difference;

impl Binary for Difference {
    const MEMO: u32 = memo::DIFFERENCE;

    ghost MEMO = { op_difference };

    const LIFTS: bool = false;

    ghost LIFTS = { false };

    const CANCELS: bool = true;

    ghost CANCELS = { true };

    ghost tests = { difference_tests };

    ghost kept = { difference_kept };

    ghost lifts = { never_lifts _ };

    fn shortcut(nodes: &[u32], work: &[u32], level: u8, a: u32, b: u32) -> Shortcut {
        let pa = relation_properties(nodes, work, level, a);
        if pa.empty {
            return Shortcut::Answer(a);
        }
        let pb = relation_properties(nodes, work, level, b);
        if pb.empty {
            return Shortcut::Answer(a);
        }
        if pa.universal {
            return Shortcut::Delegate(b);
        }
        Shortcut::from(memo::look_up(work, memo::DIFFERENCE, level, a, b))
    }
}

// The operation where no shortcut answers. Of nodes (a, z, z, a) and (b, z, z, b) one call is left, where the operation lifts.
#[cycle(run_children)]
fn children<O: Binary>(
    nodes: &mut [u32],
    work: &mut [u32],
    n: &mut usize,
    level: u8,
    x: u32,
    y: u32,
) -> Option<u32>
    ensures { Performs rel (node2 (binary O.CANCELS O.tests) level x y) (going n.old) nodes.old nodes.new work.old work.new (ended n.new result) }
{
    if level == 0 {
        return None;
    }
    let p = get(nodes, x);
    let q = get(nodes, y);
    let below = level - 1;
    if O::LIFTS && lifted(p, q) {
        let r = run::<O>(nodes, work, n, below, p.x00, q.x00)?;
        return mk(nodes, work, n, r, q.x01, q.x01, r);
    }
    let r00 = run::<O>(nodes, work, n, below, p.x00, q.x00)?;
    let r01 = run::<O>(nodes, work, n, below, p.x01, q.x01)?;
    let r10 = run::<O>(nodes, work, n, below, p.x10, q.x10)?;
    let r11 = run::<O>(nodes, work, n, below, p.x11, q.x11)?;
    mk(nodes, work, n, r00, r01, r10, r11)
}

// The operation itself.
#[cycle(run_children)]
pub(crate) fn run<O: Binary>(
    nodes: &mut [u32],
    work: &mut [u32],
    n: &mut usize,
    level: u8,
    a: u32,
    b: u32,
) -> Option<u32>
    ensures { Performs rel (op2 (binary O.CANCELS O.tests) level a b) (going n.old) nodes.old nodes.new work.old work.new (ended n.new result) }
{
    if a == b {
        if O::CANCELS {
            return zero_at_depth(nodes, work, n, level);
        }
        return Some(a);
    }
    match O::shortcut(nodes, work, level, a, b) {
        Shortcut::Answer(h) => Some(h),
        Shortcut::Delegate(x) => complement(nodes, work, n, level, x),
        Shortcut::Recurse(x, y) => {
            let h = children::<O>(nodes, work, n, level, x, y)?;
            memo::keep(work, O::MEMO, level, x, y, h);
            Some(h)
        }
    }
}
