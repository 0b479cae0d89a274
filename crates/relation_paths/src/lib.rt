// Whether a relation leads from a set, or to another, after spp.rs. Nothing is added.
#![tactic(auto)]

ghost use Rattle.std.specs.Prelude.{◌≡◌, ◌⊎◌, ℕ, ◌+◌, ◌<◌};
ghost use Rattle.std.specs.Int.{from_bool};
ghost use Rattle.model.specs.Store.{set};
ghost use Rattle.model.specs.Recursion.{node2};
ghost use Rattle.model.specs.Images.{has_image, has_image_op, has_path};
ghost use Rattle.memory.specs.Performing.{PerformsOn, OtherNodes, KeepsEntry, going, told};
ghost use Rattle.memory.specs.Memo.{op_has_path, op_first_input};
ghost use Rattle.relation_paths.specs.Paths.{ImageTold, PathReduces};

use memory::memo;
use memory::property_words::{relation_properties, set_properties};

// The memo has no number for an output set from here on.
const NO_NUMBER: u32 = memo::FIRST_INPUT - memo::HAS_PATH;

// What shortcuts know of a path: the answer, that the two sets are to share a packet, that any output will do, or nothing. No Option or Result: two
// cases name what is run in the node's place.
#[derive(Clone, Copy)]
enum PathShortcut {
    Answer(bool),
    Meet,
    Leave,
    Node,
}

// What the properties of the set p and the relation a, or the memo, know of whether a leads from p.
fn has_image_tests(
    relations: &[u32],
    sets: &[u32],
    work: &[u32],
    level: u8,
    p: u32,
    a: u32,
) -> Option<bool>
    ensures { (j : ℕ) → ImageTold (OtherNodes set relations.now j) (has_image level p a) (node2 has_image_op level p a)
        sets.now work.now result }
{
    let pp = set_properties(sets, work, level, p);
    if pp.empty {
        return Some(false);
    }
    let pa = relation_properties(relations, work, level, a);
    if pa.empty {
        return Some(false);
    }
    if pp.universal || pa.identity || pa.universal {
        return Some(true);
    }
    let known = memo::recall(work, memo::HAS_IMAGE, level, p, a)?;
    Some(known == 1)
}

// Whether a relation leads from a packet of a set.
pub fn has_image(
    relations: &[u32],
    sets: &[u32],
    work: &mut [u32],
    level: u8,
    p: u32,
    a: u32,
) -> bool
    ensures { (j n : ℕ) → PerformsOn (OtherNodes set relations.now j) set (has_image level p a) (going n)
        sets.now sets.now work.old work.new (told n result) }
{
    if let Some(found) = has_image_tests(relations, sets, work, level, p, a) {
        return found;
    }
    if level == 0 {
        return false;
    }
    let x = sets::get(sets, p);
    let y = relations::get(relations, a);
    let below = level - 1;
    let found = has_image(relations, sets, work, below, x.x0, y.x00)
        || has_image(relations, sets, work, below, x.x0, y.x01)
        || has_image(relations, sets, work, below, x.x1, y.x10)
        || has_image(relations, sets, work, below, x.x1, y.x11);
    memo::keep(work, memo::HAS_IMAGE, level, p, a, u32::from(found));
    found
}

// What the properties of the sets p and q and the relation a, or the memo, know of whether a leads from p to q.
fn has_path_tests(
    relations: &[u32],
    sets: &[u32],
    work: &[u32],
    level: u8,
    p: u32,
    a: u32,
    q: u32,
) -> PathShortcut
    ensures { (j : ℕ) → PathReduces (OtherNodes set relations.now j) (has_path level p a q) level p a q
        sets.now work.now result }
{
    let pp = set_properties(sets, work, level, p);
    if pp.empty {
        return PathShortcut::Answer(false);
    }
    let pq = set_properties(sets, work, level, q);
    if pq.empty {
        return PathShortcut::Answer(false);
    }
    let pa = relation_properties(relations, work, level, a);
    if pa.empty {
        return PathShortcut::Answer(false);
    }
    if pa.universal {
        return PathShortcut::Answer(true);
    }
    if pa.identity {
        return PathShortcut::Meet;
    }
    if pq.universal {
        return PathShortcut::Leave;
    }
    if q < NO_NUMBER {
        if let Some(h) = memo::recall(work, memo::HAS_PATH + q, level, p, a) {
            return PathShortcut::Answer(h == 1);
        }
    }
    PathShortcut::Node
}

// Keeps what was found of a path, where the memo has a number for it.
fn keep_path(work: &mut [u32], level: u8, p: u32, a: u32, q: u32, found: bool)
    ensures { (work.new ≡ work.old) ⊎ ((op_has_path + q < op_first_input)
        × KeepsEntry work.old work.new (op_has_path + q) level p a (from_bool found)) }
{
    if q < NO_NUMBER {
        memo::keep(work, memo::HAS_PATH + q, level, p, a, u32::from(found));
    }
}

// Whether a relation leads from a packet of a set to one of another. No twin of `has_image`: it reads a third operand at each node, after other tests,
// and the memo numbers it by that operand.
pub fn has_path(
    relations: &[u32],
    sets: &[u32],
    work: &mut [u32],
    level: u8,
    p: u32,
    a: u32,
    q: u32,
) -> bool
    ensures { (j n : ℕ) → PerformsOn (OtherNodes set relations.now j) set (has_path level p a q) (going n)
        sets.now sets.now work.old work.new (told n result) }
{
    match has_path_tests(relations, sets, work, level, p, a, q) {
        PathShortcut::Answer(found) => found,
        PathShortcut::Meet => sets::intersects(sets, work, level, p, q),
        PathShortcut::Leave => has_image(relations, sets, work, level, p, a),
        PathShortcut::Node => {
            if level == 0 {
                return false;
            }
            let x = sets::get(sets, p);
            let z = sets::get(sets, q);
            let y = relations::get(relations, a);
            let below = level - 1;
            let found = has_path(relations, sets, work, below, x.x0, y.x00, z.x0)
                || has_path(relations, sets, work, below, x.x0, y.x01, z.x1)
                || has_path(relations, sets, work, below, x.x1, y.x10, z.x0)
                || has_path(relations, sets, work, below, x.x1, y.x11, z.x1);
            keep_path(work, level, p, a, q, found);
            found
        }
    }
}
