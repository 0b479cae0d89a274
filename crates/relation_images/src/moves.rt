// A set of packets moved along a relation, or back.
ghost use Rattle.std.specs.Prelude.{ℕ};
ghost use Rattle.model.specs.Store.{set};
ghost use Rattle.model.specs.Programs.{Prog};
ghost use Rattle.model.specs.Images.{image_short, push, pull};
ghost use Rattle.memory.specs.Performing.{PerformsOn, OtherNodes, going, ended};
ghost use Rattle.relation_images.specs.Ends.{image};
ghost use Rattle.relation_images.specs.Moves.{ImageReduces};

use crate::ends::{End, Inputs, Outputs};
use memory::memo;
use memory::property_words::{relation_properties, set_properties};

// What shortcuts know of an image: the answer, the empty or full set, that of the full set, or nothing. No Option or Result: three cases name what is
// run in the node's place.
#[derive(Clone, Copy)]
enum ImageShortcut {
    Answer(u32),
    Zero,
    One,
    Whole,
    Node,
}

// What the properties of the set p and the relation a know of an image.
fn image_tests(
    relations: &[u32],
    sets: &[u32],
    work: &[u32],
    level: u8,
    p: u32,
    a: u32,
) -> ImageShortcut
    ensures { (j : ℕ) (whole node : Prog)
        → ImageReduces (OtherNodes set relations.now j) (image_short level p a whole node) level whole node
        sets.now work.now result }
{
    if p < 2 {
        return ImageShortcut::Answer(p.min(a));
    }
    let pp = set_properties(sets, work, level, p);
    if pp.empty {
        return ImageShortcut::Answer(p);
    }
    let pa = relation_properties(relations, work, level, a);
    if pa.identity {
        return ImageShortcut::Answer(p);
    }
    if pa.empty {
        return ImageShortcut::Zero;
    }
    if pa.universal {
        return ImageShortcut::One;
    }
    if pp.universal {
        return ImageShortcut::Whole;
    }
    ImageShortcut::Node
}

// What a relation has at one end for the packets of a set at the other.
fn image<E: End>(
    relations: &[u32],
    sets: &mut [u32],
    work: &mut [u32],
    n: &mut usize,
    level: u8,
    p: u32,
    a: u32,
) -> Option<u32>
    ensures { (j : ℕ) → PerformsOn (OtherNodes set relations.now j) set (image E.outputs level p a) (going n.old)
        sets.old sets.new work.old work.new (ended n.new result) }
{
    match image_tests(relations, sets, work, level, p, a) {
        ImageShortcut::Answer(h) => Some(h),
        ImageShortcut::Zero => sets::zero_at_depth(sets, work, n, level),
        ImageShortcut::One => sets::one_at_depth(sets, work, n, level),
        ImageShortcut::Whole => crate::range::<E>(relations, sets, work, n, level, a),
        ImageShortcut::Node => {
            // The memo's number and operands.
            let number = E::image_number();
            let (first, second) = E::in_order(a, p);
            if let Some(h) = memo::recall(work, number, level, first, second) {
                return Some(h);
            }
            if level == 0 {
                return None;
            }
            let x = sets::get(sets, p);
            let y = relations::get(relations, a);
            // The children of p that go with those of a.
            let (p10, p01) = E::in_order(x.x0, x.x1);
            let below = level - 1;
            let r00 = image::<E>(relations, sets, work, n, below, x.x0, y.x00)?;
            let r10 = image::<E>(relations, sets, work, n, below, p10, y.x10)?;
            let r01 = image::<E>(relations, sets, work, n, below, p01, y.x01)?;
            let r11 = image::<E>(relations, sets, work, n, below, x.x1, y.x11)?;
            let (b, c) = E::in_order(r01, r10);
            let h = crate::two_unions(sets, work, n, below, r00, b, c, r11)?;
            memo::keep(work, number, level, first, second, h);
            Some(h)
        }
    }
}

// The outputs of a relation for the packets of a set.
pub fn push(
    relations: &[u32],
    sets: &mut [u32],
    work: &mut [u32],
    n: &mut usize,
    level: u8,
    p: u32,
    a: u32,
) -> Option<u32>
    ensures { (j : ℕ) → PerformsOn (OtherNodes set relations.now j) set (push level p a) (going n.old)
        sets.old sets.new work.old work.new (ended n.new result) }
{
    image::<Outputs>(relations, sets, work, n, level, p, a)
}

// The packets for which a relation has an output in a set.
pub fn pull(
    relations: &[u32],
    sets: &mut [u32],
    work: &mut [u32],
    n: &mut usize,
    level: u8,
    a: u32,
    p: u32,
) -> Option<u32>
    ensures { (j : ℕ) → PerformsOn (OtherNodes set relations.now j) set (pull level a p) (going n.old)
        sets.old sets.new work.old work.new (ended n.new result) }
{
    image::<Inputs>(relations, sets, work, n, level, p, a)
}
