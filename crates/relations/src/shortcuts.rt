// What shortcuts and the memo know of the operations on two relations, before their children are looked at; and the nodes of which one call is left.
ghost use Rattle.std.specs.Prelude.{◌≡◌, List, [], ◌∷◌, true, false, ℕ, ◌<◌};
ghost use Rattle.model.specs.Store.{rel};
ghost use Rattle.model.specs.Programs.{Prog, less, ask};
ghost use Rattle.memory.specs.Performing.{LooksUp, KnowsProperties};
ghost use Rattle.memory.specs.Memo.{memo_program, op_limit};
ghost use Rattle.relations.specs.Shapes.{Lifted};
ghost use Rattle.relations.specs.Shortcuts.{shortcut_of, lattice_tests};

use crate::{SPPnode, Shortcut};
use memory::property_words::relation_properties;
use memory::{Lookup, Properties, memo};

// What was found, where no other operation answers.
impl From<Lookup> for Shortcut {
    ghost from_gives = { λ found r. r ≡ shortcut_of found };

    fn from(found: Lookup) -> Shortcut {
        match found {
            Lookup::Answer(h) => Shortcut::Answer(h),
            Lookup::Operands(x, y) => Shortcut::Recurse(x, y),
        }
    }
}

// What the memo holds on an operation on a and b, the lesser first.
pub(crate) fn ordered(work: &[u32], op: u32, level: u8, a: u32, b: u32) -> Lookup
    requires { op < op_limit }
    ensures { (node : ℕ → ℕ → Prog) (m : List ℕ) → ((x y : ℕ) → node x y ≡ memo_program op level x y)
        → LooksUp rel (ask (less b a) (node b a) (node a b)) node m work.now result }
{
    if b < a {
        return memo::look_up(work, op, level, b, a);
    }
    memo::look_up(work, op, level, a, b)
}

// What the properties of a, which is not empty, and of b, or the memo, know of their union or intersection: x where b is full, y where b is empty or a full.
pub(crate) fn lattice_tests(
    work: &[u32],
    op: u32,
    level: u8,
    pa: Properties,
    pb: Properties,
    a: u32,
    b: u32,
    x: u32,
    y: u32,
) -> Lookup
    requires { op < op_limit }
    ensures { (node : ℕ → ℕ → Prog) (m : List ℕ) → ((i j : ℕ) → node i j ≡ memo_program op level i j)
        → KnowsProperties rel m work.now level a pa → KnowsProperties rel m work.now level b pb
        → LooksUp rel (lattice_tests level a b x y node) node m work.now result }
{
    if pb.universal {
        return Lookup::Answer(x);
    }
    if pb.empty {
        return Lookup::Answer(y);
    }
    if pa.universal {
        return Lookup::Answer(y);
    }
    ordered(work, op, level, a, b)
}

// Whether the nodes are (a, z, z, a) and (b, z, z, b).
pub fn lifted(p: SPPnode, q: SPPnode) -> bool
    ensures yes { result ≡ true → Lifted (p.x00 ∷ p.x01 ∷ p.x10 ∷ p.x11 ∷ []) (q.x00 ∷ q.x01 ∷ q.x10 ∷ q.x11 ∷ []) }
    ensures no { result ≡ false → Lifted (p.x00 ∷ p.x01 ∷ p.x10 ∷ p.x11 ∷ []) (q.x00 ∷ q.x01 ∷ q.x10 ∷ q.x11 ∷ []) → ⊥ }
{
    p.x11 == p.x00 && q.x11 == q.x00 && p.x01 == q.x01 && p.x10 == q.x01 && q.x10 == q.x01
}
