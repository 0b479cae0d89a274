// A relation's node joins the relations. Its four numbers are handed on one by one: a slice is handed on by address, which takes a third more time.
ghost use Rattle.std.specs.Prelude.{◌≡◌, [], ◌∷◌};
ghost use Rattle.memory.specs.Performing.{going, ended, JoinsAs};

use crate::index::Numbers;

// The four numbers.
#[derive(Clone, Copy)]
struct Four {
    x00: u32,
    x01: u32,
    x10: u32,
    x11: u32,
}

impl Numbers for Four {
    ghost list = { λ x. x.x00 ∷ x.x01 ∷ x.x10 ∷ x.x11 ∷ [] };

    fn count(self) -> usize {
        4
    }

    fn is_at(self, nodes: &[u32], i: usize) -> bool {
        let b = 4 * i;
        nodes[b] == self.x00
            && nodes[b + 1] == self.x01
            && nodes[b + 2] == self.x10
            && nodes[b + 3] == self.x11
    }

    fn hash(self) -> usize {
        crate::index::bucket(self.x00, self.x01, self.x10, self.x11)
    }

    fn note(self, work: &mut [u32], n: usize) {
        let v = crate::property_words::gather_relation(
            work, self.x00, self.x01, self.x10, self.x11,
        );
        crate::property_words::write(work, 4, n, v);
    }

    fn put(self, nodes: &mut [u32], n: usize) {
        let b = 4 * n;
        nodes[b] = self.x00;
        nodes[b + 1] = self.x01;
        nodes[b + 2] = self.x10;
        nodes[b + 3] = self.x11;
    }
}

// The place of the node: the one where it is held, or the next one; none where all places are used up.
pub fn join(
    nodes: &mut [u32],
    work: &mut [u32],
    n: &mut usize,
    x00: u32,
    x01: u32,
    x10: u32,
    x11: u32,
) -> Option<u32>
    ensures { JoinsAs (x00 ∷ x01 ∷ x10 ∷ x11 ∷ []) (going n.old) nodes.old nodes.new work.old work.new (ended n.new result) }
{
    crate::insert::place(nodes, work, n, Four { x00, x01, x10, x11 })
}
