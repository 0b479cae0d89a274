// A node joins the nodes of its kind.
ghost use Rattle.std.specs.Prelude.{◌≡◌, ◌<◌, length};
ghost use Rattle.memory.specs.Performing.{going, ended, JoinsAs};

use crate::index::Numbers;

// The place of the node x: the one where it is held, or the next one; none where all places are used up.
pub(crate) fn place<X: Numbers>(
    nodes: &mut [u32],
    work: &mut [u32],
    n: &mut usize,
    x: X,
) -> Option<u32>
    requires { 0 < length (X.list x) }
    ensures { JoinsAs (X.list x) (going n.old) nodes.old nodes.new work.old work.new (ended n.new result) }
{
    let end = *n;
    let p = crate::places_of(nodes.len(), x.count());
    if end > p {
        return None;
    }
    let b = x.hash();
    if let Some(i) = crate::index::search(nodes, work, end, b, x) {
        return Some(i as u32);
    }
    if end >= p {
        return None;
    }
    x.put(nodes, end);
    x.note(work, end);
    crate::index::link_in(work, end, b);
    *n = end + 1;
    Some(end as u32)
}

// The same for a node in a slice.
pub fn join(nodes: &mut [u32], work: &mut [u32], n: &mut usize, x: &[u32]) -> Option<u32>
    requires { 0 < length x.now }
    ensures { JoinsAs x.now (going n.old) nodes.old nodes.new work.old work.new (ended n.new result) }
{
    place(nodes, work, n, x)
}
