// The index turned to the nodes of the other kind, for calls that add nodes of both kinds.
ghost use Rattle.std.specs.Prelude.{◌*◌, ◌≤◌, length};
ghost use Rattle.memory.specs.Rows.{most_places};
ghost use Rattle.store_check.specs.Reindexing.{Reindexed};

use memory::index;

// The index is of these n nodes of c numbers, whatever it was of; memo and property words stay.
pub fn reindex(nodes: &[u32], work: &mut [u32], c: usize, n: usize)
    requires { (c * n ≤ length nodes.now) × (n ≤ most_places) }
    ensures { Reindexed c n nodes.now work.old work.new }
{
    index::empty(work);
    for i in 0..n {
        index::enter(nodes, work, c, i);
    }
}
