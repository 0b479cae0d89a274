// The end of a run on the nodes of one kind.
ghost use Rattle.std.specs.Prelude.{◌≡◌, ℕ, ◌+◌, ◌*◌, ◌<◌, ◌≤◌, length};
ghost use Rattle.memory.specs.Rows.{most_places};
ghost use Rattle.memory.specs.Performing.{ended};
ghost use Rattle.store_check.specs.Commit.{Committed};

// The count, which is at `at`, is written where the run fitted, or the nodes are again as they were: n nodes of c numbers, which begin at `start`.
// The run ended with `end` nodes, and gave a handle where it fitted.
pub fn commit(
    memory: &mut [u32],
    at: usize,
    start: usize,
    c: usize,
    n: usize,
    end: usize,
    made: Option<u32>,
)
    requires { (at < start) × (n ≤ end) × (end ≤ most_places) × (start + c * end ≤ length memory.old) }
    ensures { Committed memory.old memory.new at start c n (ended end made) }
{
    if made.is_some() {
        memory[at] = end as u32;
        return;
    }
    let s = start + c * n;
    let e = start + c * end;
    memory[s..e].fill(0);
}
