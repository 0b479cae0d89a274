// The end of a call that ran a program on the nodes of one kind.
ghost use Rattle.std.specs.Prelude.{◌≡◌, ℕ, ◌+◌, ◌*◌, ◌<◌, ◌≤◌, length};
ghost use Rattle.memory.specs.Rows.{most_places};
ghost use Rattle.memory.specs.Performing.{ended};
ghost use Rattle.call_rules.specs.Finishing.{Finished};

use crate::{Answer, Refusal};
use store_check::commit::commit;

// The handle, or 6 and the nodes are again as they were: n nodes of c numbers, which begin at `start`; their count is at `at`. The run ended with `end` nodes.
pub fn finish(
    memory: &mut [u32],
    at: usize,
    start: usize,
    c: usize,
    n: usize,
    end: usize,
    made: Option<u32>,
) -> Result<Answer, Refusal>
    requires { (at < start) × (n ≤ end) × (end ≤ most_places) × (start + c * end ≤ length memory.old) }
    ensures { Finished memory.old memory.new at start c n (ended end made) result }
{
    commit(memory, at, start, c, n, end, made);
    if let Some(h) = made {
        return Ok(Answer::Handle(h));
    }
    Err(Refusal::UsedUp)
}
