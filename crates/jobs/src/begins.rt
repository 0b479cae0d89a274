// How a call on a list of jobs begins and ends.
ghost use Rattle.std.specs.Prelude.{◌≡◌};
ghost use Rattle.store_check.specs.Memory.{memories};
ghost use Rattle.jobs.specs.ByValue.{zeros, begun_of, concluded};

use crate::turns::Tally;
use call_rules::Refusal;
use call_rules::added::{held, since};
use packing::{AddedReply, with_added};

// The most jobs of a list.
const MOST: usize = 256;

// The turns that a call has, or the number of its refusal, and the tally at its first turn. A number: `conclude` takes any that a call may be declined
// with, and `Refusal` names seven.
#[derive(Clone, Copy)]
pub struct Begun {
    pub turns: Result<usize, u32>,
    pub tally: Tally,
}

// Judges the memories and the number of jobs. It writes to neither memory; they come as they are lent to a turn.
pub fn begin(
    relations: &mut [u32],
    sets: &mut [u32],
    work: &mut [u32],
    jobs: usize,
    limit: u32,
) -> Begun
    ensures { (result ≡ begun_of (memories relations.old sets.old) jobs limit)
        × (relations.new ≡ relations.old) × (sets.new ≡ sets.old) × (work.new ≡ zeros work.old) }
{
    let tally = Tally {
        left: limit,
        held: held(relations, sets),
    };
    let is_good = store_check::is_store(relations, sets, work, false);
    work.fill(0);
    let turns = if !is_good {
        Err(u32::from(Refusal::NotStore))
    } else if jobs > MOST {
        Err(u32::from(Refusal::OutOfRange))
    } else {
        Ok(jobs)
    };
    Begun { turns, tally }
}

// The answer of the whole call, from how it began and the tally after its last turn.
pub fn conclude(begun: Begun, tally: Tally) -> AddedReply
    ensures { result ≡ concluded begun tally }
{
    let added = since(begun.tally.held, tally.held);
    match begun.turns {
        Ok(_) => with_added(begun.tally.left.saturating_sub(tally.left) as u64, added),
        Err(refusal) => with_added(refusal as u64 * 0x1_0000_0000, added),
    }
}
