// The call on a list of jobs, which `jobs_c` exports under this name: include/packet_store.h says what it does.
ghost use Rattle.store_check.specs.Memory.{memories};
ghost use Rattle.jobs.specs.Packed.{RunsJobs};

use crate::Job;
use crate::begins::{begin, conclude};
use crate::turns::{find_places, run_one};
use packing::AddedReply;

// Runs the jobs that are not run yet, in their order, `limit` of them at most. All else is in the functions that take a job by value; a call that is
// declined has no turns.
pub fn packet_store_run_jobs(
    relations: &mut [u32],
    sets: &mut [u32],
    work: &mut [u32],
    jobs: &mut [Job],
    limit: u32,
) -> AddedReply
    ensures { RunsJobs jobs.old limit (memories relations.old sets.old)
        (memories relations.new sets.new) work.old work.new result jobs.new }
{
    let begun = begin(relations, sets, work, jobs.len(), limit);
    let mut tally = begun.tally;
    for i in 0..begun.turns.unwrap_or(0) {
        let job = jobs[i];
        let at = find_places(job, i);
        let a = jobs[at.a];
        let b = jobs[at.b];
        let c = jobs[at.c];
        let done = run_one(relations, sets, work, job, a, b, c, tally);
        jobs[i] = done.job;
        tally = done.tally;
    }
    conclude(begun, tally)
}
