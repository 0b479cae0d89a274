// The call on a list of jobs under its C name: include/packet_store.h says what it does.
#![tactic(auto)]

ghost use Rattle.store_check.specs.Memory.{memories};
ghost use Rattle.jobs.specs.Packed.{RunsJobs};

use jobs::Job;

// Runs the jobs that are not run yet, in their order, `limit` of them at most.
#[unsafe(no_mangle)]
pub extern "C" fn packet_store_run_jobs(
    relations: &mut [u32],
    sets: &mut [u32],
    work: &mut [u32],
    jobs: &mut [Job],
    limit: u32,
) -> packing::AddedReply
    ensures { RunsJobs jobs.old limit (memories relations.old sets.old)
        (memories relations.new sets.new) work.old work.new result jobs.new }
{
    jobs::exported::packet_store_run_jobs(relations, sets, work, jobs, limit)
}
