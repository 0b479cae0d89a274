// The calls that read sets and may add relations.
ghost use Rattle.std.specs.Prelude.{Err, ℕ};
ghost use Rattle.model.specs.Store.{set, rel};
ghost use Rattle.memory.specs.Performing.{PerformsOn, OtherNodes, going, ended};
ghost use Rattle.store_check.specs.Memory.{memories};
ghost use Rattle.call_rules.specs.Promise.{Replies};
ghost use Rattle.store.specs.Declining.{filter_call_no_store};
ghost use Rattle.store.specs.Calls.{filter_call, step};
ghost use Rattle.store.specs.ImageCalls.{filter_declines, filter_program};
ghost use Rattle.call_rules.specs.Checking.{Checks};

use call_rules::calls::{self, AddsRelations};
use call_rules::finish::finish;
use call_rules::{Answer, Refusal, Reply, operands};
use store_check::head::*;

// A call with its argument, a set, after spp.rs.
#[derive(Clone, Copy)]
pub enum FilterCall {
    Diagonal(u32),
    Ifwd(u32),
    Ibwd(u32),
}

// Whether a call may run on the first m sets.
fn check(sets: &[u32], m: usize, k: u32, call: FilterCall) -> Result<u32, Refusal>
    ensures { Checks set sets.now m k (λ S. filter_declines k call S) result }
{
    match call {
        FilterCall::Diagonal(p) | FilterCall::Ifwd(p) | FilterCall::Ibwd(p) => operands::one(
            sets, 2, m, k, p,
        ),
    }
}

// Runs a call whose operand is of this level.
fn perform(
    sets: &[u32],
    relations: &mut [u32],
    work: &mut [u32],
    n: &mut usize,
    level: u8,
    call: FilterCall,
) -> Option<u32>
    ensures { (j : ℕ) → PerformsOn (OtherNodes rel sets.now j) rel (filter_program level call) (going n.old)
        relations.old relations.new work.old work.new (ended n.new result) }
{
    match call {
        FilterCall::Diagonal(p) => relation_images::filters::diagonal(
            sets, relations, work, n, level, p,
        ),
        FilterCall::Ifwd(p) => relation_images::filters::ifwd(sets, relations, work, n, level, p),
        FilterCall::Ibwd(p) => relation_images::filters::ibwd(sets, relations, work, n, level, p),
    }
}

impl AddsRelations for FilterCall {
    type Output = Result<Answer, Refusal>;

    ghost refuse = { Err };

    ghost step = { λ c M. step (filter_call c) M };

    // A call that is declined.
    fn refused(refusal: Refusal) -> Result<Answer, Refusal> {
        Err(refusal)
    }

    // Checks a call on a store, and runs it (lib.rt says why each type of calls has its own).
    fn run_checked(
        self,
        relations: &mut [u32],
        sets: &[u32],
        work: &mut [u32],
    ) -> Result<Answer, Refusal> {
        let k = relations[FIELDS];
        let n = relations[RELATION_COUNT] as usize;
        let m = sets[SET_COUNT] as usize;
        let level = check(&sets[SET_HEAD..], m, k, self)?;
        let mut end = n;
        let made = perform(
            &sets[SET_HEAD..],
            &mut relations[RELATION_HEAD..],
            work,
            &mut end,
            level as u8,
            self,
        );
        finish(relations, RELATION_COUNT, RELATION_HEAD, 4, n, end, made)
    }

    ghost declines = { filter_call_no_store };
}

// A call on any numbers in both memories, with the nodes that it added.
pub fn filter_call(
    relations: &mut [u32],
    sets: &[u32],
    work: &mut [u32],
    call: FilterCall,
) -> Reply<Result<Answer, Refusal>>
    ensures { Replies (step (filter_call call)) (memories relations.old sets.now)
        (memories relations.new sets.now) work.old work.new result.answer result.added }
{
    calls::add_relations(relations, sets, work, call)
}
