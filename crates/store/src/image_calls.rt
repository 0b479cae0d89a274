// The calls that read relations and may add sets.
ghost use Rattle.std.specs.Prelude.{ℕ};
ghost use Rattle.model.specs.Store.{set};
ghost use Rattle.memory.specs.Performing.{PerformsOn, OtherNodes, going, ended};
ghost use Rattle.store_check.specs.Memory.{memories};
ghost use Rattle.call_rules.specs.Promise.{Replies};
ghost use Rattle.store.specs.Declining.{image_call_no_store};
ghost use Rattle.store.specs.Calls.{image_call, step};
ghost use Rattle.store.specs.ImageCalls.{image_declines, image_program};
ghost use Rattle.call_rules.specs.Checking.{ChecksBoth};

use call_rules::calls::{self, AddsSets};
use call_rules::finish::finish;
use call_rules::{Answer, Refusal, Reply, operands};
use store_check::head::*;

// A call with its arguments, after spp.rs: `fwd` and `bwd` of a relation, `push` of a set through a relation, `pull` of a relation and a set.
#[derive(Clone, Copy)]
pub enum ImageCall {
    Fwd(u32),
    Bwd(u32),
    Push(u32, u32),
    Pull(u32, u32),
}

// Whether a call may run on the first n relations and m sets.
fn check(
    relations: &[u32],
    n: usize,
    sets: &[u32],
    m: usize,
    k: u32,
    call: ImageCall,
) -> Result<u32, Refusal>
    ensures { ChecksBoth relations.now n sets.now m k (λ S. image_declines k call S) result }
{
    match call {
        ImageCall::Fwd(a) | ImageCall::Bwd(a) => operands::one(relations, 4, n, k, a),
        ImageCall::Push(p, a) | ImageCall::Pull(a, p) => operands::pair(
            relations, n, sets, m, k, a, p,
        ),
    }
}

// Runs a call whose operands are of this level.
fn perform(
    relations: &[u32],
    sets: &mut [u32],
    work: &mut [u32],
    n: &mut usize,
    level: u8,
    call: ImageCall,
) -> Option<u32>
    ensures { (j : ℕ) → PerformsOn (OtherNodes set relations.now j) set (image_program level call) (going n.old)
        sets.old sets.new work.old work.new (ended n.new result) }
{
    match call {
        ImageCall::Fwd(a) => relation_images::fwd(relations, sets, work, n, level, a),
        ImageCall::Bwd(a) => relation_images::bwd(relations, sets, work, n, level, a),
        ImageCall::Push(p, a) => relation_images::moves::push(
            relations, sets, work, n, level, p, a,
        ),
        ImageCall::Pull(a, p) => relation_images::moves::pull(
            relations, sets, work, n, level, a, p,
        ),
    }
}

impl AddsSets for ImageCall {
    ghost step = { λ c M. step (image_call c) M };

    // Checks a call on a store, and runs it (lib.rt says why each type of calls has its own).
    fn run_checked(
        self,
        relations: &[u32],
        sets: &mut [u32],
        work: &mut [u32],
    ) -> Result<Answer, Refusal> {
        let k = relations[FIELDS];
        let n = relations[RELATION_COUNT] as usize;
        let m = sets[SET_COUNT] as usize;
        let level = check(
            &relations[RELATION_HEAD..],
            n,
            &sets[SET_HEAD..],
            m,
            k,
            self,
        )?;
        let mut end = m;
        let made = perform(
            &relations[RELATION_HEAD..],
            &mut sets[SET_HEAD..],
            work,
            &mut end,
            level as u8,
            self,
        );
        finish(sets, SET_COUNT, SET_HEAD, 2, m, end, made)
    }

    ghost declines = { image_call_no_store };
}

// A call on any numbers in both memories, with the nodes that it added.
pub fn image_call(
    relations: &[u32],
    sets: &mut [u32],
    work: &mut [u32],
    call: ImageCall,
) -> Reply<Result<Answer, Refusal>>
    ensures { Replies (step (image_call call)) (memories relations.now sets.old)
        (memories relations.now sets.new) work.old work.new result.answer result.added }
{
    calls::add_sets(relations, sets, work, call)
}
