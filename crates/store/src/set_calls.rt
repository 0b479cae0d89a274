// The calls that may add sets.
ghost use Rattle.model.specs.Store.{set};
ghost use Rattle.memory.specs.Performing.{Performs, going, ended};
ghost use Rattle.store_check.specs.Memory.{memories};
ghost use Rattle.call_rules.specs.Promise.{Replies};
ghost use Rattle.store.specs.Declining.{set_call_no_store};
ghost use Rattle.store.specs.Calls.{set_call, step};
ghost use Rattle.store.specs.SetCalls.{set_declines, set_program};
ghost use Rattle.call_rules.specs.Checking.{Checks};
ghost use Rattle.store.specs.SetChecking.{SetFieldFits};

use call_rules::calls::{self, AddsSets};
use call_rules::finish::finish;
use call_rules::{Answer, Refusal, Reply, operands};
use sets::fields;
use store_check::head::*;

// A call with its arguments, after sp.rs: handles, and for `test` and `ifelse` a field first; a value is 0 or 1.
#[derive(Clone, Copy)]
pub enum SetCall {
    Mk(u32, u32),
    Zero,
    One,
    Union(u32, u32),
    Intersect(u32, u32),
    Xor(u32, u32),
    Difference(u32, u32),
    Test(u32, u32),
    Ifelse(u32, u32, u32),
}

// Whether a call may run on the first n nodes.
fn check(nodes: &[u32], n: usize, k: u32, call: SetCall) -> Result<u32, Refusal>
    ensures { Checks set nodes.now n k (λ S. set_declines k call S) result }
{
    match call {
        SetCall::Mk(a, b) => operands::two_children(nodes, 2, n, k, a, b),
        SetCall::Zero | SetCall::One => Ok(k),
        SetCall::Union(a, b)
        | SetCall::Intersect(a, b)
        | SetCall::Xor(a, b)
        | SetCall::Difference(a, b) => operands::two(nodes, 2, n, k, a, b),
        SetCall::Test(var, value) => operands::field(k, var, value),
        SetCall::Ifelse(var, t, e) => operands::branches(nodes, 2, n, k, var, t, e),
    }
}

// Runs a call whose operands are of this level, in a store of k fields.
fn perform(
    nodes: &mut [u32],
    work: &mut [u32],
    n: &mut usize,
    k: u8,
    level: u8,
    call: SetCall,
) -> Option<u32>
    requires { SetFieldFits call }
    ensures { Performs set (set_program k level call) (going n.old) nodes.old nodes.new work.old work.new (ended n.new result) }
{
    match call {
        SetCall::Mk(a, b) => sets::mk(nodes, work, n, a, b),
        SetCall::Zero => sets::zero_at_depth(nodes, work, n, k),
        SetCall::One => sets::one_at_depth(nodes, work, n, k),
        SetCall::Union(a, b) => sets::union(nodes, work, n, level, a, b),
        SetCall::Intersect(a, b) => sets::intersect(nodes, work, n, level, a, b),
        SetCall::Xor(a, b) => sets::xor(nodes, work, n, level, a, b),
        SetCall::Difference(a, b) => sets::difference(nodes, work, n, level, a, b),
        SetCall::Test(var, value) => fields::test(nodes, work, n, k, var as u8, value == 1),
        SetCall::Ifelse(var, t, e) => fields::ifelse(nodes, work, n, level, var as u8, t, e),
    }
}

impl AddsSets for SetCall {
    ghost step = { λ c M. step (set_call c) M };

    // Checks a call on a store, and runs it (lib.rt says why each type of calls has its own).
    fn run_checked(
        self,
        relations: &[u32],
        sets: &mut [u32],
        work: &mut [u32],
    ) -> Result<Answer, Refusal> {
        let k = relations[FIELDS];
        let n = sets[SET_COUNT] as usize;
        let level = check(&sets[SET_HEAD..], n, k, self)?;
        let mut end = n;
        let made = perform(
            &mut sets[SET_HEAD..],
            work,
            &mut end,
            k as u8,
            level as u8,
            self,
        );
        finish(sets, SET_COUNT, SET_HEAD, 2, n, end, made)
    }

    ghost declines = { set_call_no_store };
}

// A call on any numbers in both memories, with the nodes that it added.
pub fn set_call(
    relations: &[u32],
    sets: &mut [u32],
    work: &mut [u32],
    call: SetCall,
) -> Reply<Result<Answer, Refusal>>
    ensures { Replies (step (set_call call)) (memories relations.now sets.old)
        (memories relations.now sets.new) work.old work.new result.answer result.added }
{
    calls::add_sets(relations, sets, work, call)
}
