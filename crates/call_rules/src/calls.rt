// Calls on two lent memories, by what they may add: each runs only where the memories are a store, and leaves the working memory zero.
ghost use Rattle.std.specs.Prelude.{◌≡◌, Bool, false, Result, Err};
ghost use Rattle.model.specs.Store.{set, rel};
ghost use Rattle.store_check.specs.Memory.{Memories, memories};
ghost use Rattle.store_check.specs.StoreChecking.{kind_last};
ghost use Rattle.store_check.specs.Valid.{is_store};
ghost use Rattle.call_rules.specs.Checking.{CheckedStore};
ghost use Rattle.call_rules.specs.Outcome.{Outcome, outcome};
ghost use Rattle.call_rules.specs.Promise.{Meets, Replies};
ghost use Rattle.call_rules.specs.declared.Answer.{Answer};
ghost use Rattle.call_rules.specs.declared.Refusal.{Refusal};
ghost use Rattle.call_rules.specs.declared.Refusal.TheVariants.{NotStore};

use crate::added::{held, since};
use crate::{Answer, Refusal, Reply};

// A call that adds nothing.
pub trait Reads: Copy {
    // Whether it reads sets by the index; else it reads relations by it.
    const SETS_LAST: bool;

    ghost SETS_LAST: { Bool };

    // Its outcome.
    ghost step: { Self → Memories → Outcome (Result Answer Refusal) Memories };

    // Checks it on a store, and answers it.
    fn run_checked(
        self,
        relations: &[u32],
        sets: &[u32],
        work: &mut [u32],
    ) -> Result<Answer, Refusal>
        requires { CheckedStore (kind_last SETS_LAST) (memories relations.now sets.now) work.old }
        ensures { outcome result (memories relations.now sets.now)
            ≡ step self (memories relations.now sets.now) };

    // On memories that are no store.
    ghost declines: { (c : Self) (M : Memories) → is_store M ≡ false → outcome (Err NotStore) M ≡ step c M };
}

// A call that may add sets. Which memory is lent by `&mut` is no parameter of a type, so this trait and the next, and their functions, are two.
pub trait AddsSets: Copy {
    // Its outcome.
    ghost step: { Self → Memories → Outcome (Result Answer Refusal) Memories };

    // Checks it on a store, and runs it.
    fn run_checked(
        self,
        relations: &[u32],
        sets: &mut [u32],
        work: &mut [u32],
    ) -> Result<Answer, Refusal>
        requires { CheckedStore set (memories relations.now sets.old) work.old }
        ensures { outcome result (memories relations.now sets.new)
            ≡ step self (memories relations.now sets.old) };

    // On memories that are no store.
    ghost declines: { (c : Self) (M : Memories) → is_store M ≡ false → outcome (Err NotStore) M ≡ step c M };
}

// A call that may add relations. A policy has refusals of its own, so what a call answers is its own.
pub trait AddsRelations: Copy {
    type Output: Copy;

    // The answer of a call that is declined.
    ghost refuse: { Refusal → Self.Output };

    // Its outcome.
    ghost step: { Self → Memories → Outcome Self.Output Memories };

    fn refused(refusal: Refusal) -> Self::Output
        ensures { result ≡ refuse refusal };

    // Checks it on a store, and runs it.
    fn run_checked(self, relations: &mut [u32], sets: &[u32], work: &mut [u32]) -> Self::Output
        requires { CheckedStore rel (memories relations.old sets.now) work.old }
        ensures { outcome result (memories relations.new sets.now)
            ≡ step self (memories relations.old sets.now) };

    // On memories that are no store.
    ghost declines: { (c : Self) (M : Memories) → is_store M ≡ false → outcome (refuse NotStore) M ≡ step c M };
}

// A call that adds nothing, on any numbers in both memories.
pub fn read<C: Reads>(
    relations: &[u32],
    sets: &[u32],
    work: &mut [u32],
    call: C,
) -> Result<Answer, Refusal>
    ensures { Meets (C.step call (memories relations.now sets.now))
        (memories relations.now sets.now) work.old work.new result }
{
    let is_store = store_check::is_store(relations, sets, work, C::SETS_LAST);
    let answer = if is_store {
        call.run_checked(relations, sets, work)
    } else {
        Err(Refusal::NotStore)
    };
    memory::clear(work);
    answer
}

// A call that may add sets, on any numbers in both memories.
pub fn add_sets<C: AddsSets>(
    relations: &[u32],
    sets: &mut [u32],
    work: &mut [u32],
    call: C,
) -> Reply<Result<Answer, Refusal>>
    ensures { Replies (C.step call) (memories relations.now sets.old)
        (memories relations.now sets.new) work.old work.new result.answer result.added }
{
    let before = held(relations, sets);
    let is_store = store_check::is_store(relations, sets, work, true);
    let answer = if is_store {
        call.run_checked(relations, sets, work)
    } else {
        Err(Refusal::NotStore)
    };
    memory::clear(work);
    let added = since(before, held(relations, sets));
    Reply { answer, added }
}

// A call that may add relations, on any numbers in both memories.
pub fn add_relations<C: AddsRelations>(
    relations: &mut [u32],
    sets: &[u32],
    work: &mut [u32],
    call: C,
) -> Reply<C::Output>
    ensures { Replies (C.step call) (memories relations.old sets.now)
        (memories relations.new sets.now) work.old work.new result.answer result.added }
{
    let before = held(relations, sets);
    let is_store = store_check::is_store(relations, sets, work, false);
    let answer = if is_store {
        call.run_checked(relations, sets, work)
    } else {
        C::refused(Refusal::NotStore)
    };
    memory::clear(work);
    let added = since(before, held(relations, sets));
    Reply { answer, added }
}
