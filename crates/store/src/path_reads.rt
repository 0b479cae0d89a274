// The calls on relations and sets that add nothing.
ghost use Rattle.std.specs.Prelude.{true, ℕ, ◌≤◌};
ghost use Rattle.model.specs.Store.{set};
ghost use Rattle.memory.specs.Performing.{OtherNodes};
ghost use Rattle.store_check.specs.Memory.{memories};
ghost use Rattle.call_rules.specs.Promise.{Meets};
ghost use Rattle.store.specs.Declining.{path_read_no_store};
ghost use Rattle.store.specs.Calls.{path_read, step};
ghost use Rattle.store.specs.ImageCalls.{path_declines, path_answer};
ghost use Rattle.store.specs.ImageChecking.{PathSafe};
ghost use Rattle.store.specs.declared.path_reads.PathRead.TheVariants.{FirstPath};
ghost use Rattle.call_rules.specs.Checking.{ChecksBoth, AnsweredOn};

use call_rules::calls::{self, Reads};
use call_rules::{Answer, Refusal, operands};
use first_paths::first_pair;
use relation_paths::{has_image, has_path};
use store_check::head::*;

// A call with its arguments, after spp.rs: an input set and a relation, and for a path an output set.
#[derive(Clone, Copy)]
pub enum PathRead {
    HasImage(u32, u32),
    HasPath(u32, u32, u32),
    FirstPath(u32, u32, u32),
}

// The level of a call's operands on the first n relations and m sets.
fn check(
    relations: &[u32],
    n: usize,
    sets: &[u32],
    m: usize,
    k: u32,
    call: PathRead,
) -> Result<u32, Refusal>
    ensures { ChecksBoth relations.now n sets.now m k (λ S. path_declines k call S) result }
{
    match call {
        PathRead::HasImage(p, a) => operands::pair(relations, n, sets, m, k, a, p),
        PathRead::HasPath(p, a, q) | PathRead::FirstPath(p, a, q) => operands::path(
            relations, n, sets, m, k, p, a, q,
        ),
    }
}

// The first pair from p by a to q, if there is one.
fn first_path(
    relations: &[u32],
    sets: &[u32],
    work: &mut [u32],
    level: u8,
    p: u32,
    a: u32,
    q: u32,
) -> Answer
    requires { level ≤ 32 }
    ensures { (j n : ℕ) → AnsweredOn (OtherNodes set relations.now j) set sets.now work.old n
        (λ S. PathSafe S level (FirstPath p a q)) (λ S. path_answer S level (FirstPath p a q)) result }
{
    if !has_path(relations, sets, work, level, p, a, q) {
        return Answer::Nothing;
    }
    let pair = first_pair(relations, sets, work, level, p, a, q);
    Answer::Pair(pair.input, pair.output)
}

// The answer of a call whose operands are of this level, among any number of sets.
fn answer(relations: &[u32], sets: &[u32], work: &mut [u32], level: u8, call: PathRead) -> Answer
    requires { level ≤ 32 }
    ensures { (j n : ℕ) → AnsweredOn (OtherNodes set relations.now j) set sets.now work.old n
        (λ S. PathSafe S level call) (λ S. path_answer S level call) result }
{
    match call {
        PathRead::HasImage(p, a) => Answer::Truth(has_image(relations, sets, work, level, p, a)),
        PathRead::HasPath(p, a, q) => Answer::Truth(has_path(
            relations, sets, work, level, p, a, q,
        )),
        PathRead::FirstPath(p, a, q) => first_path(relations, sets, work, level, p, a, q),
    }
}

impl Reads for PathRead {
    const SETS_LAST: bool = true;

    ghost SETS_LAST = { true };

    ghost step = { λ c M. step (path_read c) M };

    // Checks a call on a store, and answers it (lib.rt says why each type of calls has its own).
    fn run_checked(
        self,
        relations: &[u32],
        sets: &[u32],
        work: &mut [u32],
    ) -> Result<Answer, Refusal> {
        let k = relations[FIELDS];
        let n = relations[RELATION_COUNT] as usize;
        let m = sets[SET_COUNT] as usize;
        let relation_nodes = &relations[RELATION_HEAD..];
        let set_nodes = &sets[SET_HEAD..];
        let level = check(relation_nodes, n, set_nodes, m, k, self)?;
        Ok(answer(relation_nodes, set_nodes, work, level as u8, self))
    }

    ghost declines = { path_read_no_store };
}

// A call on any numbers in both memories.
pub fn path_read(
    relations: &[u32],
    sets: &[u32],
    work: &mut [u32],
    call: PathRead,
) -> Result<Answer, Refusal>
    ensures { Meets (step (path_read call) (memories relations.now sets.now))
        (memories relations.now sets.now) work.old work.new result }
{
    calls::read(relations, sets, work, call)
}
