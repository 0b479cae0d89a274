// The calls on relations that add nothing.
ghost use Rattle.std.specs.Prelude.{false, ◌≤◌, ℕ};
ghost use Rattle.model.specs.Store.{rel};
ghost use Rattle.store_check.specs.Memory.{memories};
ghost use Rattle.call_rules.specs.Promise.{Meets};
ghost use Rattle.store.specs.Declining.{relation_read_no_store};
ghost use Rattle.store.specs.Calls.{relation_read, step};
ghost use Rattle.store.specs.RelationCalls.{relation_read_declines, relation_read_answer};
ghost use Rattle.call_rules.specs.Checking.{Checks, Answered};
ghost use Rattle.store.specs.RelationChecking.{RelationReadSafe, WalksPair};

use call_rules::calls::{self, Reads};
use call_rules::{Answer, Refusal, operands};
use memory::property_words::child_of;
use store_check::head::*;

// A call with its arguments, after spp.rs; `relates` has a relation, an input and an output.
#[derive(Clone, Copy)]
pub enum RelationRead {
    Get(u32),
    IsZero(u32),
    Relates(u32, u32, u32),
}

// The level of a call's operands on the first n nodes.
fn check(nodes: &[u32], n: usize, k: u32, call: RelationRead) -> Result<u32, Refusal>
    requires { k ≤ 32 }
    ensures { Checks rel nodes.now n k (λ S. relation_read_declines k call S) result }
{
    match call {
        RelationRead::Get(a) => operands::parent(nodes, 4, n, k, a),
        RelationRead::IsZero(a) => operands::one(nodes, 4, n, k, a),
        RelationRead::Relates(a, input, output) => operands::packets(nodes, n, k, a, input, output),
    }
}

// Whether the walk from a handle of this level along the fields of two packets ends at 1.
fn relates(nodes: &[u32], level: u8, a: u32, input: u32, output: u32) -> bool
    requires { level ≤ 32 }
    ensures { WalksPair nodes.now level a input output result }
{
    let mut h = a;
    let mut i = input;
    let mut o = output;
    for _step in 0..level {
        let digit = 2 * (i % 2) + o % 2;
        h = child_of(nodes, 4, h, digit as usize);
        i /= 2;
        o /= 2;
    }
    h == 1
}

// The answer of a call whose operands are of this level, among any number of nodes.
fn answer(nodes: &[u32], work: &mut [u32], level: u8, call: RelationRead) -> Answer
    requires { level ≤ 32 }
    ensures { (n : ℕ) → Answered rel nodes.now work.old n
        (λ S. RelationReadSafe S level call) (λ S. relation_read_answer S level call) result }
{
    match call {
        RelationRead::Get(a) => {
            let x = relations::get(nodes, a);
            Answer::RelationNode(x.x00, x.x01, x.x10, x.x11)
        }
        RelationRead::IsZero(a) => Answer::Truth(relations::is_zero(nodes, work, level, a)),
        RelationRead::Relates(a, input, output) => Answer::Truth(relates(
            nodes, level, a, input, output,
        )),
    }
}

impl Reads for RelationRead {
    const SETS_LAST: bool = false;

    ghost SETS_LAST = { false };

    ghost step = { λ c M. step (relation_read c) M };

    // Checks a call on a store, and answers it (lib.rt says why each type of calls has its own).
    fn run_checked(
        self,
        relations: &[u32],
        sets: &[u32],
        work: &mut [u32],
    ) -> Result<Answer, Refusal> {
        let k = relations[FIELDS];
        let n = relations[RELATION_COUNT] as usize;
        let nodes = &relations[RELATION_HEAD..];
        let level = check(nodes, n, k, self)?;
        Ok(answer(nodes, work, level as u8, self))
    }

    ghost declines = { relation_read_no_store };
}

// A call on any numbers in both memories.
pub fn relation_read(
    relations: &[u32],
    sets: &[u32],
    work: &mut [u32],
    call: RelationRead,
) -> Result<Answer, Refusal>
    ensures { Meets (step (relation_read call) (memories relations.now sets.now))
        (memories relations.now sets.now) work.old work.new result }
{
    calls::read(relations, sets, work, call)
}
