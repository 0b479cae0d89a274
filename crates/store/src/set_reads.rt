// The calls on sets that add nothing.
ghost use Rattle.std.specs.Prelude.{◌≡◌, true, ℕ, ◌≤◌};
ghost use Rattle.model.specs.Store.{set};
ghost use Rattle.store_check.specs.Memory.{memories};
ghost use Rattle.call_rules.specs.Promise.{Meets};
ghost use Rattle.store.specs.Calls.{set_read, step};
ghost use Rattle.store.specs.Declining.{set_read_no_store};
ghost use Rattle.store.specs.SetCalls.{set_read_declines, set_read_answer};
ghost use Rattle.call_rules.specs.Checking.{Checks, Answered};
ghost use Rattle.store.specs.SetChecking.{SetReadSafe, from_rank};
ghost use Rattle.store.specs.declared.set_reads.SetRead.TheVariants.{Next};

use call_rules::calls::{self, Reads};
use call_rules::{Answer, Refusal, operands};
use first_paths::members::{first_from, reversed};
use memory::property_words::other;
use store_check::head::*;

// The place that a caller has reached in a set's members: the set's handle, the last member given, whether any was given and whether the end was met.
// Of the two marks 0 is no and any other number yes.
#[repr(C)]
#[derive(Clone, Copy)]
pub struct Cursor {
    pub handle: u32,
    pub last: u32,
    pub given: u32,
    pub ended: u32,
}

// A call with its arguments, after sp.rs; `Next` is 02's.
#[derive(Clone, Copy)]
pub enum SetRead {
    Get(u32),
    Complement(u32),
    IsZero(u32),
    Intersects(u32, u32),
    Next(Cursor),
}

// The level of a call's operands on the first n nodes.
fn check(nodes: &[u32], n: usize, k: u32, call: SetRead) -> Result<u32, Refusal>
    requires { k ≤ 32 }
    ensures { Checks set nodes.now n k (λ S. set_read_declines k call S) result }
{
    match call {
        SetRead::Get(a) => operands::parent(nodes, 2, n, k, a),
        SetRead::Complement(a) | SetRead::IsZero(a) => operands::one(nodes, 2, n, k, a),
        SetRead::Intersects(a, b) => operands::two(nodes, 2, n, k, a, b),
        SetRead::Next(c) => operands::given(nodes, n, k, c.handle, c.given, c.last),
    }
}

// The rank from which on members of this level are to come.
fn from(level: u8, c: Cursor) -> u64
    requires { level ≤ 32 }
    ensures { result ≡ from_rank level c }
{
    if c.given == 0 {
        return 0;
    }
    let last = c.last;
    let rank = reversed(level, last);
    rank as u64 + 1
}

// The next member of a set of this level.
fn next_member(nodes: &[u32], work: &[u32], level: u8, c: Cursor) -> Answer
    requires { level ≤ 32 }
    ensures { (n : ℕ) → Answered set nodes.now work.now n (λ S. SetReadSafe S level (Next c))
        (λ S. set_read_answer S level (Next c)) result }
{
    if c.ended != 0 {
        return Answer::Nothing;
    }
    let r = first_from(nodes, work, level, c.handle, from(level, c));
    if r < memory::power(level) {
        let rank = r as u32;
        let x = reversed(level, rank);
        return Answer::Member(x);
    }
    Answer::Nothing
}

// The answer of a call whose operands are of this level, among any number of nodes.
fn answer(nodes: &[u32], work: &mut [u32], level: u8, call: SetRead) -> Answer
    requires { level ≤ 32 }
    ensures { (n : ℕ) → Answered set nodes.now work.old n (λ S. SetReadSafe S level call) (λ S. set_read_answer S level call) result }
{
    match call {
        SetRead::Get(a) => {
            let x = sets::get(nodes, a);
            Answer::SetNode(x.x0, x.x1)
        }
        SetRead::Complement(a) => Answer::Handle(other(a)),
        SetRead::IsZero(a) => Answer::Truth(sets::is_zero(nodes, work, level, a)),
        SetRead::Intersects(a, b) => Answer::Truth(sets::intersects(nodes, work, level, a, b)),
        SetRead::Next(c) => next_member(nodes, work, level, c),
    }
}

impl Reads for SetRead {
    const SETS_LAST: bool = true;

    ghost SETS_LAST = { true };

    ghost step = { λ c M. step (set_read c) M };

    // Checks a call on a store, and answers it (lib.rt says why each type of calls has its own).
    fn run_checked(
        self,
        relations: &[u32],
        sets: &[u32],
        work: &mut [u32],
    ) -> Result<Answer, Refusal> {
        let k = relations[FIELDS];
        let n = sets[SET_COUNT] as usize;
        let nodes = &sets[SET_HEAD..];
        let level = check(nodes, n, k, self)?;
        Ok(answer(nodes, work, level as u8, self))
    }

    ghost declines = { set_read_no_store };
}

// A call on any numbers in both memories.
pub fn set_read(
    relations: &[u32],
    sets: &[u32],
    work: &mut [u32],
    call: SetRead,
) -> Result<Answer, Refusal>
    ensures { Meets (step (set_read call) (memories relations.now sets.now))
        (memories relations.now sets.now) work.old work.new result }
{
    calls::read(relations, sets, work, call)
}
