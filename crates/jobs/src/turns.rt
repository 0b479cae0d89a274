// One job's turn in its list, the job and the records that its operands name by value.
ghost use Rattle.std.specs.Prelude.{◌≡◌};
ghost use Rattle.store_check.specs.Memory.{memories};
ghost use Rattle.store.specs.Calls.{step};
ghost use Rattle.call_rules.specs.Promise.{Meets};
ghost use Rattle.jobs.specs.Operations.{as_call};
ghost use Rattle.jobs.specs.Jobs.{answer_in, stands_for, handle_kind, with_answer, answer_kind, answer_value, asks};
ghost use Rattle.jobs.specs.ByValue.{place_of, places_of, kind_number, job_refusal_number, as_asks, CarriesOut, TakesTurn};

use crate::operations::{LAST, Slot, StoreCall, call, operands};
use crate::{Job, Operand};
use call_rules::added::{NodeCounts, held};
use call_rules::{Answer, Refusal};
use store::filter_calls::filter_call;
use store::image_calls::image_call;
use store::path_reads::path_read;
use store::relation_calls::relation_call;
use store::relation_reads::relation_read;
use store::set_calls::set_call;
use store::set_reads::set_read;

// Of what kind the answer in a record is, by the number that stands for it there.
#[derive(Clone, Copy, Debug, PartialEq, Eq)]
pub enum Kind {
    NotRun = 0,
    SetHandle = 1,
    RelationHandle = 2,
    YesOrNo = 3,
    Refused = 4,
}

// Why a job asks for no call.
#[derive(Clone, Copy, Debug, PartialEq, Eq)]
pub enum JobRefusal {
    NoSuchAnswer,
    UnknownOperation,
}

impl From<JobRefusal> for u32 {
    ghost from_gives = { λ r n. n ≡ job_refusal_number r };

    fn from(refusal: JobRefusal) -> u32 {
        match refusal {
            JobRefusal::NoSuchAnswer => 11,
            JobRefusal::UnknownOperation => 12,
        }
    }
}

// The places in the list of the jobs that a job's operands name. Not one generic struct with `Slots`: each is made in one function and read in one, and
// a common name would say less.
#[derive(Clone, Copy)]
pub struct Places {
    pub a: usize,
    pub b: usize,
    pub c: usize,
}

// How many more jobs may be run, and the nodes that the memories hold.
#[derive(Clone, Copy)]
pub struct Tally {
    pub left: u32,
    pub held: NodeCounts,
}

// A job after its turn.
#[derive(Clone, Copy)]
pub struct Turned {
    pub job: Job,
    pub tally: Tally,
}

// The place of the earlier job that an operand of job i names; i, where it names none that is earlier: any record may be read there, and its answer is none.
fn place_of(number: u32, i: usize) -> usize
    ensures { result ≡ place_of number i }
{
    (number as usize).min(i)
}

pub fn find_places(job: Job, i: usize) -> Places
    ensures { result ≡ places_of job i }
{
    Places {
        a: place_of(job.a.number, i),
        b: place_of(job.b.number, i),
        c: place_of(job.c.number, i),
    }
}

// The handle in a record's answer, where it is of the kind that an operand needs.
fn answer_in(slot: Slot, named: Job) -> Option<u32>
    ensures { result ≡ answer_in slot named }
{
    let needed = match slot {
        Slot::Set => Kind::SetHandle,
        Slot::Relation => Kind::RelationHandle,
        Slot::Spare | Slot::Number => return None,
    };
    (named.kind == needed as u32).then_some(named.value)
}

// What an operand stands for, where `named` is the record that it names.
fn stands_for(slot: Slot, operand: Operand, named: Job) -> Option<u32>
    ensures { result ≡ stands_for slot operand named }
{
    match slot {
        Slot::Spare => Some(0),
        _ if operand.job == 0 => Some(operand.number),
        _ => answer_in(slot, named),
    }
}

// The kind of a handle that a call gives.
fn handle_kind(call: StoreCall) -> Kind
    ensures { kind_number result ≡ handle_kind (as_call call) }
{
    match call {
        StoreCall::AddsSet(_)
        | StoreCall::ReadsSet(_)
        | StoreCall::AddsImage(_)
        | StoreCall::ReadsPath(_) => Kind::SetHandle,
        StoreCall::AddsRelation(_) | StoreCall::ReadsRelation(_) | StoreCall::AddsFilter(_) =>
            Kind::RelationHandle,
    }
}

// A call on the memories.
pub fn make_call(
    relations: &mut [u32],
    sets: &mut [u32],
    work: &mut [u32],
    call: StoreCall,
) -> Result<Answer, Refusal>
    ensures { Meets (step (as_call call) (memories relations.old sets.old))
        (memories relations.new sets.new) work.old work.new result }
{
    match call {
        StoreCall::AddsSet(c) => set_call(relations, sets, work, c).answer,
        StoreCall::ReadsSet(c) => set_read(relations, sets, work, c),
        StoreCall::AddsRelation(c) => relation_call(relations, sets, work, c).answer,
        StoreCall::ReadsRelation(c) => relation_read(relations, sets, work, c),
        StoreCall::AddsImage(c) => image_call(relations, sets, work, c).answer,
        StoreCall::AddsFilter(c) => filter_call(relations, sets, work, c).answer,
        StoreCall::ReadsPath(c) => path_read(relations, sets, work, c),
    }
}

fn with_answer(job: Job, kind: Kind, value: u32) -> Job
    ensures { result ≡ with_answer job (kind_number kind) value }
{
    Job {
        kind: kind as u32,
        value,
        ..job
    }
}

// The job with the answer of its call. No operation answers with a node, a pair or a member.
fn answered(job: Job, call: StoreCall, answer: Result<Answer, Refusal>) -> Job
    ensures { result ≡ with_answer job (answer_kind (as_call call) answer) (answer_value answer) }
{
    match answer {
        Ok(Answer::Handle(h)) => with_answer(job, handle_kind(call), h),
        Ok(Answer::Truth(b)) => with_answer(job, Kind::YesOrNo, u32::from(b)),
        Ok(_) => with_answer(job, Kind::YesOrNo, 0),
        Err(refusal) => with_answer(job, Kind::Refused, u32::from(refusal)),
    }
}

// What a job asks for, where a, b and c are the records that its operands name: it is refused with 12, then with 11.
#[tactic(auto, using(crate::proofs::Unknown::of_zero, crate::proofs::Unknown::past_last))]
fn ask(job: Job, a: Job, b: Job, c: Job) -> Result<StoreCall, JobRefusal>
    ensures { as_asks result ≡ asks job a b c }
{
    let n = job.operation;
    if n == 0 || n > LAST {
        return Err(JobRefusal::UnknownOperation);
    }
    let slots = operands(n);
    let x = stands_for(slots.a, job.a, a).ok_or(JobRefusal::NoSuchAnswer)?;
    let y = stands_for(slots.b, job.b, b).ok_or(JobRefusal::NoSuchAnswer)?;
    let z = stands_for(slots.c, job.c, c).ok_or(JobRefusal::NoSuchAnswer)?;
    Ok(call(n, x, y, z))
}

// A job that asks for this is run.
fn carry_out(
    relations: &mut [u32],
    sets: &mut [u32],
    work: &mut [u32],
    job: Job,
    asked: Result<StoreCall, JobRefusal>,
) -> Job
    ensures { CarriesOut job (as_asks asked) (memories relations.old sets.old)
        (memories relations.new sets.new) work.old work.new result }
{
    match asked {
        Ok(call) => answered(job, call, make_call(relations, sets, work, call)),
        Err(reason) => with_answer(job, Kind::Refused, u32::from(reason)),
    }
}

// A job's turn: it is run where it is not yet and one more may be.
pub fn run_one(
    relations: &mut [u32],
    sets: &mut [u32],
    work: &mut [u32],
    job: Job,
    a: Job,
    b: Job,
    c: Job,
    tally: Tally,
) -> Turned
    ensures { TakesTurn tally.left job a b c (memories relations.old sets.old)
        (memories relations.new sets.new) work.old work.new result }
{
    let mut after = job;
    let mut left = tally.left;
    if left > 0 && job.kind == Kind::NotRun as u32 {
        after = carry_out(relations, sets, work, job, ask(job, a, b, c));
        left -= 1;
    }
    Turned {
        job: after,
        tally: Tally {
            left,
            held: held(relations, sets),
        },
    }
}
