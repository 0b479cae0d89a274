// Lists of jobs: calls on a store that one call makes in their order, each with an answer in its record.
#![tactic(auto)]

pub mod begins;
pub mod exported;
pub mod operations;
pub mod turns;

// What a job takes: a number, or where `job` is not 0 the answer of the job that stands at that place of the list.
#[repr(C)]
#[derive(Clone, Copy)]
pub struct Operand {
    pub job: u32,
    pub number: u32,
}

// A job. Its answer is of no kind, 0, until it is run; then a set's handle, 1, a relation's, 2, yes or no, 3, or the number of a refusal, 4.
#[repr(C)]
#[derive(Clone, Copy)]
pub struct Job {
    pub operation: u32,
    pub a: Operand,
    pub b: Operand,
    pub c: Operand,
    pub kind: u32,
    pub value: u32,
}
