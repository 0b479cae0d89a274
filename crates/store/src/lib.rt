// The public calls of a packet store on two lent memories, but for `new` and policies: a module for each type of calls. Each has its own `run_checked`: the
// seven differ in the memories that their check reads, in the part that is lent on to be written, and in whether a program is run or an answer given; a
// function over these would be handed more, as members of a trait with laws, than the five lines that it has.
#![tactic(auto)]

pub mod filter_calls;
pub mod image_calls;
pub mod path_reads;
pub mod relation_calls;
pub mod relation_reads;
pub mod set_calls;
pub mod set_reads;
