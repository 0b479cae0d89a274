// The rules of a call on two memories: its answer, or a refusal in document 01's order, from its operands to the end of its run.
#![tactic(auto)]

ghost use Rattle.std.specs.Prelude.{◌≡◌};
ghost use Rattle.call_rules.specs.Answers.{refusal_number};

pub mod added;
pub mod calls;
pub mod finish;
pub mod operands;

// Why a call is declined. The last is of a policy's text alone.
#[derive(Clone, Copy, Debug, PartialEq, Eq)]
pub enum Refusal {
    NotStore,
    NotHeld,
    LevelsDiffer,
    NoChildren,
    OutOfRange,
    UsedUp,
    TooLong,
}

// What a call that is not declined answers.
#[derive(Clone, Copy, Debug, PartialEq, Eq)]
pub enum Answer {
    Handle(u32),
    Truth(bool),
    SetNode(u32, u32),
    RelationNode(u32, u32, u32, u32),
    Pair(u32, u32),
    Nothing,
    Member(u32),
}

// What a call that may add nodes returns: its answer, and the nodes that it added.
#[derive(Clone, Copy)]
pub struct Reply<A> {
    pub answer: A,
    pub added: added::NodeCounts,
}

// The refusal's number.
impl From<Refusal> for u32 {
    ghost from_gives = { λ r n. n ≡ refusal_number r };

    fn from(r: Refusal) -> u32 {
        match r {
            Refusal::NotStore => 1,
            Refusal::NotHeld => 2,
            Refusal::LevelsDiffer => 3,
            Refusal::NoChildren => 4,
            Refusal::OutOfRange => 5,
            Refusal::UsedUp => 6,
            Refusal::TooLong => 10,
        }
    }
}
