// An answer as C takes it.
#![tactic(auto)]

ghost use Rattle.std.specs.Prelude.{◌≡◌};
ghost use Rattle.packing.specs.Packed.{packed, packed_pair, with_added, packed_reply, filled_set, filled_relation};

use call_rules::added::NodeCounts;
use call_rules::{Answer, Refusal, Reply};

// The number of the refusal in the high half, or 0; the first value in the low half, or 0.
pub fn pack(a: Result<Answer, Refusal>) -> u64
    ensures { result ≡ packed a }
{
    match a {
        Ok(Answer::Handle(h)) => u64::from(h),
        Ok(Answer::Truth(b)) => u64::from(b),
        Ok(Answer::SetNode(x0, _)) => u64::from(x0),
        Ok(Answer::RelationNode(x00, _, _, _)) => u64::from(x00),
        Ok(Answer::Pair(_, _) | Answer::Member(_)) => 1,
        Ok(Answer::Nothing) => 0,
        Err(r) => u64::from(u32::from(r)) * 0x1_0000_0000,
    }
}

// An answer with the relation nodes and the set nodes that the call added, as C takes it.
#[repr(C)]
#[derive(Clone, Copy)]
pub struct AddedReply {
    pub answer: u64,
    pub relations: u32,
    pub sets: u32,
}

// A packed answer with the nodes that its call added.
pub fn with_added(answer: u64, added: NodeCounts) -> AddedReply
    ensures { result ≡ with_added answer added }
{
    AddedReply {
        answer,
        relations: added.relations,
        sets: added.sets,
    }
}

// The answer packed, and the nodes added.
pub fn pack_reply(r: Reply<Result<Answer, Refusal>>) -> AddedReply
    ensures { result ≡ packed_reply (r.answer, r.added) }
{
    with_added(pack(r.answer), r.added)
}

// An answer with the pair that it has, as C takes it.
#[repr(C)]
#[derive(Clone, Copy)]
pub struct PairReply {
    pub answer: u64,
    pub input: u32,
    pub output: u32,
}

// The answer packed, and the pair, or 0 and 0.
pub fn pack_pair(a: Result<Answer, Refusal>) -> PairReply
    ensures { result ≡ packed_pair a }
{
    let answer = pack(a);
    if let Ok(Answer::Pair(x, y)) = a {
        return PairReply {
            answer,
            input: x,
            output: y,
        };
    }
    PairReply {
        answer,
        input: 0,
        output: 0,
    }
}

// The children of a set, where the answer has them; else the two numbers stay. It and the next differ in the constructor and in C's array: no plainer as one,
// which would be handed both.
pub fn fill_set(a: Result<Answer, Refusal>, children: &mut [u32; 2])
    ensures { children.new ≡ filled_set a children.old }
{
    if let Ok(Answer::SetNode(x0, x1)) = a {
        *children = [x0, x1];
    }
}

// The children of a relation, where the answer has them; else the four numbers stay.
pub fn fill_relation(a: Result<Answer, Refusal>, children: &mut [u32; 4])
    ensures { children.new ≡ filled_relation a children.old }
{
    if let Ok(Answer::RelationNode(x00, x01, x10, x11)) = a {
        *children = [x00, x01, x10, x11];
    }
}
