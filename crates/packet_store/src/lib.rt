// The calls of a packet store that may add nodes, under C names: include/packet_store.h says what each does.
#![tactic(auto)]

ghost use Rattle.store_check.specs.Memory.{memories};
ghost use Rattle.packing.specs.Returns.{AnswersAdded};

use call_rules::calls::{self, AddsRelations, AddsSets};
use call_rules::{Answer, Refusal};
use packing::AddedReply;

pub mod creation;
pub mod filter_calls;
pub mod image_calls;
pub mod policy_call;
pub mod relation_calls;
pub mod set_calls;

// A call that may add sets, its reply packed. Which memory is lent by `&mut` is no parameter of a type, so this and the next are two.
fn packed_sets<C: AddsSets>(
    relations: &[u32],
    sets: &mut [u32],
    work: &mut [u32],
    call: C,
) -> AddedReply
    ensures { AnswersAdded (C.step call) (memories relations.now sets.old)
        (memories relations.now sets.new) work.old work.new result }
{
    packing::pack_reply(calls::add_sets(relations, sets, work, call))
}

// A call that may add relations, its reply packed.
fn packed_relations<C: AddsRelations<Output = Result<Answer, Refusal>>>(
    relations: &mut [u32],
    sets: &[u32],
    work: &mut [u32],
    call: C,
) -> AddedReply
    ensures { AnswersAdded (C.step call) (memories relations.old sets.now)
        (memories relations.new sets.now) work.old work.new result }
{
    packing::pack_reply(calls::add_relations(relations, sets, work, call))
}
