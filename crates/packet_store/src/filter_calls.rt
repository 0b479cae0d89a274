// The calls that read sets and may add relations, under C names.
ghost use Rattle.store_check.specs.Memory.{memories};
ghost use Rattle.store.specs.Calls.{filter_call, step};
ghost use Rattle.store.specs.declared.filter_calls.FilterCall.TheVariants.{Diagonal, Ifwd, Ibwd};
ghost use Rattle.packing.specs.Returns.{AnswersAdded};

use crate::packed_relations;
use store::filter_calls::FilterCall;

// Each packet of p, to itself.
#[unsafe(no_mangle)]
pub extern "C" fn packet_store_relation_diagonal(
    relations: &mut [u32],
    sets: &[u32],
    work: &mut [u32],
    p: u32,
) -> packing::AddedReply
    ensures { AnswersAdded (step (filter_call (Diagonal p))) (memories relations.old sets.now)
        (memories relations.new sets.now) work.old work.new result }
{
    packed_relations(relations, sets, work, FilterCall::Diagonal(p))
}

// Every packet, to each packet of p.
#[unsafe(no_mangle)]
pub extern "C" fn packet_store_relation_ifwd(
    relations: &mut [u32],
    sets: &[u32],
    work: &mut [u32],
    p: u32,
) -> packing::AddedReply
    ensures { AnswersAdded (step (filter_call (Ifwd p))) (memories relations.old sets.now)
        (memories relations.new sets.now) work.old work.new result }
{
    packed_relations(relations, sets, work, FilterCall::Ifwd(p))
}

// Each packet of p, to every packet.
#[unsafe(no_mangle)]
pub extern "C" fn packet_store_relation_ibwd(
    relations: &mut [u32],
    sets: &[u32],
    work: &mut [u32],
    p: u32,
) -> packing::AddedReply
    ensures { AnswersAdded (step (filter_call (Ibwd p))) (memories relations.old sets.now)
        (memories relations.new sets.now) work.old work.new result }
{
    packed_relations(relations, sets, work, FilterCall::Ibwd(p))
}
