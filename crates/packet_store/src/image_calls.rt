// The calls that read relations and may add sets, under C names.
ghost use Rattle.store_check.specs.Memory.{memories};
ghost use Rattle.store.specs.Calls.{image_call, step};
ghost use Rattle.store.specs.declared.image_calls.ImageCall.TheVariants.{Fwd, Bwd, Push, Pull};
ghost use Rattle.packing.specs.Returns.{AnswersAdded};

use crate::packed_sets;
use store::image_calls::ImageCall;

// The outputs of a.
#[unsafe(no_mangle)]
pub extern "C" fn packet_store_relation_fwd(
    relations: &[u32],
    sets: &mut [u32],
    work: &mut [u32],
    a: u32,
) -> packing::AddedReply
    ensures { AnswersAdded (step (image_call (Fwd a))) (memories relations.now sets.old)
        (memories relations.now sets.new) work.old work.new result }
{
    packed_sets(relations, sets, work, ImageCall::Fwd(a))
}

// The inputs of a.
#[unsafe(no_mangle)]
pub extern "C" fn packet_store_relation_bwd(
    relations: &[u32],
    sets: &mut [u32],
    work: &mut [u32],
    a: u32,
) -> packing::AddedReply
    ensures { AnswersAdded (step (image_call (Bwd a))) (memories relations.now sets.old)
        (memories relations.now sets.new) work.old work.new result }
{
    packed_sets(relations, sets, work, ImageCall::Bwd(a))
}

// What a relates the packets of p to.
#[unsafe(no_mangle)]
pub extern "C" fn packet_store_relation_push(
    relations: &[u32],
    sets: &mut [u32],
    work: &mut [u32],
    p: u32,
    a: u32,
) -> packing::AddedReply
    ensures { AnswersAdded (step (image_call (Push p a))) (memories relations.now sets.old)
        (memories relations.now sets.new) work.old work.new result }
{
    packed_sets(relations, sets, work, ImageCall::Push(p, a))
}

// The packets that a relates to some packet of p.
#[unsafe(no_mangle)]
pub extern "C" fn packet_store_relation_pull(
    relations: &[u32],
    sets: &mut [u32],
    work: &mut [u32],
    a: u32,
    p: u32,
) -> packing::AddedReply
    ensures { AnswersAdded (step (image_call (Pull a p))) (memories relations.now sets.old)
        (memories relations.now sets.new) work.old work.new result }
{
    packed_sets(relations, sets, work, ImageCall::Pull(a, p))
}
