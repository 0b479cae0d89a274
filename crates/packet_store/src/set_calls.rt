// The calls on sets that may add some, under C names.
ghost use Rattle.store_check.specs.Memory.{memories};
ghost use Rattle.store.specs.Calls.{set_call, step};
ghost use Rattle.store.specs.declared.set_calls.SetCall.TheVariants.{Mk, Zero, One, Union, Intersect, Xor, Difference, Test, Ifelse};
ghost use Rattle.packing.specs.Returns.{AnswersAdded};

use crate::packed_sets;
use store::set_calls::SetCall;

// The set with these children.
#[unsafe(no_mangle)]
pub extern "C" fn packet_store_set_mk(
    relations: &[u32],
    sets: &mut [u32],
    work: &mut [u32],
    x0: u32,
    x1: u32,
) -> packing::AddedReply
    ensures { AnswersAdded (step (set_call (Mk x0 x1))) (memories relations.now sets.old)
        (memories relations.now sets.new) work.old work.new result }
{
    packed_sets(relations, sets, work, SetCall::Mk(x0, x1))
}

// The empty set of level k.
#[unsafe(no_mangle)]
pub extern "C" fn packet_store_set_zero(
    relations: &[u32],
    sets: &mut [u32],
    work: &mut [u32],
) -> packing::AddedReply
    ensures { AnswersAdded (step (set_call Zero)) (memories relations.now sets.old)
        (memories relations.now sets.new) work.old work.new result }
{
    packed_sets(relations, sets, work, SetCall::Zero)
}

// The full set of level k.
#[unsafe(no_mangle)]
pub extern "C" fn packet_store_set_one(
    relations: &[u32],
    sets: &mut [u32],
    work: &mut [u32],
) -> packing::AddedReply
    ensures { AnswersAdded (step (set_call One)) (memories relations.now sets.old)
        (memories relations.now sets.new) work.old work.new result }
{
    packed_sets(relations, sets, work, SetCall::One)
}

// The packets in a or in b.
#[unsafe(no_mangle)]
pub extern "C" fn packet_store_set_union(
    relations: &[u32],
    sets: &mut [u32],
    work: &mut [u32],
    a: u32,
    b: u32,
) -> packing::AddedReply
    ensures { AnswersAdded (step (set_call (Union a b))) (memories relations.now sets.old)
        (memories relations.now sets.new) work.old work.new result }
{
    packed_sets(relations, sets, work, SetCall::Union(a, b))
}

// The packets in a and in b.
#[unsafe(no_mangle)]
pub extern "C" fn packet_store_set_intersect(
    relations: &[u32],
    sets: &mut [u32],
    work: &mut [u32],
    a: u32,
    b: u32,
) -> packing::AddedReply
    ensures { AnswersAdded (step (set_call (Intersect a b))) (memories relations.now sets.old)
        (memories relations.now sets.new) work.old work.new result }
{
    packed_sets(relations, sets, work, SetCall::Intersect(a, b))
}

// The packets in exactly one of a and b.
#[unsafe(no_mangle)]
pub extern "C" fn packet_store_set_xor(
    relations: &[u32],
    sets: &mut [u32],
    work: &mut [u32],
    a: u32,
    b: u32,
) -> packing::AddedReply
    ensures { AnswersAdded (step (set_call (Xor a b))) (memories relations.now sets.old)
        (memories relations.now sets.new) work.old work.new result }
{
    packed_sets(relations, sets, work, SetCall::Xor(a, b))
}

// The packets in a and not in b.
#[unsafe(no_mangle)]
pub extern "C" fn packet_store_set_difference(
    relations: &[u32],
    sets: &mut [u32],
    work: &mut [u32],
    a: u32,
    b: u32,
) -> packing::AddedReply
    ensures { AnswersAdded (step (set_call (Difference a b))) (memories relations.now sets.old)
        (memories relations.now sets.new) work.old work.new result }
{
    packed_sets(relations, sets, work, SetCall::Difference(a, b))
}

// The packets whose field var has this value.
#[unsafe(no_mangle)]
pub extern "C" fn packet_store_set_test(
    relations: &[u32],
    sets: &mut [u32],
    work: &mut [u32],
    var: u32,
    value: u32,
) -> packing::AddedReply
    ensures { AnswersAdded (step (set_call (Test var value))) (memories relations.now sets.old)
        (memories relations.now sets.new) work.old work.new result }
{
    packed_sets(relations, sets, work, SetCall::Test(var, value))
}

// The packets of t where field var is 1, those of e where it is 0.
#[unsafe(no_mangle)]
pub extern "C" fn packet_store_set_ifelse(
    relations: &[u32],
    sets: &mut [u32],
    work: &mut [u32],
    var: u32,
    t: u32,
    e: u32,
) -> packing::AddedReply
    ensures { AnswersAdded (step (set_call (Ifelse var t e))) (memories relations.now sets.old)
        (memories relations.now sets.new) work.old work.new result }
{
    packed_sets(relations, sets, work, SetCall::Ifelse(var, t, e))
}
