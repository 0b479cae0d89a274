// The calls on relations that may add some, under C names.
ghost use Rattle.store_check.specs.Memory.{memories};
ghost use Rattle.store.specs.Calls.{relation_call, step};
ghost use Rattle.store.specs.declared.relation_calls.RelationCall.TheVariants.{Mk, Zero, One, Top, Union, Intersect, Xor, Difference, Complement};
ghost use Rattle.store.specs.declared.relation_calls.RelationCall.TheVariants.{Sequence, Star, Flip, Test, Assign, NaiveForward, Backward};
ghost use Rattle.packing.specs.Returns.{AnswersAdded};

use crate::packed_relations;
use store::relation_calls::RelationCall;

// The relation with these children: the first digit is the input's bit, the second the output's.
#[unsafe(no_mangle)]
pub extern "C" fn packet_store_relation_mk(
    relations: &mut [u32],
    sets: &[u32],
    work: &mut [u32],
    x00: u32,
    x01: u32,
    x10: u32,
    x11: u32,
) -> packing::AddedReply
    ensures { AnswersAdded (step (relation_call (Mk x00 x01 x10 x11))) (memories relations.old sets.now)
        (memories relations.new sets.now) work.old work.new result }
{
    packed_relations(relations, sets, work, RelationCall::Mk(x00, x01, x10, x11))
}

// The empty relation of level k.
#[unsafe(no_mangle)]
pub extern "C" fn packet_store_relation_zero(
    relations: &mut [u32],
    sets: &[u32],
    work: &mut [u32],
) -> packing::AddedReply
    ensures { AnswersAdded (step (relation_call Zero)) (memories relations.old sets.now)
        (memories relations.new sets.now) work.old work.new result }
{
    packed_relations(relations, sets, work, RelationCall::Zero)
}

// The identity of level k.
#[unsafe(no_mangle)]
pub extern "C" fn packet_store_relation_one(
    relations: &mut [u32],
    sets: &[u32],
    work: &mut [u32],
) -> packing::AddedReply
    ensures { AnswersAdded (step (relation_call One)) (memories relations.old sets.now)
        (memories relations.new sets.now) work.old work.new result }
{
    packed_relations(relations, sets, work, RelationCall::One)
}

// The full relation of level k.
#[unsafe(no_mangle)]
pub extern "C" fn packet_store_relation_top(
    relations: &mut [u32],
    sets: &[u32],
    work: &mut [u32],
) -> packing::AddedReply
    ensures { AnswersAdded (step (relation_call Top)) (memories relations.old sets.now)
        (memories relations.new sets.now) work.old work.new result }
{
    packed_relations(relations, sets, work, RelationCall::Top)
}

// The pairs in a or in b.
#[unsafe(no_mangle)]
pub extern "C" fn packet_store_relation_union(
    relations: &mut [u32],
    sets: &[u32],
    work: &mut [u32],
    a: u32,
    b: u32,
) -> packing::AddedReply
    ensures { AnswersAdded (step (relation_call (Union a b))) (memories relations.old sets.now)
        (memories relations.new sets.now) work.old work.new result }
{
    packed_relations(relations, sets, work, RelationCall::Union(a, b))
}

// The pairs in a and in b.
#[unsafe(no_mangle)]
pub extern "C" fn packet_store_relation_intersect(
    relations: &mut [u32],
    sets: &[u32],
    work: &mut [u32],
    a: u32,
    b: u32,
) -> packing::AddedReply
    ensures { AnswersAdded (step (relation_call (Intersect a b))) (memories relations.old sets.now)
        (memories relations.new sets.now) work.old work.new result }
{
    packed_relations(relations, sets, work, RelationCall::Intersect(a, b))
}

// The pairs in exactly one of a and b.
#[unsafe(no_mangle)]
pub extern "C" fn packet_store_relation_xor(
    relations: &mut [u32],
    sets: &[u32],
    work: &mut [u32],
    a: u32,
    b: u32,
) -> packing::AddedReply
    ensures { AnswersAdded (step (relation_call (Xor a b))) (memories relations.old sets.now)
        (memories relations.new sets.now) work.old work.new result }
{
    packed_relations(relations, sets, work, RelationCall::Xor(a, b))
}

// The pairs in a and not in b.
#[unsafe(no_mangle)]
pub extern "C" fn packet_store_relation_difference(
    relations: &mut [u32],
    sets: &[u32],
    work: &mut [u32],
    a: u32,
    b: u32,
) -> packing::AddedReply
    ensures { AnswersAdded (step (relation_call (Difference a b))) (memories relations.old sets.now)
        (memories relations.new sets.now) work.old work.new result }
{
    packed_relations(relations, sets, work, RelationCall::Difference(a, b))
}

// The pairs that are not in a.
#[unsafe(no_mangle)]
pub extern "C" fn packet_store_relation_complement(
    relations: &mut [u32],
    sets: &[u32],
    work: &mut [u32],
    a: u32,
) -> packing::AddedReply
    ensures { AnswersAdded (step (relation_call (Complement a))) (memories relations.old sets.now)
        (memories relations.new sets.now) work.old work.new result }
{
    packed_relations(relations, sets, work, RelationCall::Complement(a))
}

// The pairs that a and then b relate.
#[unsafe(no_mangle)]
pub extern "C" fn packet_store_relation_sequence(
    relations: &mut [u32],
    sets: &[u32],
    work: &mut [u32],
    a: u32,
    b: u32,
) -> packing::AddedReply
    ensures { AnswersAdded (step (relation_call (Sequence a b))) (memories relations.old sets.now)
        (memories relations.new sets.now) work.old work.new result }
{
    packed_relations(relations, sets, work, RelationCall::Sequence(a, b))
}

// The pairs that any number of steps of a relates, none included.
#[unsafe(no_mangle)]
pub extern "C" fn packet_store_relation_star(
    relations: &mut [u32],
    sets: &[u32],
    work: &mut [u32],
    a: u32,
) -> packing::AddedReply
    ensures { AnswersAdded (step (relation_call (Star a))) (memories relations.old sets.now)
        (memories relations.new sets.now) work.old work.new result }
{
    packed_relations(relations, sets, work, RelationCall::Star(a))
}

// The pairs of a, each turned around.
#[unsafe(no_mangle)]
pub extern "C" fn packet_store_relation_flip(
    relations: &mut [u32],
    sets: &[u32],
    work: &mut [u32],
    a: u32,
) -> packing::AddedReply
    ensures { AnswersAdded (step (relation_call (Flip a))) (memories relations.old sets.now)
        (memories relations.new sets.now) work.old work.new result }
{
    packed_relations(relations, sets, work, RelationCall::Flip(a))
}

// Each packet whose field var has this value, to itself.
#[unsafe(no_mangle)]
pub extern "C" fn packet_store_relation_test(
    relations: &mut [u32],
    sets: &[u32],
    work: &mut [u32],
    var: u32,
    value: u32,
) -> packing::AddedReply
    ensures { AnswersAdded (step (relation_call (Test var value))) (memories relations.old sets.now)
        (memories relations.new sets.now) work.old work.new result }
{
    packed_relations(relations, sets, work, RelationCall::Test(var, value))
}

// Each packet, to itself with this value in field var.
#[unsafe(no_mangle)]
pub extern "C" fn packet_store_relation_assign(
    relations: &mut [u32],
    sets: &[u32],
    work: &mut [u32],
    var: u32,
    value: u32,
) -> packing::AddedReply
    ensures { AnswersAdded (step (relation_call (Assign var value))) (memories relations.old sets.now)
        (memories relations.new sets.now) work.old work.new result }
{
    packed_relations(relations, sets, work, RelationCall::Assign(var, value))
}

// Every packet, to each output of a.
#[unsafe(no_mangle)]
pub extern "C" fn packet_store_relation_naive_forward(
    relations: &mut [u32],
    sets: &[u32],
    work: &mut [u32],
    a: u32,
) -> packing::AddedReply
    ensures { AnswersAdded (step (relation_call (NaiveForward a))) (memories relations.old sets.now)
        (memories relations.new sets.now) work.old work.new result }
{
    packed_relations(relations, sets, work, RelationCall::NaiveForward(a))
}

// Each packet that a relates to some, to every packet.
#[unsafe(no_mangle)]
pub extern "C" fn packet_store_relation_backward(
    relations: &mut [u32],
    sets: &[u32],
    work: &mut [u32],
    a: u32,
) -> packing::AddedReply
    ensures { AnswersAdded (step (relation_call (Backward a))) (memories relations.old sets.now)
        (memories relations.new sets.now) work.old work.new result }
{
    packed_relations(relations, sets, work, RelationCall::Backward(a))
}
