// The calls on relations that add nothing, under C names.
ghost use Rattle.store_check.specs.Memory.{memories};
ghost use Rattle.store.specs.Calls.{relation_read, step};
ghost use Rattle.store.specs.declared.relation_reads.RelationRead.TheVariants.{Get, IsZero, Relates};
ghost use Rattle.packing.specs.Packed.{filled_relation};
ghost use Rattle.packing.specs.Returns.{Answers};
ghost use Rattle.packet_store_reads.specs.Lent.{AnswersLent};

use crate::packed_read;
use store::relation_reads::{RelationRead, relation_read};

// The children of a, written where it has them.
#[unsafe(no_mangle)]
pub extern "C" fn packet_store_relation_get(
    relations: &[u32],
    sets: &[u32],
    work: &mut [u32],
    a: u32,
    children: &mut [u32; 4],
) -> u64
    ensures { AnswersLent filled_relation (relation_read (Get a)) (memories relations.now sets.now)
        work.old work.new children.old children.new result }
{
    let answer = relation_read(relations, sets, work, RelationRead::Get(a));
    packing::fill_relation(answer, children);
    packing::pack(answer)
}

// Whether a relates nothing.
#[unsafe(no_mangle)]
pub extern "C" fn packet_store_relation_is_zero(
    relations: &[u32],
    sets: &[u32],
    work: &mut [u32],
    a: u32,
) -> u64
    ensures { Answers (step (relation_read (IsZero a)) (memories relations.now sets.now))
        (memories relations.now sets.now) work.old work.new result }
{
    packed_read(relations, sets, work, RelationRead::IsZero(a))
}

// Whether a relates this input to this output.
#[unsafe(no_mangle)]
pub extern "C" fn packet_store_relation_relates(
    relations: &[u32],
    sets: &[u32],
    work: &mut [u32],
    a: u32,
    input: u32,
    output: u32,
) -> u64
    ensures { Answers (step (relation_read (Relates a input output)) (memories relations.now sets.now))
        (memories relations.now sets.now) work.old work.new result }
{
    packed_read(
        relations,
        sets,
        work,
        RelationRead::Relates(a, input, output),
    )
}
