// The calls on relations and sets that add nothing, under C names.
ghost use Rattle.store_check.specs.Memory.{memories};
ghost use Rattle.store.specs.Calls.{path_read, step};
ghost use Rattle.store.specs.declared.path_reads.PathRead.TheVariants.{HasImage, HasPath, FirstPath};
ghost use Rattle.packing.specs.Returns.{Answers, AnswersPair};

use crate::packed_read;
use store::path_reads::{PathRead, path_read};

// Whether a relates some packet of p to any.
#[unsafe(no_mangle)]
pub extern "C" fn packet_store_relation_has_image(
    relations: &[u32],
    sets: &[u32],
    work: &mut [u32],
    p: u32,
    a: u32,
) -> u64
    ensures { Answers (step (path_read (HasImage p a)) (memories relations.now sets.now))
        (memories relations.now sets.now) work.old work.new result }
{
    packed_read(relations, sets, work, PathRead::HasImage(p, a))
}

// Whether a relates some packet of p to some packet of q.
#[unsafe(no_mangle)]
pub extern "C" fn packet_store_relation_has_path(
    relations: &[u32],
    sets: &[u32],
    work: &mut [u32],
    p: u32,
    a: u32,
    q: u32,
) -> u64
    ensures { Answers (step (path_read (HasPath p a q)) (memories relations.now sets.now))
        (memories relations.now sets.now) work.old work.new result }
{
    packed_read(relations, sets, work, PathRead::HasPath(p, a, q))
}

// The first pair from a packet of p by a to a packet of q.
#[unsafe(no_mangle)]
pub extern "C" fn packet_store_relation_first_path(
    relations: &[u32],
    sets: &[u32],
    work: &mut [u32],
    p: u32,
    a: u32,
    q: u32,
) -> packing::PairReply
    ensures { AnswersPair (step (path_read (FirstPath p a q)) (memories relations.now sets.now))
        (memories relations.now sets.now) work.old work.new result }
{
    packing::pack_pair(path_read(relations, sets, work, PathRead::FirstPath(p, a, q)))
}
