// The calls of a packet store that add nothing, under C names: include/packet_store.h says what each does.
#![tactic(auto)]

ghost use Rattle.store_check.specs.Memory.{memories};
ghost use Rattle.packing.specs.Returns.{Answers};

use call_rules::calls::{self, Reads};

pub mod path_reads;
pub mod relation_reads;
pub mod set_reads;

// Any of these calls, its answer packed.
fn packed_read<C: Reads>(relations: &[u32], sets: &[u32], work: &mut [u32], call: C) -> u64
    ensures { Answers (C.step call (memories relations.now sets.now))
        (memories relations.now sets.now) work.old work.new result }
{
    packing::pack(calls::read(relations, sets, work, call))
}
