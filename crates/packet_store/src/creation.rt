// The call that begins a store, under its C name.
ghost use Rattle.store_check.specs.Memory.{memories};
ghost use Rattle.store.specs.Calls.{new_store, step};
ghost use Rattle.call_rules.specs.Added.{held_in, new_counted};
ghost use Rattle.packing.specs.Packed.{packed_reply};
ghost use Rattle.packing.specs.Returns.{Returns};

// A store of k fields in both memories.
#[unsafe(no_mangle)]
pub extern "C" fn packet_store_new(
    relations: &mut [u32],
    sets: &mut [u32],
    work: &mut [u32],
    k: u32,
) -> packing::AddedReply
    ensures { Returns packed_reply (new_counted held_in (step (new_store k) (memories relations.old sets.old)))
        (memories relations.new sets.new) work.old work.new result }
{
    packing::pack_reply(new_store::new(relations, sets, work, k))
}
