// The call on a policy text, under its C name.
ghost use Rattle.std.specs.Prelude.{◌≡◌, ◌≤◌};
ghost use Rattle.policies.specs.Outcome.{most_bytes};
ghost use Rattle.store_check.specs.Memory.{memories};
ghost use Rattle.packet_store.specs.PackedPolicy.{offset, packed_policy, packed_policy_reply, AnswersPolicy};

use call_rules::Reply;
use packing::AddedReply;
use policies::PolicyRefusal;

// The number of the refusal in the high half, or 0; the handle or the offset in the low half, or 0.
fn pack(a: Result<u32, PolicyRefusal>) -> u64
    requires { offset a ≤ most_bytes }
    ensures { result ≡ packed_policy a }
{
    match a {
        Ok(h) => u64::from(h),
        Err(PolicyRefusal::At(misread)) => u64::from(u32::from(misread.fault)) * 0x1_0000_0000
            + misread.at as u64,
        Err(PolicyRefusal::Store(r)) => u64::from(u32::from(r)) * 0x1_0000_0000,
    }
}

// The answer packed, and the nodes added.
fn pack_reply(r: Reply<Result<u32, PolicyRefusal>>) -> AddedReply
    requires { offset r.answer ≤ most_bytes }
    ensures { result ≡ packed_policy_reply (r.answer, r.added) }
{
    packing::with_added(pack(r.answer), r.added)
}

// The relation that a policy text means.
#[unsafe(no_mangle)]
pub extern "C" fn packet_store_policy(
    relations: &mut [u32],
    sets: &[u32],
    work: &mut [u32],
    text: &[u8],
) -> AddedReply
    ensures { AnswersPolicy text.now (memories relations.old sets.now)
        (memories relations.new sets.now) work.old work.new result }
{
    pack_reply(policies::policy(relations, sets, work, text))
}
