// The lines of the listing: k, an answer for each policy, and the counts of nodes.
ghost use Rattle.std.specs.Prelude.{◌≡◌, ◌+◌, ◌*◌, ◌≤◌, ◌==◌, length, take, drop, Some};
ghost use Rattle.std.specs.List.{position_or_len};
ghost use Rattle.model.specs.Store.{set, rel, arity};
ghost use Rattle.store_check.specs.Memory.{memories, head};
ghost use Rattle.call_rules.specs.OnMemories.{new_step};
ghost use Rattle.listing.specs.Lines.{lines};
ghost use Rattle.listing.specs.Listing.{zeroed, listed};
ghost use Rattle.listing.specs.Writing.{PolicyLine, PolicyLines};

use store_check::head::*;

// How long the first line of a text is: the bytes before its first newline, or all.
pub(crate) fn line_len(text: &[u8]) -> usize
    ensures upper_bound { result ≤ length text.now }
    ensures value { result ≡ position_or_len (λ b. b == 10) text.now }
{
    text.iter().position(|b| *b == b'\n').unwrap_or(text.len())
}

// The text after a line that ends here.
pub(crate) fn text_after(text: &[u8], end: usize) -> &[u8]
    requires { end ≤ length text.now }
    ensures { result.now ≡ drop (end + 1) text.now }
{
    text.get(end + 1..).unwrap_or(&[])
}

// A new store of k fields.
fn begin(relations: &mut [u32], sets: &mut [u32], work: &mut [u32], k: u32)
    ensures { memories relations.new sets.new
        ≡ (new_step k (zeroed (length relations.old) (length sets.old))).state }
{
    relations.fill(0);
    sets.fill(0);
    new_store::new(relations, sets, work, k);
}

// Makes the call of policy i, and writes its line.
fn policy_line(
    relations: &mut [u32],
    sets: &[u32],
    work: &mut [u32],
    text: &[u8],
    i: usize,
    out: &mut [u8],
    at: usize,
) -> usize
    requires { at + 64 ≤ length out.old }
    ensures { PolicyLine text.now i (memories relations.old sets.now)
        (memories relations.new sets.now) at out.old out.new result }
{
    let a = policies::policy(relations, sets, work, text).answer;
    crate::writing::answer_line(out, at, i, a)
}

// The policies, one a line.
fn policy_lines(
    text: &[u8],
    relations: &mut [u32],
    sets: &[u32],
    work: &mut [u32],
    out: &mut [u8],
    begun: usize,
) -> usize
    requires { begun + 64 * length text.now ≤ length out.old }
    ensures { PolicyLines (length text.now) (lines text.now)
        (memories relations.old sets.now) (memories relations.new sets.now)
        begun out.old out.new result }
{
    let mut at = begun;
    for (i, line) in text.split_inclusive(|b| *b == b'\n').enumerate() {
        let policy = &line[..line_len(line)];
        at = policy_line(relations, sets, work, policy, i + 1, out, at);
    }
    at
}

// All lines, where the policies have this text.
pub(crate) fn write(
    text: &[u8],
    k: u32,
    relations: &mut [u32],
    sets: &mut [u32],
    work: &mut [u32],
    out: &mut [u8],
) -> usize
    requires { (128 + 64 * length text.now ≤ length out.old)
        × (length relations.old ≡ head rel + arity rel * 2048) × (length sets.old ≡ head set + arity set * 2048) }
    ensures upper_bound { result ≤ length out.old }
    ensures out_after { take result out.new ≡ listed (Some k) (lines text.now) }
{
    begin(relations, sets, work, k);
    let first = crate::writing::first_line(out, k);
    let end = policy_lines(text, relations, sets, work, out, first);
    crate::writing::nodes_line(out, end, relations[RELATION_COUNT], sets[SET_COUNT])
}
