// The calls on sets that add nothing, under C names.
ghost use Rattle.std.specs.Prelude.{◌≡◌};
ghost use Rattle.store_check.specs.Memory.{memories};
ghost use Rattle.store.specs.Calls.{set_read, step};
ghost use Rattle.store.specs.Cursors.{moved};
ghost use Rattle.store.specs.declared.set_reads.SetRead.TheVariants.{Get, Complement, IsZero, Intersects, Next};
ghost use Rattle.packing.specs.Packed.{filled_set};
ghost use Rattle.packing.specs.Returns.{Answers};
ghost use Rattle.packet_store_reads.specs.Lent.{AnswersLent};

use crate::packed_read;
use call_rules::{Answer, Refusal};
use store::set_reads::{Cursor, SetRead, set_read};

// The children of a, written where it has them.
#[unsafe(no_mangle)]
pub extern "C" fn packet_store_set_get(
    relations: &[u32],
    sets: &[u32],
    work: &mut [u32],
    a: u32,
    children: &mut [u32; 2],
) -> u64
    ensures { AnswersLent filled_set (set_read (Get a)) (memories relations.now sets.now)
        work.old work.new children.old children.new result }
{
    let answer = set_read(relations, sets, work, SetRead::Get(a));
    packing::fill_set(answer, children);
    packing::pack(answer)
}

// The packets that are not in a.
#[unsafe(no_mangle)]
pub extern "C" fn packet_store_set_complement(
    relations: &[u32],
    sets: &[u32],
    work: &mut [u32],
    a: u32,
) -> u64
    ensures { Answers (step (set_read (Complement a)) (memories relations.now sets.now))
        (memories relations.now sets.now) work.old work.new result }
{
    packed_read(relations, sets, work, SetRead::Complement(a))
}

// Whether a has no packet.
#[unsafe(no_mangle)]
pub extern "C" fn packet_store_set_is_zero(
    relations: &[u32],
    sets: &[u32],
    work: &mut [u32],
    a: u32,
) -> u64
    ensures { Answers (step (set_read (IsZero a)) (memories relations.now sets.now))
        (memories relations.now sets.now) work.old work.new result }
{
    packed_read(relations, sets, work, SetRead::IsZero(a))
}

// Whether a and b share a packet.
#[unsafe(no_mangle)]
pub extern "C" fn packet_store_set_intersects(
    relations: &[u32],
    sets: &[u32],
    work: &mut [u32],
    a: u32,
    b: u32,
) -> u64
    ensures { Answers (step (set_read (Intersects a b)) (memories relations.now sets.now))
        (memories relations.now sets.now) work.old work.new result }
{
    packed_read(relations, sets, work, SetRead::Intersects(a, b))
}

// The record after an answer.
fn move_on(answer: Result<Answer, Refusal>, c: Cursor) -> Cursor
    ensures { result ≡ moved answer c }
{
    match answer {
        Ok(Answer::Nothing) => Cursor {
            ended: if c.ended == 0 { 1 } else { c.ended },
            ..c
        },
        Ok(Answer::Member(x)) => Cursor {
            last: x,
            given: 1,
            ..c
        },
        _ => c,
    }
}

// The next member of the set that the record names; the record moves on.
#[unsafe(no_mangle)]
pub extern "C" fn packet_store_set_next(
    relations: &[u32],
    sets: &[u32],
    work: &mut [u32],
    cursor: &mut Cursor,
) -> u64
    ensures { AnswersLent moved (set_read (Next cursor.old)) (memories relations.now sets.now)
        work.old work.new cursor.old cursor.new result }
{
    let answer = set_read(relations, sets, work, SetRead::Next(*cursor));
    *cursor = move_on(answer, *cursor);
    packing::pack(answer)
}
