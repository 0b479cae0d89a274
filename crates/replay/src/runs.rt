// Runs the calls of a list on a store in two memories, of which as much is lent as `new` asked for.
ghost use Rattle.std.specs.Prelude.{◌≤◌, length, IfSome};
ghost use Rattle.model.specs.Store.{set, rel};
ghost use Rattle.store_check.specs.Memory.{head};
ghost use Rattle.replay.specs.Lending.{Lends};

use crate::answers::Said;
use crate::calls::Call;
use crate::lines::split_line;
use jobs::operations::StoreCall;
use jobs::turns::make_call;
use std::io::{Result, Write};
use store_check::head::*;

// How many numbers of each memory are lent.
#[derive(Clone, Copy)]
pub struct Lent {
    pub relations: usize,
    pub sets: usize,
}

// Makes a call, whose answer is to be written.
fn operation(relations: &mut [u32], sets: &mut [u32], work: &mut [u32], call: StoreCall) -> Said
    requires { (head rel ≤ length relations.old) × (head set ≤ length sets.old) }
{
    let answer = make_call(relations, sets, work, call);
    Said::Answer(answer, relations[RELATION_COUNT], sets[SET_COUNT])
}

// Begins a store of k fields with r and s places, and answers how much is lent from now on; none where there are not as many. A refusal keeps the
// store before.
fn begin(
    relations: &mut [u32],
    sets: &mut [u32],
    work: &mut [u32],
    lent: Lent,
    k: u32,
    r: u32,
    s: u32,
) -> Option<(Lent, Said)>
    requires { Lends lent relations.old sets.old }
    ensures { IfSome result (λ step. Lends step.0 relations.old sets.old) }
{
    let now = Lent {
        relations: RELATION_HEAD + 4 * (r as usize),
        sets: SET_HEAD + 2 * (s as usize),
    };
    if now.relations > relations.len() || now.sets > sets.len() {
        return None;
    }
    let answer = new_store::new(
        &mut relations[..now.relations],
        &mut sets[..now.sets],
        work,
        k,
    )
    .answer;
    let n = relations[RELATION_COUNT];
    let m = sets[SET_COUNT];
    match answer {
        Ok(_) => Some((now, Said::Opened(n, m))),
        Err(_) => Some((lent, Said::Answer(answer, n, m))),
    }
}

// One line of the list: how much is lent to the next, and what is written; none where the replay ends.
fn run_line(
    line: &[u8],
    relations: &mut [u32],
    sets: &mut [u32],
    work: &mut [u32],
    lent: Lent,
) -> Option<(Lent, Said)>
    requires { Lends lent relations.old sets.old }
    ensures { IfSome result (λ step. Lends step.0 relations.old sets.old) }
{
    match crate::calls::asked(line)? {
        Call::New(k, r, s) => begin(relations, sets, work, lent, k, r, s),
        Call::Store(call) => {
            let relations = &mut relations[..lent.relations];
            let sets = &mut sets[..lent.sets];
            Some((lent, operation(relations, sets, work, call)))
        }
    }
}

// All lines of the list, on memories that hold the store of no fields and no places; what each has written goes to a writer.
pub fn replay<W: Write>(
    text: &[u8],
    relations: &mut [u32],
    sets: &mut [u32],
    work: &mut [u32],
    out: &mut W,
) -> Result<()>
    requires { (head rel ≤ length relations.old) × (head set ≤ length sets.old) }
{
    let mut lent = Lent {
        relations: RELATION_HEAD,
        sets: SET_HEAD,
    };
    // A `for` over the slice's pieces gets no proof yet in a function with a type parameter.
    let mut rest = text;
    let mut count = 0;
    while !rest.is_empty() {
        let (line, after) = split_line(rest);
        count += 1;
        let Some((now, said)) = run_line(line, relations, sets, work, lent) else {
            return crate::answers::ended(out, count);
        };
        crate::answers::tell(out, said)?;
        lent = now;
        rest = after;
    }
    Ok(())
}
