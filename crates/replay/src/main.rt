// Replays a list of calls from standard input on the store, and writes each answer, in the formats of oracle/README.md.
// stdin and stdout beside this folder hold a list that `oracle draw` drew and what `oracle replay` writes for it; README.md has
// the commands. A line that is no call, or asks for more places than there are, ends the replay.
#![tactic(auto)]

use std::io;
use std::io::Read;
use store_check::head::*;

mod answers;
mod calls;
mod lines;
mod runs;

// The most bytes of a list.
const MOST: usize = 65536;

fn main(rt: HostRuntime) -> io::Result<()> {
    let mut text = [0u8; MOST];
    let mut room: &mut [u8] = &mut text;
    let copied = io::copy(&mut rt.stdin().take(MOST as u64), &mut room)?;
    let n = (copied as usize).min(MOST);
    let mut relations = [0u32; RELATION_HEAD + 4 * 512];
    let mut sets = [0u32; SET_HEAD + 2 * 512];
    let mut work = [0u32; 4096];
    let mut out = rt.stdout();
    runs::replay(&text[..n], &mut relations, &mut sets, &mut work, &mut out)
}
