// What the lister writes for the bytes that it reads: a proved function from input to output.
#![tactic(auto)]

ghost use Rattle.std.specs.Prelude.{◌≡◌, List, ℕ, length, take, IfSome, OnOk};
ghost use Rattle.std.specs.Io.KnownBytes.{Appends};
ghost use Rattle.io.specs.Counts.{IsPrefixLen};
ghost use Rattle.listing.specs.Listing.{listing};

use std::io::{Read, Write};
use store_check::head::*;

mod fields;
mod lines;
mod reading;
mod writing;

// The places of each kind that are lent.
const PLACES: usize = 2048;

// The numbers of relation memory with so many.
pub const RELATIONS: usize = RELATION_HEAD + 4 * PLACES;

// The numbers of set memory with so many.
pub const SETS: usize = SET_HEAD + 2 * PLACES;

// The numbers of working memory that are lent: the index, a property word a place, and a memo of 4,096 entries.
const WORK: usize = 45056;

// The most bytes that are listed.
const MOST: usize = 16384;

// The bytes that are read: one more, so that a longer input is seen to be too long.
pub const INPUT: usize = MOST + 1;

// The bytes of the longest listing, 64 a line: at most a line for each byte that is listed, and those of k and of the counts.
pub const OUTPUT: usize = 64 * MOST + 128;

// Writes the listing of a text to the start of `out`, on memories of 2,048 places of each kind, and answers its length.
// The first n bytes of `input`, or all of them, are those of the text, of which no more are read than `input` holds.
pub fn list(
    input: &[u8; INPUT],
    n: usize,
    relations: &mut [u32; RELATIONS],
    sets: &mut [u32; SETS],
    work: &mut [u32],
    out: &mut [u8; OUTPUT],
) -> usize
    ensures prefix_len { IsPrefixLen result out.new }
    ensures by_index { (t : List ℕ) → take (length input.now) t ≡ take n input.now → take result out.new ≡ listing t }
{
    if n > MOST {
        return crate::writing::put(out, 0, b"too long\n");
    }
    let text = &input[..n];
    let end = crate::lines::line_len(text);
    match crate::fields::read(&text[..end]) {
        None => crate::writing::put(out, 0, b"bad k\n"),
        Some(k) => {
            let policies = crate::lines::text_after(text, end);
            crate::lines::write(policies, k, relations, sets, work, out)
        }
    }
}

// Reads all of a reader, and writes the listing of what it reads to a writer.
pub fn list_file<R: Read, W: Write>(reader: &mut R, writer: &mut W) -> std::io::Result<()>
    ensures { OnOk result (IfSome (R.remaining reader.old)
        (λ t. Appends (W.contents writer.old) (W.contents writer.new) (listing t))) }
{
    let mut input = [0u8; INPUT];
    let n = crate::reading::read_full(reader, &mut input)?;
    let mut relations = [0u32; RELATIONS];
    let mut sets = [0u32; SETS];
    let mut work = [0u32; WORK];
    let mut out = [0u8; OUTPUT];
    let r = list(&input, n, &mut relations, &mut sets, &mut work, &mut out);
    writer.write_all(&out[..r])
}
