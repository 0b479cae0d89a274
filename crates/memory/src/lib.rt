// What sets and relations share: nodes of c numbers in a lent slice, and the working memory.
#![tactic(auto)]

ghost use Rattle.std.specs.Prelude.{◌≡◌, ℕ, ◌^◌, ◌<◌, ◌≤◌, length, replicate};
ghost use Rattle.memory.specs.Rows.{places_of};

pub mod index;
pub mod insert;
pub mod memo;
pub mod property_words;
pub mod relation_node;

// What the Rust's property bits say of a handle, and its level.
#[derive(Clone, Copy)]
pub struct Properties {
    pub empty: bool,
    pub universal: bool,
    pub identity: bool,
    pub level: u32,
}

// What shortcuts or the memo know: the answer, or the operands that the operation is left with. No Option or Result: the second is neither an absence nor
// an error.
#[derive(Clone, Copy)]
pub enum Lookup {
    Answer(u32),
    Operands(u32, u32),
}

// 2 to the power l, in 64 bits at level 32 too.
pub fn power(l: u8) -> u64
    requires { l ≤ 32 }
    ensures { result ≡ 2 ^ l }
{
    1 << l
}

// The most places that a memory has.
pub const PLACES: usize = 4096;

// How many nodes of c numbers fit, at most so many.
pub fn places_of(len: usize, c: usize) -> usize
    requires { 0 < c }
    ensures { result ≡ places_of len c }
{
    PLACES.min(len / c)
}

// Every number of the slice becomes 0: std's `fill` under the name that the contracts of calls and an edit of must-fail have.
pub fn clear(s: &mut [u32])
    ensures { s.new ≡ replicate (length s.old) 0 }
{
    s.fill(0);
}
