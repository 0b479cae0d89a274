// Does a text follow the grammar, nested at most 32 deep, and where does it first not: a byte that cannot stand there (7), or a `(` or `!` inside 32
// others (9). What a part of the grammar reads is its end.
ghost use Rattle.std.specs.Prelude.{◌≡◌, Bool, ℕ, ◌≤◌, [], ◌∷◌, length};
ghost use Rattle.policy_text.specs.XForms.{x_forms};
ghost use Rattle.policy_text.specs.Machine.{inside, need, spelt, bit, reads};
ghost use Rattle.policy_text.specs.Misreads.{misread};
ghost use Rattle.policy_text.specs.Posts.{ByteAt, DeeperAt, AtomPost, RelationPost, JoinPost, StarsPost, continues_starred, continues_product};
ghost use Rattle.policy_text.specs.Posts.{continues_term, continues_sum, read_of};
ghost use Rattle.policy_text.specs.declared.Fault.{Fault};

use super::{Fault, Misread, Rank};

// A byte that cannot stand there.
fn not_policy(at: usize) -> Misread
    ensures { result ≡ misread Fault.NotPolicy at }
{
    Misread {
        fault: Fault::NotPolicy,
        at,
    }
}

// The depth of what follows a `(` or a `!` at an offset, which are inside at most 31 others.
fn deeper(at: usize, depth: u32) -> Result<u32, Misread>
    ensures { DeeperAt at depth result }
{
    if depth < 32 {
        return Ok(depth + 1);
    }
    Err(Misread {
        fault: Fault::TooDeep,
        at,
    })
}

// The byte at an offset, if the text does not end before it.
fn byte(text: &[u8], at: usize) -> Result<u8, Misread>
    ensures { ByteAt text.now at result }
{
    text.get(at).copied().ok_or(not_policy(at))
}

// The value b, which follows `=`.
fn read_bit(text: &[u8], at: usize) -> Result<usize, Misread>
    ensures { (k : Bool) (n d : ℕ) → AtomPost x_forms text.now d (inside (bit k n)) at result }
{
    match byte(text, at)? {
        b'0' | b'1' => Ok(at + 1),
        _ => Err(not_policy(at)),
    }
}

// What follows N: `=` and b, or `:=` and b.
fn read_relation(text: &[u8], at: usize) -> Result<usize, Misread>
    ensures { RelationPost x_forms text.now at result }
{
    match byte(text, at)? {
        b'=' => read_bit(text, at + 1),
        b':' => {
            let next = at + 1;
            if byte(text, next)? == b'=' {
                return read_bit(text, next + 1);
            }
            Err(not_policy(next))
        }
        _ => Err(not_policy(at)),
    }
}

// What follows `x`: N, and what follows it.
fn read_field(text: &[u8], at: usize) -> Result<usize, Misread>
    ensures { (d : ℕ) → AtomPost x_forms text.now d (inside (spelt (120 ∷ []))) at result }
{
    match byte(text, at)? {
        b'0' => read_relation(text, at + 1),
        b'1'..=b'9' => {
            let next = at + 1;
            if byte(text, next)?.is_ascii_digit() {
                return read_relation(text, next + 1);
            }
            read_relation(text, next)
        }
        _ => Err(not_policy(at)),
    }
}

// The end of the `*` after an item.
fn stars(text: &[u8], at: usize) -> usize
    requires { at ≤ length text.now }
    ensures { StarsPost x_forms text.now at result }
{
    at + text[at..].iter().take_while(|b| **b == b'*').count()
}

#[cycle(atom_starred_product_term_sum)]
fn atom(text: &[u8], at: usize, depth: u32) -> Result<usize, Misread>
    ensures { AtomPost x_forms text.now depth need at result }
{
    match byte(text, at)? {
        b'0' | b'1' | b'T' => Ok(at + 1),
        b'x' => read_field(text, at + 1),
        b'!' => {
            let inner = deeper(at, depth)?;
            atom(text, at + 1, inner)
        }
        b'(' => {
            let inner = deeper(at, depth)?;
            let end = sum(text, at + 1, inner)?;
            // A local, since an edit of must-fail changes this test, and a goal is named after what its test compares.
            let closes = byte(text, end)? == b')';
            if closes {
                return Ok(end + 1);
            }
            Err(not_policy(end))
        }
        _ => Err(not_policy(at)),
    }
}

#[cycle(atom_starred_product_term_sum)]
fn starred(text: &[u8], at: usize, depth: u32) -> Result<usize, Misread>
    ensures { JoinPost x_forms continues_starred text.now depth at result }
{
    let end = atom(text, at, depth)?;
    Ok(stars(text, end))
}

// A product, a term and a sum are a function each: one over the rank calls itself at each `(`, which the compiler does not take into `atom` as it takes these
// three (docs/DECISIONS.md, Speed). Each turn goes on by as much as a part reads, by a call that may refuse, so no iterator gives its steps. The text stays and
// offset and depth change at each call, so they are parameters of their own.
#[cycle(atom_starred_product_term_sum)]
fn product(text: &[u8], at: usize, depth: u32) -> Result<usize, Misread>
    ensures { JoinPost x_forms continues_product text.now depth at result }
{
    let mut end = starred(text, at, depth)?;
    while end < text.len() && Rank::Product.joins(text[end]) {
        end = starred(text, end + 1, depth)?;
    }
    Ok(end)
}

#[cycle(atom_starred_product_term_sum)]
fn term(text: &[u8], at: usize, depth: u32) -> Result<usize, Misread>
    ensures { JoinPost x_forms continues_term text.now depth at result }
{
    let mut end = product(text, at, depth)?;
    while end < text.len() && Rank::Term.joins(text[end]) {
        end = product(text, end + 1, depth)?;
    }
    Ok(end)
}

#[cycle(atom_starred_product_term_sum)]
fn sum(text: &[u8], at: usize, depth: u32) -> Result<usize, Misread>
    ensures { JoinPost x_forms continues_sum text.now depth at result }
{
    let mut end = term(text, at, depth)?;
    while end < text.len() && Rank::Sum.joins(text[end]) {
        end = term(text, end + 1, depth)?;
    }
    Ok(end)
}

// The whole text.
pub(crate) fn check(text: &[u8]) -> Result<(), Misread>
    ensures { result ≡ read_of (reads x_forms text.now) }
{
    let end = sum(text, 0, 0)?;
    if end == text.len() {
        return Ok(());
    }
    Err(not_policy(end))
}
