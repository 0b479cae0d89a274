// Policy texts: the reader of 01's grammar and of the rules that need no store.
#![tactic(auto)]

ghost use Rattle.std.specs.Prelude.{◌≡◌, ℕ};
ghost use Rattle.policy_text.specs.XForms.{is_digit_byte, is_no_field, x_forms};
ghost use Rattle.policy_text.specs.Machine.{does_mix};
ghost use Rattle.policy_text.specs.Reading.{first, does_offend, rules, reading};
ghost use Rattle.policy_text.specs.Misreads.{fault_number};
ghost use Rattle.policy_text.specs.Posts.{does_join};

mod fields;
mod negations;
mod syntax;

// What is wrong with a text.
#[derive(Clone, Copy, Debug, PartialEq, Eq)]
pub enum Fault {
    NotPolicy,
    NotPredicate,
    TooDeep,
    NoField,
}

// Document 01's number of a fault.
impl From<Fault> for u32 {
    ghost from_gives = { λ f n. n ≡ fault_number f };

    fn from(f: Fault) -> u32 {
        match f {
            Fault::NotPolicy => 7,
            Fault::NotPredicate => 8,
            Fault::TooDeep => 9,
            Fault::NoField => 5,
        }
    }
}

// Why a text is refused: a fault, and its offset in the text.
#[derive(Clone, Copy, Debug, PartialEq, Eq)]
pub struct Misread {
    pub fault: Fault,
    pub at: usize,
}

// A decimal digit, by the grammar's name.
pub fn is_digit(b: u8) -> bool
    ensures { result ≡ is_digit_byte b }
{
    b.is_ascii_digit()
}

// One of the signs `&`, `-` and `^`, which join the products of a term.
pub fn mixes(b: u8) -> bool
    ensures { result ≡ does_mix b }
{
    matches!(b, b'&' | b'-' | b'^')
}

// A part of the grammar that is made of parts, which signs join.
#[derive(Clone, Copy, Debug, PartialEq, Eq)]
pub enum Rank {
    Product,
    Term,
    Sum,
}

impl Rank {
    // Does a byte join the parts?
    pub fn joins(self, b: u8) -> bool
        ensures { result ≡ does_join self b }
    {
        match self {
            Rank::Product => b == b';',
            Rank::Term => mixes(b),
            Rank::Sum => b == b'+',
        }
    }
}

// The rules on a text that follows the grammar.
fn keeps_rules(text: &[u8], k: u32) -> Result<(), Misread>
    ensures { result ≡ rules (first (is_no_field k) 0 text.now) (first (does_offend x_forms) 0 text.now) }
{
    if let Some(at) = fields::first_without(text, k) {
        return Err(Misread {
            fault: Fault::NoField,
            at,
        });
    }
    if let Some(at) = negations::first_offending(text) {
        return Err(Misread {
            fault: Fault::NotPredicate,
            at,
        });
    }
    Ok(())
}

// A text of any bytes, read for k fields: it is a policy that keeps the rules, or it is refused with 7, 9, 5 or 8.
pub fn read(text: &[u8], k: u32) -> Result<(), Misread>
    ensures { result ≡ reading x_forms k text.now }
{
    syntax::check(text)?;
    keeps_rules(text, k)
}
