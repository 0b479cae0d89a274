// Does a text have `!` before an operand with `:=`, `*` or `T`: 8.
ghost use Rattle.std.specs.Prelude.{◌≡◌, ℕ, ◌<◌};
ghost use Rattle.policy_text.specs.XForms.{x_forms};
ghost use Rattle.policy_text.specs.Reading.{first, is_test, open_after, is_clean_inside, is_clean, does_offend};

// After `x`: a test, and no assignment?
fn is_test(rest: &[u8]) -> bool
    ensures { result ≡ is_test rest.now }
{
    for b in rest {
        match *b {
            b':' => return false,
            b'=' => return true,
            _ => {}
        }
    }
    true
}

// How many parentheses are open after a byte.
fn opened(b: u8, count: usize) -> usize
    requires { count < 18446744073709551615 }
    ensures { result ≡ open_after b count }
{
    match b {
        b'(' => count + 1,
        b')' => count.saturating_sub(1),
        _ => count,
    }
}

// After `(`: no `:`, `*` or `T` up to its `)`?
fn clean_inside(rest: &[u8]) -> bool
    ensures { result ≡ is_clean_inside rest.now 1 }
{
    let mut count: usize = 1;
    for b in rest {
        if count == 0 {
            return true;
        }
        // A local for each test that an edit of must-fail changes: a goal is named after what its test compares.
        let star = *b == b'*';
        let full = *b == b'T';
        if *b == b':' || star || full {
            return false;
        }
        count = opened(*b, count);
    }
    true
}

// No `:`, `*` or `T` in the atom that what is left of a text begins with? A `!` before it is passed over.
fn clean(rest: &[u8]) -> bool
    ensures { result ≡ is_clean x_forms rest.now }
{
    let mut atom = rest;
    while let [b'!', operand @ ..] = atom {
        atom = operand;
    }
    match atom {
        [b'(', inside @ ..] => clean_inside(inside),
        [b'x', field @ ..] => is_test(field),
        [b'T', ..] => false,
        _ => true,
    }
}

// A `!` before an operand with `:`, `*` or `T`?
fn offends(rest: &[u8]) -> bool
    ensures { result ≡ does_offend x_forms rest.now }
{
    match rest {
        [b'!', operand @ ..] => !clean(operand),
        _ => false,
    }
}

// The first offending `!`.
pub(crate) fn first_offending(text: &[u8]) -> Option<usize>
    ensures { result ≡ first (does_offend x_forms) 0 text.now }
{
    (0..text.len()).find(|at| offends(&text[*at..]))
}
