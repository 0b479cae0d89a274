// Does a text name a field that is not there: 5.
ghost use Rattle.std.specs.Prelude.{◌≡◌, ℕ, ◌-◌, ◌<◌};
ghost use Rattle.policy_text.specs.XForms.{field_number, is_no_field};
ghost use Rattle.policy_text.specs.Reading.{first};

// The value of a digit.
fn value(b: u8) -> u32
    ensures value { result ≡ b - 48 }
    ensures upper_bound { result < 256 }
{
    u32::from(b.saturating_sub(b'0'))
}

// The N that what is left of a text begins with.
fn number(rest: &[u8]) -> u32
    ensures { result ≡ field_number rest.now }
{
    match rest {
        [] => 0,
        [a] => value(*a),
        [a, b, ..] if b.is_ascii_digit() => value(*a) * 10 + value(*b),
        [a, _, ..] => value(*a),
    }
}

// An `x` before an N that is k or more?
fn no_field(rest: &[u8], k: u32) -> bool
    ensures { result ≡ is_no_field k rest.now }
{
    match rest {
        [b'x', field @ ..] => k <= number(field),
        _ => false,
    }
}

// The first `x` whose N is k or more.
pub(crate) fn first_without(text: &[u8], k: u32) -> Option<usize>
    ensures { result ≡ first (is_no_field k) 0 text.now }
{
    (0..text.len()).find(|at| no_field(&text[*at..], k))
}
