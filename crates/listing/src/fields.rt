// The first line: the number k of fields.
ghost use Rattle.std.specs.Prelude.{◌≡◌};
ghost use Rattle.listing.specs.Listing.{at_most_32, one_digit, two_digits, width_of};

fn at_most_32(n: u32) -> Option<u32>
    ensures { result ≡ at_most_32 n }
{
    (n <= 32).then_some(n)
}

fn one_digit(a: u8) -> Option<u32>
    ensures { result ≡ one_digit a }
{
    match a {
        b'0'..=b'9' => at_most_32((a - b'0') as u32),
        _ => None,
    }
}

fn two_digits(a: u8, b: u8) -> Option<u32>
    ensures { result ≡ two_digits a b }
{
    match (a, b) {
        (b'1'..=b'9', b'0'..=b'9') => at_most_32(10 * (a - b'0') as u32 + (b - b'0') as u32),
        _ => None,
    }
}

// The number from 0 to 32 that a line says.
pub(crate) fn read(line: &[u8]) -> Option<u32>
    ensures { result ≡ width_of line.now }
{
    match line {
        [a] => one_digit(*a),
        [a, b] => two_digits(*a, *b),
        _ => None,
    }
}
