// What a policy's text has at an offset, as the build pass asks it: a byte, a field's number, a value.
ghost use Rattle.std.specs.Prelude.{◌≡◌, ◌≤◌, ◌<◌, eqb, length, get_or};
ghost use Rattle.policy_build.specs.Items.{Past, ReadsNumber};

// A field's number and the offset after it.
#[derive(Clone, Copy)]
pub struct Number {
    pub value: u8,
    pub end: usize,
}

// The byte at an offset, 0 where the text has ended: no byte of the grammar, so that one match serves both.
pub(crate) fn byte(text: &[u8], at: usize) -> u8
    ensures { (result ≡ get_or text.now at 0) × (0 < result → at < length text.now) }
{
    text.get(at).copied().unwrap_or(0)
}

// The offset after this one, or the text's length.
pub(crate) fn past(text: &[u8], at: usize) -> usize
    requires { at ≤ length text.now }
    ensures { Past text.now at result }
{
    text.len().min(at + 1)
}

// A field: one or two digits.
pub(crate) fn field(text: &[u8], at: usize) -> Number
    requires { at ≤ length text.now }
    ensures { ReadsNumber text.now at result }
{
    let a = byte(text, at);
    if !policy_text::is_digit(a) {
        return Number { value: 0, end: at };
    }
    let tens = a - b'0';
    let next = at + 1;
    let b = byte(text, next);
    if !policy_text::is_digit(b) {
        return Number {
            value: tens,
            end: next,
        };
    }
    Number {
        value: tens * 10 + (b - b'0'),
        end: next + 1,
    }
}

// The value: whether `1` is here.
pub(crate) fn bit(text: &[u8], at: usize) -> bool
    ensures { result ≡ eqb (get_or text.now at 0) 49 }
{
    byte(text, at) == b'1'
}
