// Text written into a lent slice, each piece after the one before. Not by `write!`: std says nothing of the bytes that it leaves in a lent slice.
ghost use Rattle.std.specs.Prelude.{◌≡◌, ◌++◌, ◌+◌, ◌≤◌, length};
ghost use Rattle.listing.specs.Decimal.{decimal};
ghost use Rattle.listing.specs.Listing.{first_line, shown, answer_line, nodes_line};
ghost use Rattle.listing.specs.Writing.{Adds, AddsFew};

use policies::PolicyRefusal;

// Some bytes; their end.
pub(crate) fn put(out: &mut [u8], at: usize, s: &[u8]) -> usize
    requires { at + length s.now ≤ length out.old }
    ensures { Adds at s.now out.old out.new result }
{
    let end = at + s.len();
    out[at..end].copy_from_slice(s);
    end
}

// Some bytes and a number.
fn put_number(out: &mut [u8], at: usize, s: &[u8], n: u64) -> usize
    requires { at + length s.now + 20 ≤ length out.old }
    ensures { AddsFew (length s.now + 20) at (s.now ++ decimal n) out.old out.new result }
{
    let from = put(out, at, s);
    let mut text = [0u8; 20];
    let k = io::decimal(n, &mut text);
    put(out, from, &text[..k])
}

// The first line, `k` and the number of fields.
pub(crate) fn first_line(out: &mut [u8], k: u32) -> usize
    requires { 64 ≤ length out.old }
    ensures { AddsFew 64 0 (first_line k) out.old out.new result }
{
    let end = put_number(out, 0, b"k ", k as u64);
    put(out, end, b"\n")
}

// The handle; or the refusal's number, and the offset where there is one.
fn put_answer(out: &mut [u8], at: usize, a: Result<u32, PolicyRefusal>) -> usize
    requires { at + 43 ≤ length out.old }
    ensures { AddsFew 43 at (shown a) out.old out.new result }
{
    match a {
        Ok(h) => put_number(out, at, b" h", h as u64),
        Err(PolicyRefusal::At(misread)) => {
            let from = put_number(out, at, b" r", u32::from(misread.fault) as u64);
            put_number(out, from, b" ", misread.at as u64)
        }
        Err(PolicyRefusal::Store(refusal)) => put_number(out, at, b" r", u32::from(refusal) as u64),
    }
}

// The line of policy i.
pub(crate) fn answer_line(
    out: &mut [u8],
    at: usize,
    i: usize,
    a: Result<u32, PolicyRefusal>,
) -> usize
    requires { at + 64 ≤ length out.old }
    ensures { AddsFew 64 at (answer_line i a) out.old out.new result }
{
    let from = put_number(out, at, b"", i as u64);
    let end = put_answer(out, from, a);
    put(out, end, b"\n")
}

// The last line, `nodes` and both counts.
pub(crate) fn nodes_line(out: &mut [u8], at: usize, n: u32, m: u32) -> usize
    requires { at + 64 ≤ length out.old }
    ensures { AddsFew 64 at (nodes_line n m) out.old out.new result }
{
    let from = put_number(out, at, b"nodes ", n as u64);
    let end = put_number(out, from, b" ", m as u64);
    put(out, end, b"\n")
}
