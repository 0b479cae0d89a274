// A line of text: a name, then numbers with one space before each.
ghost use Rattle.std.specs.Prelude.{◌-◌, ◌≤◌, length, IfSome};
ghost use Rattle.replay.specs.Numbers.{ReadsNumber, ReadsRow};

// The first line of a text, and the text after its newline.
pub fn split_line(text: &[u8]) -> (&[u8], &[u8])
    ensures { length result.1.now ≤ length text.now - 1 }
{
    match text.iter().position(|b| *b == b'\n') {
        Some(end) => (&text[..end], &text[end + 1..]),
        None => (text, &[]),
    }
}

// The numbers of a line, at most four, those that are not there 0 (no heap, so an array and how many).
#[derive(Clone, Copy)]
pub struct Row {
    pub count: usize,
    pub x: [u32; 4],
}

// The number whose digits begin here, below 2^32, and where it ends.
pub fn read_number(line: &[u8], from: usize) -> Option<(u32, usize)>
    requires { from ≤ length line.now }
    ensures { ReadsNumber line.now from result }
{
    let mut value = 0u32;
    let mut end = from;
    for d in &line[from..] {
        if !d.is_ascii_digit() {
            break;
        }
        value = value.checked_mul(10)?.checked_add((*d - b'0') as u32)?;
        end += 1;
    }
    (from < end).then_some((value, end))
}

// The numbers from here to the end of the line; none where it has anything else. By their places, as `Rest` says it; a number has its own length.
pub fn read_numbers(line: &[u8], from: usize) -> Option<Row>
    requires { from ≤ length line.now }
    ensures few { IfSome result (λ row. row.count ≤ 4) }
    ensures all { ReadsRow line.now from result }
{
    let mut x = [0u32; 4];
    let mut count = 0;
    let mut at = from;
    while at < line.len() {
        if count == 4 || line[at] != b' ' {
            return None;
        }
        let (value, end) = read_number(line, at + 1)?;
        x[count] = value;
        count += 1;
        at = end;
    }
    Some(Row { count, x })
}
