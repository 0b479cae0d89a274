// The memo: a lossy cache of results, an entry two numbers of lent memory, 0 where there is none. An operation may stand in twelve entries, its window. Where
// all are taken, one of the lowest level gives way: it is the soonest made again, and asked for least once the level above is complete (docs/DECISIONS.md,
// Speed).
ghost use Rattle.std.specs.Prelude.{◌≡◌, true, false, IfSome, ◌+◌, ◌*◌, ◌/◌, ◌%◌, ◌<◌, ◌≤◌, length, get_or};
ghost use Rattle.model.specs.Store.{Store};
ghost use Rattle.model.specs.Programs.{run, ran};
ghost use Rattle.memory.specs.Memo.{op_limit, memo_program};
ghost use Rattle.memory.specs.Working.{operand_limit, first_number, key_number, window_size, Remembers};
ghost use Rattle.memory.specs.Performing.{Recalls, LooksIn, KeepsEntry};

// THE OPERATIONS' NUMBERS, by which the memo tells them apart; specs/Memo has the same names and says which program each number is.
pub const SET_UNION: u32 = 1;

pub const SET_XOR: u32 = 2;

pub const INTERSECTS: u32 = 3;

pub const UNION: u32 = 4;

pub const INTERSECT: u32 = 5;

pub const XOR: u32 = 6;

pub const DIFFERENCE: u32 = 7;

pub const COMPLEMENT: u32 = 8;

pub const SEQUENCE: u32 = 9;

pub const STAR: u32 = 10;

pub const FLIP: u32 = 11;

pub const TEST: u32 = 12;

pub const ASSIGN: u32 = 13;

pub const FWD: u32 = 14;

pub const BWD: u32 = 15;

pub const IFWD: u32 = 16;

pub const DIAGONAL: u32 = 17;

pub const PUSH: u32 = 18;

pub const PULL: u32 = 19;

pub const HAS_IMAGE: u32 = 20;

pub const CONSTANT: u32 = 21;

pub const IDENTITY: u32 = 22;

// `ifelse` has a number for each field, of which this is the first.
pub const IFELSE: u32 = 64;

// `has_path` has a number for each output set, of which this is the first.
pub const HAS_PATH: u32 = 1024;

// `first_input` has a number for each output set, of which this is the first.
pub const FIRST_INPUT: u32 = 16384;

// Numbers of operations are below this, so that an entry has room for one.
pub const OPERATIONS: u32 = 32768;

// What an entry has room for, specs/Working: operands and results below the first number, levels below the second.
const OPERANDS: u32 = 16384;

const LEVELS: u8 = 128;

// The entries of a window, specs/Working.
const WINDOW: usize = 12;

// A memo of at most so many entries is full on common texts; there an operation has the first entry of its window alone.
const FEW: usize = 2048;

// Whether an entry has room for both operands.
fn fits(a: u32, b: u32) -> bool
    ensures yes { result ≡ true → (a < operand_limit) × (b < operand_limit) }
    ensures no { result ≡ false → (a < operand_limit) × (b < operand_limit) → ⊥ }
{
    a < OPERANDS && b < OPERANDS
}

// The first number of an operation's entry.
fn first_number(op: u32, a: u32, b: u32) -> u32
    requires { (a < operand_limit) × (b < operand_limit) }
    ensures { result ≡ first_number op a b }
{
    op % 16 * 268435456 + a * OPERANDS + b
}

// The second number of its entry without the result.
fn key(op: u32, level: u8) -> u32
    requires { op < op_limit }
    ensures { result ≡ key_number op level }
{
    level as u32 * 2048 + op / 16
}

// Where the window of an operation begins, in a memo of so many entries.
fn window(entries: usize, first: u32, key: u32) -> usize
    requires { (window_size ≤ entries) × (entries < 4294967296) }
    ensures { (result % 2 ≡ 0) × (result + 2 * window_size ≤ 2 * entries) }
{
    let h = first as u64 * 2654435769 + key as u64 * 1640531527;
    let n = (entries - (WINDOW - 1)) as u64;
    2 * (h % 4294967296 * n / 4294967296) as usize
}

// The second number of the entry at i, if it is the operation's.
fn entry(work: &[u32], i: usize, first: u32, key: u32) -> Option<u32>
    requires { i + 1 < length work.now }
    ensures { IfSome result (λ v. (get_or work.now i 0 ≡ first) × (get_or work.now (i + 1) 0 ≡ v) × (v / operand_limit ≡ key) × (0 < v)) }
{
    let v = work[i + 1];
    if work[i] == first && v / OPERANDS == key && v != 0 {
        Some(v)
    } else {
        None
    }
}

// The entry of the window from `at` on that is the operation's, else one of the lowest level; an entry that is none is lower than all. The entry at
// `at` is not the operation's.
fn slot(work: &[u32], at: usize, first: u32, key: u32) -> usize
    requires { at + 2 * window_size ≤ length work.now }
    ensures { (result % 2 ≡ at % 2) × (at ≤ result) × (result + 2 ≤ at + 2 * window_size) }
{
    let mut lowest = at;
    let mut least = work[at + 1];
    for j in 1..WINDOW {
        let i = at + 2 * j;
        let v = work[i + 1];
        if work[i] == first && v / OPERANDS == key {
            return i;
        }
        if v < least {
            least = v;
            lowest = i;
        }
    }
    lowest
}

// What the memo holds on an operation of this level on a and b.
pub fn recall(work: &[u32], op: u32, level: u8, a: u32, b: u32) -> Option<u32>
    requires { op < op_limit }
    ensures { Recalls work.now op level a b result }
{
    let entries = crate::index::memo_size(work.len()) / 2;
    if entries < WINDOW || entries > 4294967295 || !fits(a, b) {
        return None;
    }
    let first = first_number(op, a, b);
    let key = key(op, level);
    let i = window(entries, first, key);
    if let Some(v) = entry(work, i, first, key) {
        return Some(v % OPERANDS);
    }
    if work[i + 1] == 0 || entries <= FEW {
        return None;
    }
    let v = entry(work, slot(work, i, first, key), first, key)?;
    Some(v % OPERANDS)
}

// The same for an operation whose shortcuts may change the operands: where there is no answer it is left with these.
pub fn look_up(work: &[u32], op: u32, level: u8, a: u32, b: u32) -> crate::Lookup
    requires { op < op_limit }
    ensures { LooksIn work.now op level a b result }
{
    match recall(work, op, level, a, b) {
        Some(h) => crate::Lookup::Answer(h),
        None => crate::Lookup::Operands(a, b),
    }
}

// The entry that an operation's answer is to have.
fn choose(work: &[u32], entries: usize, first: u32, key: u32) -> usize
    requires { (window_size ≤ entries) × (entries < 4294967296) × (2 * entries ≤ length work.now) }
    ensures { (result % 2 ≡ 0) × (result + 2 ≤ 2 * entries) }
{
    let i = window(entries, first, key);
    if work[i + 1] == 0 || entries <= FEW {
        i
    } else {
        slot(work, i, first, key)
    }
}

// Keeps what an operation gave, where an entry has room for it.
pub fn keep(work: &mut [u32], op: u32, level: u8, a: u32, b: u32, h: u32)
    requires { op < op_limit }
    ensures { KeepsEntry work.old work.new op level a b h }
{
    let entries = crate::index::memo_size(work.len()) / 2;
    if entries < WINDOW || entries > 4294967295 || !fits(a, b) || level >= LEVELS || h >= OPERANDS {
        return;
    }
    let first = first_number(op, a, b);
    let key = key(op, level);
    let i = choose(work, entries, first, key);
    work[i] = first;
    work[i + 1] = key * OPERANDS + h;
}
