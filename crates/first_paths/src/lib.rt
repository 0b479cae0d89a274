// The first pair that a relation leads from a set to another. Ranks of first inputs, which the memo keeps, say which way it goes; nothing is added.
#![tactic(auto)]

ghost use Rattle.std.specs.Prelude.{◌≡◌, [], ◌∷◌, Some, ℕ, ◌+◌, ◌*◌, ◌^◌, ◌<◌, ◌≤◌, get_or};
ghost use Rattle.model.specs.Store.{set};
ghost use Rattle.model.specs.FirstInputs.{output_bit, first_digit};
ghost use Rattle.memory.specs.Performing.{going, ended, PerformsOn, OtherNodes};
ghost use Rattle.first_paths.specs.Digits.{bit, bit_or_none, digit};
ghost use Rattle.first_paths.specs.Pairs.{FindsPair};

use inputs::first_input;
use members::none_at;

pub mod inputs;
pub mod members;

// A pair of packets, by their numbers.
#[derive(Clone, Copy)]
pub struct Pair {
    pub input: u32,
    pub output: u32,
}

// The output's first bit in the first pair from p, by a to q0 or by b to q1, where there is one.
fn output_bit(
    relations: &[u32],
    sets: &[u32],
    work: &mut [u32],
    level: u8,
    p: u32,
    a: u32,
    b: u32,
    q0: u32,
    q1: u32,
) -> Option<bool>
    requires { level ≤ 31 }
    ensures { (j n : ℕ) → PerformsOn (OtherNodes set relations.now j) set (output_bit level p a b q0 q1) (going n)
        sets.now sets.now work.old work.new (ended n (Some (bit_or_none result))) }
{
    let r0 = first_input(relations, sets, work, level, p, a, q0);
    let r1 = first_input(relations, sets, work, level, p, b, q1);
    if r1 < r0 {
        return Some(true);
    }
    if r0 < none_at(level) {
        return Some(false);
    }
    None
}

// The first bits of the first pair, the input's and the output's, where there is a pair.
fn first_digit(
    relations: &[u32],
    sets: &[u32],
    work: &mut [u32],
    level: u8,
    p: u32,
    a: u32,
    q: u32,
) -> (bool, bool)
    requires { level ≤ 32 }
    ensures { (j n : ℕ) → PerformsOn (OtherNodes set relations.now j) set (first_digit level p a q) (going n)
        sets.now sets.now work.old work.new (ended n (Some (digit result.0 result.1))) }
{
    if level == 0 {
        return (false, false);
    }
    let x = sets::get(sets, p);
    let z = sets::get(sets, q);
    let y = relations::get(relations, a);
    let below = level - 1;
    if let Some(output) = output_bit(relations, sets, work, below, x.x0, y.x00, y.x01, z.x0, z.x1) {
        return (false, output);
    }
    let output = output_bit(relations, sets, work, below, x.x1, y.x10, y.x11, z.x0, z.x1);
    (true, output.unwrap_or(true))
}

// A child of a relation by the two bits.
fn block(y: relations::SPPnode, input: bool, output: bool) -> u32
    ensures { result ≡ get_or (y.x00 ∷ y.x01 ∷ y.x10 ∷ y.x11 ∷ []) (digit input output) 0 }
{
    match (input, output) {
        (false, false) => y.x00,
        (false, true) => y.x01,
        (true, false) => y.x10,
        (true, true) => y.x11,
    }
}

// A child of a set by its bit.
fn side(x: sets::SPnode, b: bool) -> u32
    ensures { result ≡ get_or (x.x0 ∷ x.x1 ∷ []) (bit b) 0 }
{
    if b { x.x1 } else { x.x0 }
}

// The number of the packet with this bit before the fields of the packet n.
fn with_bit(b: bool, n: u32) -> u32
    requires { n < 2 ^ 31 }
    ensures is { result ≡ bit b + 2 * n }
    ensures small { result ≤ 2 * n + 1 }
{
    2 * n + u32::from(b)
}

// The first pair of a relation from p to q, where there is one.
pub fn first_pair(
    relations: &[u32],
    sets: &[u32],
    work: &mut [u32],
    level: u8,
    p: u32,
    a: u32,
    q: u32,
) -> Pair
    requires { level ≤ 32 }
    ensures small { (result.input < 2 ^ level) × (result.output < 2 ^ level) }
    ensures first { (j n : ℕ) → FindsPair (OtherNodes set relations.now j) level p a q n sets.now work.old
        result.input result.output }
{
    if level == 0 {
        return Pair {
            input: 0,
            output: 0,
        };
    }
    let (input, output) = first_digit(relations, sets, work, level, p, a, q);
    let x = side(sets::get(sets, p), input);
    let z = side(sets::get(sets, q), output);
    let y = block(relations::get(relations, a), input, output);
    let rest = first_pair(relations, sets, work, level - 1, x, y, z);
    Pair {
        input: with_bit(input, rest.input),
        output: with_bit(output, rest.output),
    }
}
