// The build pass: it reads a checked text again and runs the text's operations on the nodes of relations.
#![tactic(auto)]

ghost use Rattle.std.specs.Prelude.{◌≡◌, ◌≤◌, length, get_or};
ghost use Rattle.policy_text.specs.XForms.{x_forms};
ghost use Rattle.policy_text.specs.Machine.{mix_of};
ghost use Rattle.policy_text.specs.Grammar.{Atom, Starred};
ghost use Rattle.policy_build.specs.Building.{Builds, BuildsText, Named, after_atom, after_starred, part_of, after_part, ranked, after_rank, join_program};
ghost use Rattle.model.specs.Store.{rel};
ghost use Rattle.model.specs.Policies.{mix_program};
ghost use Rattle.memory.specs.Performing.{Performs, going, ended};

use items::{bit, byte, field, past};
use policy_text::Rank;
use relation_products::{sequence, star};

mod items;

// What was built of a part of the text: its handle, and the offset after the part.
#[derive(Clone, Copy)]
pub struct Built {
    pub handle: u32,
    pub end: usize,
}

// What a function builds is the part of the grammar that its clause names. The text, the nodes, the working memory and the count go along as they
// were lent: a struct that holds the three `&mut` owes in every contract that each of them is still the same.

// A test or an assignment, after its `x`.
fn named(
    text: &[u8],
    at: usize,
    nodes: &mut [u32],
    work: &mut [u32],
    n: &mut usize,
    k: u8,
) -> Option<Built>
    requires { at ≤ length text.now }
    ensures { Builds Named after_atom k text.now at (going n.old) nodes.old nodes.new work.old work.new n.new result }
{
    let field = field(text, at);
    let sign = byte(text, field.end);
    let next = past(text, field.end);
    if sign == b'=' {
        let value = bit(text, next);
        let end = past(text, next);
        let handle = relations::fields::test(nodes, work, n, k, field.value, value)?;
        return Some(Built { handle, end });
    }
    let last = past(text, next);
    let value = bit(text, last);
    let end = past(text, last);
    let handle = relations::fields::assign(nodes, work, n, k, field.value, value)?;
    Some(Built { handle, end })
}

// `0`, `1`, `T`, a test or an assignment.
fn leaf(
    text: &[u8],
    at: usize,
    nodes: &mut [u32],
    work: &mut [u32],
    n: &mut usize,
    k: u8,
) -> Option<Built>
    requires { (at ≤ length text.now) × (¬ (get_or text.now at 0 ≡ 33)) × (¬ (get_or text.now at 0 ≡ 40)) }
    ensures { Builds (Atom x_forms) after_atom k text.now at (going n.old) nodes.old nodes.new work.old work.new n.new result }
{
    let end = past(text, at);
    let handle = match byte(text, at) {
        b'0' => relations::zero_at_depth(nodes, work, n, k)?,
        b'1' => relations::one_at_depth(nodes, work, n, k)?,
        b'T' => relations::top_at_depth(nodes, work, n, k)?,
        _ => return named(text, end, nodes, work, n, k),
    };
    Some(Built { handle, end })
}

// `!` and an atom, a sum in parentheses, or a leaf.
#[cycle(atom_joined_part_starred)]
fn atom(
    text: &[u8],
    at: usize,
    nodes: &mut [u32],
    work: &mut [u32],
    n: &mut usize,
    k: u8,
) -> Option<Built>
    requires { at ≤ length text.now }
    ensures { Builds (Atom x_forms) after_atom k text.now at (going n.old) nodes.old nodes.new work.old work.new n.new result }
{
    match byte(text, at) {
        b'!' => {
            let p = atom(text, at + 1, nodes, work, n, k)?;
            let one = relations::one_at_depth(nodes, work, n, k)?;
            let handle = relations::difference(nodes, work, n, k, one, p.handle)?;
            Some(Built { handle, ..p })
        }
        b'(' => {
            let p = joined(Rank::Sum, text, at + 1, nodes, work, n, k)?;
            let end = past(text, p.end);
            Some(Built { end, ..p })
        }
        _ => leaf(text, at, nodes, work, n, k),
    }
}

// An atom and its stars.
#[cycle(atom_joined_part_starred)]
fn starred(
    text: &[u8],
    at: usize,
    nodes: &mut [u32],
    work: &mut [u32],
    n: &mut usize,
    k: u8,
) -> Option<Built>
    requires { at ≤ length text.now }
    ensures { Builds (Starred x_forms) after_starred k text.now at (going n.old) nodes.old nodes.new work.old work.new n.new result }
{
    let mut p = atom(text, at, nodes, work, n, k)?;
    while byte(text, p.end) == b'*' {
        p.handle = star(nodes, work, n, k, p.handle)?;
        p.end += 1;
    }
    Some(p)
}

// The operation of a sign, `&`, `-` or `^`: a byte of the text, told apart where it is read.
fn mixed(
    nodes: &mut [u32],
    work: &mut [u32],
    n: &mut usize,
    k: u8,
    sign: u8,
    a: u32,
    b: u32,
) -> Option<u32>
    ensures { Performs rel (mix_program (mix_of sign) k a b) (going n.old) nodes.old nodes.new work.old work.new (ended n.new result) }
{
    match sign {
        b'&' => relations::intersect(nodes, work, n, k, a, b),
        b'-' => relations::difference(nodes, work, n, k, a, b),
        _ => relations::xor(nodes, work, n, k, a, b),
    }
}

// The operation of a sign that joins the parts of a rank.
fn operation(
    rank: Rank,
    sign: u8,
    nodes: &mut [u32],
    work: &mut [u32],
    n: &mut usize,
    k: u8,
    a: u32,
    b: u32,
) -> Option<u32>
    ensures { Performs rel (join_program rank sign k a b) (going n.old) nodes.old nodes.new work.old work.new (ended n.new result) }
{
    match rank {
        Rank::Product => sequence(nodes, work, n, k, a, b),
        Rank::Term => mixed(nodes, work, n, k, sign, a, b),
        Rank::Sum => relations::union(nodes, work, n, k, a, b),
    }
}

// A part of a rank.
#[cycle(atom_joined_part_starred)]
fn part(
    rank: Rank,
    text: &[u8],
    at: usize,
    nodes: &mut [u32],
    work: &mut [u32],
    n: &mut usize,
    k: u8,
) -> Option<Built>
    requires { at ≤ length text.now }
    ensures { Builds (part_of x_forms rank) (after_part rank) k text.now at (going n.old) nodes.old nodes.new work.old work.new n.new result }
{
    match rank {
        Rank::Product => starred(text, at, nodes, work, n, k),
        Rank::Term => joined(Rank::Product, text, at, nodes, work, n, k),
        Rank::Sum => joined(Rank::Term, text, at, nodes, work, n, k),
    }
}

// A rank: its parts, joined. As with the stars, a turn goes on by as much of the text as a call has read, so no iterator gives its steps.
#[cycle(atom_joined_part_starred)]
fn joined(
    rank: Rank,
    text: &[u8],
    at: usize,
    nodes: &mut [u32],
    work: &mut [u32],
    n: &mut usize,
    k: u8,
) -> Option<Built>
    requires { at ≤ length text.now }
    ensures { Builds (ranked x_forms rank) (after_rank rank) k text.now at (going n.old) nodes.old nodes.new work.old work.new n.new result }
{
    let mut p = part(rank, text, at, nodes, work, n, k)?;
    loop {
        let sign = byte(text, p.end);
        if !rank.joins(sign) {
            return Some(p);
        }
        let q = part(rank, text, p.end + 1, nodes, work, n, k)?;
        p.handle = operation(rank, sign, nodes, work, n, k, p.handle, q.handle)?;
        p.end = q.end;
    }
}

// The policy of a checked text, built on the nodes of relations.
pub fn build(text: &[u8], nodes: &mut [u32], work: &mut [u32], n: &mut usize, k: u8) -> Option<u32>
    ensures { BuildsText x_forms k text.now (going n.old) nodes.old nodes.new work.old work.new (ended n.new result) }
{
    let p = joined(Rank::Sum, text, 0, nodes, work, n, k)?;
    Some(p.handle)
}
