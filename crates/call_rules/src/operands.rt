// Whether a call's operands are held, and at one level.
ghost use Rattle.std.specs.Prelude.{◌≡◌, ◌&&◌, ◌<◌, ◌≤◌, length};
ghost use Rattle.model.specs.Store.{Kind, set, rel, arity, Store, nodes};
ghost use Rattle.model.specs.WellFormed.{is_held};
ghost use Rattle.call_rules.specs.Outcome.{of_one, of_pair, of_two, of_path, of_parent, of_children, of_four_children, of_field, of_branches};
ghost use Rattle.call_rules.specs.Outcome.{of_packets, of_given};
ghost use Rattle.call_rules.specs.Checking.{Low, Checks, ChecksBoth, AllAt};

use crate::Refusal;
use memory::power;
use memory::property_words::{level, place_of};

// Whether a handle is held among n nodes of c numbers.
fn is_held(c: usize, n: usize, h: u32) -> bool
    ensures { (K : Kind) (S : Store) → c ≡ arity K → length (nodes K S) ≡ n → is_held K S h ≡ result }
{
    h < 2 || place_of(c, h) < n
}

// Whether four handles are held.
fn all_held(c: usize, n: usize, x00: u32, x01: u32, x10: u32, x11: u32) -> bool
    ensures { (K : Kind) (S : Store) → c ≡ arity K → length (nodes K S) ≡ n
        → (is_held K S «x00» && (is_held K S «x01» && (is_held K S «x10» && is_held K S «x11»))) ≡ result }
{
    is_held(c, n, x00) && is_held(c, n, x01) && is_held(c, n, x10) && is_held(c, n, x11)
}

// One operand.
pub fn one(nodes: &[u32], c: usize, n: usize, k: u32, a: u32) -> Result<u32, Refusal>
    requires { 0 < c }
    ensures { (K : Kind) → c ≡ arity K → Checks K nodes.now n k (λ S. of_one k K S a) result }
{
    if !is_held(c, n, a) {
        return Err(Refusal::NotHeld);
    }
    Ok(level(nodes, c, k, a))
}

// One operand that has children.
pub fn parent(nodes: &[u32], c: usize, n: usize, k: u32, a: u32) -> Result<u32, Refusal>
    requires { 0 < c }
    ensures { (K : Kind) → c ≡ arity K → Checks K nodes.now n k (λ S. of_parent k K S a) result }
{
    let l = one(nodes, c, n, k, a)?;
    if l == 0 {
        return Err(Refusal::NoChildren);
    }
    Ok(l)
}

// Two operands of one kind.
pub fn two(nodes: &[u32], c: usize, n: usize, k: u32, a: u32, b: u32) -> Result<u32, Refusal>
    requires { 0 < c }
    ensures { (K : Kind) → c ≡ arity K → Checks K nodes.now n k (λ S. of_two k K S a b) result }
{
    if !is_held(c, n, a) || !is_held(c, n, b) {
        return Err(Refusal::NotHeld);
    }
    let l = level(nodes, c, k, a);
    if level(nodes, c, k, b) != l {
        return Err(Refusal::LevelsDiffer);
    }
    Ok(l)
}

// Two children, for a node above them.
pub fn two_children(
    nodes: &[u32],
    c: usize,
    n: usize,
    k: u32,
    a: u32,
    b: u32,
) -> Result<u32, Refusal>
    requires { 0 < c }
    ensures { (K : Kind) → c ≡ arity K → Checks K nodes.now n k (λ S. of_children k K S a b) result }
{
    let l = two(nodes, c, n, k, a, b)?;
    if l >= k {
        return Err(Refusal::OutOfRange);
    }
    Ok(l)
}

// A field and a value for it.
pub fn field(k: u32, var: u32, value: u32) -> Result<u32, Refusal>
    ensures { (of_field k var value ≡ result) × Low k result }
{
    if var >= k || value >= 2 {
        return Err(Refusal::OutOfRange);
    }
    Ok(k)
}

// A field, and two operands of a level above it.
pub fn branches(
    nodes: &[u32],
    c: usize,
    n: usize,
    k: u32,
    var: u32,
    a: u32,
    b: u32,
) -> Result<u32, Refusal>
    requires { 0 < c }
    ensures { (K : Kind) → c ≡ arity K → Checks K nodes.now n k
        (λ S. of_branches k K S var a b) result }
{
    if var >= k {
        return Err(Refusal::OutOfRange);
    }
    let l = two(nodes, c, n, k, a, b)?;
    if var >= l {
        return Err(Refusal::NoChildren);
    }
    Ok(l)
}

// Whether three held handles are at this level.
fn all_at(nodes: &[u32], c: usize, k: u32, l: u32, x01: u32, x10: u32, x11: u32) -> bool
    requires { 0 < c }
    ensures { AllAt nodes.now c k l «x01» «x10» «x11» result }
{
    level(nodes, c, k, x01) == l && level(nodes, c, k, x10) == l && level(nodes, c, k, x11) == l
}

// Four children, for a node above them.
pub fn four_children(
    nodes: &[u32],
    c: usize,
    n: usize,
    k: u32,
    x00: u32,
    x01: u32,
    x10: u32,
    x11: u32,
) -> Result<u32, Refusal>
    requires { 0 < c }
    ensures { (K : Kind) → c ≡ arity K → Checks K nodes.now n k
        (λ S. of_four_children k K S «x00» «x01» «x10» «x11») result }
{
    if !all_held(c, n, x00, x01, x10, x11) {
        return Err(Refusal::NotHeld);
    }
    let l = level(nodes, c, k, x00);
    if !all_at(nodes, c, k, l, x01, x10, x11) {
        return Err(Refusal::LevelsDiffer);
    }
    if l >= k {
        return Err(Refusal::OutOfRange);
    }
    Ok(l)
}

// A relation and a set.
pub fn pair(
    relations: &[u32],
    n: usize,
    sets: &[u32],
    m: usize,
    k: u32,
    a: u32,
    p: u32,
) -> Result<u32, Refusal>
    ensures { ChecksBoth relations.now n sets.now m k (λ S. of_pair k S rel a set p) result }
{
    if !is_held(4, n, a) || !is_held(2, m, p) {
        return Err(Refusal::NotHeld);
    }
    let l = level(relations, 4, k, a);
    if level(sets, 2, k, p) != l {
        return Err(Refusal::LevelsDiffer);
    }
    Ok(l)
}

// A set, a relation and a set.
pub fn path(
    relations: &[u32],
    n: usize,
    sets: &[u32],
    m: usize,
    k: u32,
    p: u32,
    a: u32,
    q: u32,
) -> Result<u32, Refusal>
    ensures { ChecksBoth relations.now n sets.now m k (λ S. of_path k S p a q) result }
{
    if !is_held(2, m, q) {
        return Err(Refusal::NotHeld);
    }
    let l = pair(relations, n, sets, m, k, a, p)?;
    if level(sets, 2, k, q) != l {
        return Err(Refusal::LevelsDiffer);
    }
    Ok(l)
}

// A set, and a packet of its level where one was given.
pub fn given(nodes: &[u32], n: usize, k: u32, a: u32, given: u32, last: u32) -> Result<u32, Refusal>
    requires { k ≤ 32 }
    ensures { Checks set nodes.now n k (λ S. of_given k S a given last) result }
{
    let l = one(nodes, 2, n, k, a)?;
    let asked = given != 0;
    if asked && u64::from(last) >= power(l as u8) {
        return Err(Refusal::OutOfRange);
    }
    Ok(l)
}

// A relation, and two packets of its level.
pub fn packets(
    nodes: &[u32],
    n: usize,
    k: u32,
    a: u32,
    input: u32,
    output: u32,
) -> Result<u32, Refusal>
    requires { k ≤ 32 }
    ensures { Checks rel nodes.now n k
        (λ S. of_packets k S a input output) result }
{
    let l = one(nodes, 4, n, k, a)?;
    let most = power(l as u8);
    if u64::from(input) >= most || u64::from(output) >= most {
        return Err(Refusal::OutOfRange);
    }
    Ok(l)
}
