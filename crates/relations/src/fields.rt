// The operations of spp.rs that name a field: `test` and `assign`.
ghost use Rattle.std.specs.Prelude.{◌≡◌, List, [], ◌∷◌, ℕ, ◌<◌, eqb};
ghost use Rattle.model.specs.Store.{rel, pick};
ghost use Rattle.model.specs.Programs.{Prog};
ghost use Rattle.model.specs.Operations.{each_field, test, assign};
ghost use Rattle.model.specs.FieldsFromIdentity.{from_identity};
ghost use Rattle.memory.specs.Performing.{Performs, going, ended};
ghost use Rattle.memory.specs.Memo.{memo_program, op_limit};
ghost use Rattle.relations.specs.Fields.{field_node, KnowsIdentity};

use crate::{get, mk};
use memory::memo;
use memory::property_words::{known_word, properties_in};

// What an operation does with the field that it names: it tests or assigns this value.
#[derive(Clone, Copy)]
enum Naming {
    Test(bool),
    Assign(bool),
}

// The number by which the memo knows the operation, and its second operand there.
fn memo_key(naming: Naming) -> (u32, u32)
    ensures { (result.0 < op_limit)
        × ((k var : ℕ) → each_field (field_node naming) var k 1 0 ≡ memo_program result.0 k var result.1) }
{
    match naming {
        Naming::Test(value) => (memo::TEST, u32::from(value)),
        Naming::Assign(value) => (memo::ASSIGN, u32::from(value)),
    }
}

// The node of field i: at field var that of `assign` or `test`, elsewhere the identity's.
fn field(
    nodes: &mut [u32],
    work: &mut [u32],
    n: &mut usize,
    i: u8,
    var: u8,
    naming: Naming,
    res: u32,
    zero: u32,
) -> Option<u32>
    ensures { Performs rel (Prog.mk rel (pick (eqb i var) (field_node naming res zero) (res ∷ zero ∷ zero ∷ res ∷ [])))
        (going n.old) nodes.old nodes.new work.old work.new (ended n.new result) }
{
    if i != var {
        return mk(nodes, work, n, res, zero, zero, res);
    }
    match naming {
        Naming::Test(true) => mk(nodes, work, n, zero, zero, zero, res),
        Naming::Test(false) => mk(nodes, work, n, res, zero, zero, zero),
        Naming::Assign(true) => mk(nodes, work, n, zero, res, zero, res),
        Naming::Assign(false) => mk(nodes, work, n, res, zero, res, zero),
    }
}

// The nodes of the first `left` fields, from the last up; res and zero are those of the fields after.
fn fields(
    nodes: &mut [u32],
    work: &mut [u32],
    n: &mut usize,
    left: u8,
    var: u8,
    naming: Naming,
    res: u32,
    zero: u32,
) -> Option<u32>
    ensures { Performs rel (each_field (field_node naming) var left res zero) (going n.old)
        nodes.old nodes.new work.old work.new (ended n.new result) }
{
    if left == 0 {
        return Some(res);
    }
    let i = left - 1;
    let r = field(nodes, work, n, i, var, naming, res, zero)?;
    let z = mk(nodes, work, n, zero, zero, zero, zero)?;
    fields(nodes, work, n, i, var, naming, r, z)
}

// The identity of level k, where words say that it and the empty relation of level k are held; `new` puts them at 2k + 1 and k + 1.
fn held_identity(work: &[u32], n: usize, k: u8) -> Option<u32>
    ensures { KnowsIdentity work.now n k result }
{
    let l = u32::from(k);
    let one = 2 * l + 1;
    let p = properties_in(known_word(work, 4, one));
    let zero = l + 1;
    let q = properties_in(known_word(work, 4, zero));
    if n >= (2 * l) as usize && p.identity && p.level == l && q.empty && q.level == l {
        return Some(one);
    }
    None
}

// The nodes from field var up, from the identity of all fields, whose nodes have the identity and the empty relation of those after each.
fn from_identity(
    nodes: &mut [u32],
    work: &mut [u32],
    n: &mut usize,
    one: u32,
    var: u8,
    naming: Naming,
) -> Option<u32>
    ensures { Performs rel (from_identity (field_node naming) var one) (going n.old)
        nodes.old nodes.new work.old work.new (ended n.new result) }
{
    let p = get(nodes, one);
    if var == 0 {
        return field(nodes, work, n, 0, 0, naming, p.x00, p.x01);
    }
    let r = from_identity(nodes, work, n, p.x00, var - 1, naming)?;
    mk(nodes, work, n, r, p.x01, p.x01, r)
}

// `assign` or `test` of field var among k fields, from its nodes: those of the identity where it is held, else field by field.
fn made(
    nodes: &mut [u32],
    work: &mut [u32],
    n: &mut usize,
    k: u8,
    var: u8,
    naming: Naming,
) -> Option<u32>
    ensures { Performs rel (each_field (field_node naming) var k 1 0) (going n.old)
        nodes.old nodes.new work.old work.new (ended n.new result) }
{
    if var < k {
        if let Some(one) = held_identity(work, *n, k) {
            return from_identity(nodes, work, n, one, var, naming);
        }
    }
    fields(nodes, work, n, k, var, naming, 1, 0)
}

// The same, from the memo or kept there.
fn kept(
    nodes: &mut [u32],
    work: &mut [u32],
    n: &mut usize,
    k: u8,
    var: u8,
    naming: Naming,
) -> Option<u32>
    ensures { Performs rel (each_field (field_node naming) var k 1 0) (going n.old)
        nodes.old nodes.new work.old work.new (ended n.new result) }
{
    let (op, b) = memo_key(naming);
    let v = u32::from(var);
    if let Some(h) = memo::recall(work, op, k, v, b) {
        return Some(h);
    }
    let h = made(nodes, work, n, k, var, naming)?;
    memo::keep(work, op, k, v, b, h);
    Some(h)
}

// The packets of k fields whose field var has the value, each to itself.
pub fn test(
    nodes: &mut [u32],
    work: &mut [u32],
    n: &mut usize,
    k: u8,
    var: u8,
    value: bool,
) -> Option<u32>
    ensures { Performs rel (test rel k var value) (going n.old) nodes.old nodes.new work.old work.new (ended n.new result) }
{
    kept(nodes, work, n, k, var, Naming::Test(value))
}

// Each packet of k fields to that with the value in field var.
pub fn assign(
    nodes: &mut [u32],
    work: &mut [u32],
    n: &mut usize,
    k: u8,
    var: u8,
    value: bool,
) -> Option<u32>
    ensures { Performs rel (assign k var value) (going n.old) nodes.old nodes.new work.old work.new (ended n.new result) }
{
    kept(nodes, work, n, k, var, Naming::Assign(value))
}
