// The operations of sp.rs that name a field: `ifelse` and `test`.
ghost use Rattle.std.specs.Prelude.{◌≡◌, ◌-◌};
ghost use Rattle.model.specs.Store.{set};
ghost use Rattle.model.specs.Operations.{raise, test};
ghost use Rattle.model.specs.Sets.{ifelse};
ghost use Rattle.memory.specs.Performing.{going, ended, Performs};

use memory::memo;
use memory::property_words::other;

// The first set where field var is 1, else the second; both of this level, which is above the field.
pub fn ifelse(
    nodes: &mut [u32],
    work: &mut [u32],
    n: &mut usize,
    level: u8,
    var: u8,
    then_branch: u32,
    else_branch: u32,
) -> Option<u32>
    ensures { Performs set (ifelse level var then_branch else_branch) (going n.old)
        nodes.old nodes.new work.old work.new (ended n.new result) }
{
    if level == 0 {
        return None;
    }
    let op = memo::IFELSE + var as u32;
    if let Some(h) = memo::recall(work, op, level, then_branch, else_branch) {
        return Some(h);
    }
    let t = crate::get(nodes, then_branch);
    let e = crate::get(nodes, else_branch);
    if var == 0 {
        let r = crate::mk(nodes, work, n, e.x0, t.x1)?;
        memo::keep(work, op, level, then_branch, else_branch, r);
        return Some(r);
    }
    let r0 = ifelse(nodes, work, n, level - 1, var - 1, t.x0, e.x0)?;
    let r1 = ifelse(nodes, work, n, level - 1, var - 1, t.x1, e.x1)?;
    let r = crate::mk(nodes, work, n, r0, r1)?;
    memo::keep(work, op, level, then_branch, else_branch, r);
    Some(r)
}

// The set h with this many more fields before its own.
fn raise(nodes: &mut [u32], work: &mut [u32], n: &mut usize, h: u32, fields: u8) -> Option<u32>
    ensures { Performs set (raise fields h) (going n.old) nodes.old nodes.new work.old work.new (ended n.new result) }
{
    if fields == 0 {
        return Some(h);
    }
    let t = crate::mk(nodes, work, n, h, h)?;
    raise(nodes, work, n, t, fields - 1)
}

// How many fields of k are after field var.
fn fields_after(k: u8, var: u8) -> u8
    ensures { result ≡ k - var - 1 }
{
    if var < k { k - var - 1 } else { 0 }
}

// The packets of k fields whose field var has the value.
pub fn test(
    nodes: &mut [u32],
    work: &mut [u32],
    n: &mut usize,
    k: u8,
    var: u8,
    value: bool,
) -> Option<u32>
    ensures { Performs set (test set k var value) (going n.old) nodes.old nodes.new work.old work.new (ended n.new result) }
{
    let z = crate::zero_at_depth(nodes, work, n, fields_after(k, var))?;
    let m = crate::mk(nodes, work, n, z, other(z))?;
    let r = raise(nodes, work, n, m, var)?;
    Some(if value { r } else { other(r) })
}
