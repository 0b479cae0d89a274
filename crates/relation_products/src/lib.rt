// Products of relations, after spp.rs: `sequence`, `star`, `naive_forward` and `backward`. Each runs its program of `model` for every working memory.
#![tactic(auto)]

ghost use Rattle.std.specs.Prelude.{◌≡◌, List, [], ◌∷◌, ℕ};
ghost use Rattle.model.specs.Store.{rel};
ghost use Rattle.model.specs.Recursion.{node1, node2, each2};
ghost use Rattle.model.specs.Operations.{identity_at_depth, union};
ghost use Rattle.model.specs.Relations.{sequence, sequence_op, star, star_op, naive_forward, backward};
ghost use Rattle.memory.specs.Performing.{Performs, LooksUp, going, ended};
ghost use Rattle.relations.specs.Shortcuts.{TakesShortcut};
ghost use Rattle.relation_products.specs.Products.{star_node};

use memory::property_words::relation_properties;
use memory::{Lookup, memo};
use relations::shortcuts::lifted;
use relations::{SPPnode, Shortcut, get, mk, one_at_depth, top_at_depth, union};

// What the properties of two relations, or the memo, know of their product.
fn sequence_tests(nodes: &[u32], work: &[u32], level: u8, a: u32, b: u32) -> Lookup
    ensures { LooksUp rel (sequence level a b) (node2 sequence_op level) nodes.now work.now result }
{
    let pa = relation_properties(nodes, work, level, a);
    if pa.empty {
        return Lookup::Answer(a);
    }
    let pb = relation_properties(nodes, work, level, b);
    if pb.identity {
        return Lookup::Answer(a);
    }
    if pb.empty {
        return Lookup::Answer(b);
    }
    if pa.identity {
        return Lookup::Answer(b);
    }
    memo::look_up(work, memo::SEQUENCE, level, a, b)
}

// The node whose children are the unions of those of p with those of q.
fn sums(
    nodes: &mut [u32],
    work: &mut [u32],
    n: &mut usize,
    level: u8,
    p: SPPnode,
    q: SPPnode,
) -> Option<u32>
    ensures { Performs rel (each2 rel (union rel level) (p.x00 ∷ p.x01 ∷ p.x10 ∷ p.x11 ∷ []) (q.x00 ∷ q.x01 ∷ q.x10 ∷ q.x11 ∷ []))
        (going n.old) nodes.old nodes.new work.old work.new (ended n.new result) }
{
    let x00 = union(nodes, work, n, level, p.x00, q.x00)?;
    let x01 = union(nodes, work, n, level, p.x01, q.x01)?;
    let x10 = union(nodes, work, n, level, p.x10, q.x10)?;
    let x11 = union(nodes, work, n, level, p.x11, q.x11)?;
    mk(nodes, work, n, x00, x01, x10, x11)
}

// The product of two nodes: eight products of children, and their sums.
#[cycle(matrix_sequence_sequence_node)]
fn matrix(
    nodes: &mut [u32],
    work: &mut [u32],
    n: &mut usize,
    level: u8,
    p: SPPnode,
    q: SPPnode,
) -> Option<u32>
    ensures { Performs rel (sequence_op.kids level (sequence level) (p.x00 ∷ p.x01 ∷ p.x10 ∷ p.x11 ∷ []) (q.x00 ∷ q.x01 ∷ q.x10 ∷ q.x11 ∷ []))
        (going n.old) nodes.old nodes.new work.old work.new (ended n.new result) }
{
    let a00b00 = sequence(nodes, work, n, level, p.x00, q.x00)?;
    let a01b10 = sequence(nodes, work, n, level, p.x01, q.x10)?;
    let a00b01 = sequence(nodes, work, n, level, p.x00, q.x01)?;
    let a01b11 = sequence(nodes, work, n, level, p.x01, q.x11)?;
    let a10b00 = sequence(nodes, work, n, level, p.x10, q.x00)?;
    let a11b10 = sequence(nodes, work, n, level, p.x11, q.x10)?;
    let a10b01 = sequence(nodes, work, n, level, p.x10, q.x01)?;
    let a11b11 = sequence(nodes, work, n, level, p.x11, q.x11)?;
    let left = SPPnode {
        x00: a00b00,
        x01: a00b01,
        x10: a10b00,
        x11: a10b01,
    };
    let right = SPPnode {
        x00: a01b10,
        x01: a01b11,
        x10: a11b10,
        x11: a11b11,
    };
    sums(nodes, work, n, level, left, right)
}

// The product of two relations where no shortcut answers. With the empty relation off the diagonal of the second, four products of children are left; and one,
// where the first has it there too and each node has one child on the diagonal.
#[cycle(matrix_sequence_sequence_node)]
fn sequence_node(
    nodes: &mut [u32],
    work: &mut [u32],
    n: &mut usize,
    level: u8,
    x: u32,
    y: u32,
) -> Option<u32>
    ensures { Performs rel (node2 sequence_op level x y) (going n.old) nodes.old nodes.new work.old work.new (ended n.new result) }
{
    if level == 0 {
        return None;
    }
    let p = get(nodes, x);
    let q = get(nodes, y);
    let below = level - 1;
    if q.x01 != q.x10 || !relation_properties(nodes, work, below, q.x01).empty {
        return matrix(nodes, work, n, below, p, q);
    }
    if lifted(p, q) {
        let r = sequence(nodes, work, n, below, p.x00, q.x00)?;
        return mk(nodes, work, n, r, q.x01, q.x01, r);
    }
    let r00 = sequence(nodes, work, n, below, p.x00, q.x00)?;
    let r01 = sequence(nodes, work, n, below, p.x01, q.x11)?;
    let r10 = sequence(nodes, work, n, below, p.x10, q.x00)?;
    let r11 = sequence(nodes, work, n, below, p.x11, q.x11)?;
    mk(nodes, work, n, r00, r01, r10, r11)
}

#[cycle(matrix_sequence_sequence_node)]
pub fn sequence(
    nodes: &mut [u32],
    work: &mut [u32],
    n: &mut usize,
    level: u8,
    a: u32,
    b: u32,
) -> Option<u32>
    ensures { Performs rel (sequence level a b) (going n.old) nodes.old nodes.new work.old work.new (ended n.new result) }
{
    match sequence_tests(nodes, work, level, a, b) {
        Lookup::Answer(h) => Some(h),
        Lookup::Operands(x, y) => {
            let h = sequence_node(nodes, work, n, level, x, y)?;
            memo::keep(work, memo::SEQUENCE, level, x, y, h);
            Some(h)
        }
    }
}

// What the properties of a relation, or the memo, know of its star; the other operation is `one_at_depth`.
fn star_tests(nodes: &[u32], work: &[u32], level: u8, x: u32) -> Shortcut
    ensures { TakesShortcut (star level x) (λ y. identity_at_depth level) (λ y z. node1 star_op level y)
        nodes.now work.now result }
{
    let p = relation_properties(nodes, work, level, x);
    if p.empty {
        return Shortcut::Delegate(x);
    }
    if p.identity || p.universal {
        return Shortcut::Answer(x);
    }
    Shortcut::from(memo::look_up(work, memo::STAR, level, x, 0))
}

// The node of a star, when the star of a + b d* c is known.
fn star_node(
    nodes: &mut [u32],
    work: &mut [u32],
    n: &mut usize,
    level: u8,
    res_a: u32,
    bd_star: u32,
    c: u32,
    d_star: u32,
) -> Option<u32>
    ensures { Performs rel (star_node level res_a bd_star c d_star) (going n.old) nodes.old nodes.new work.old work.new (ended n.new result) }
{
    let res_b = sequence(nodes, work, n, level, res_a, bd_star)?;
    let c_res_a = sequence(nodes, work, n, level, c, res_a)?;
    let res_c = sequence(nodes, work, n, level, d_star, c_res_a)?;
    let res_c_bd_star = sequence(nodes, work, n, level, res_c, bd_star)?;
    let res_d = union(nodes, work, n, level, d_star, res_c_bd_star)?;
    mk(nodes, work, n, res_a, res_b, res_c, res_d)
}

pub fn star(nodes: &mut [u32], work: &mut [u32], n: &mut usize, level: u8, x: u32) -> Option<u32>
    ensures { Performs rel (star level x) (going n.old) nodes.old nodes.new work.old work.new (ended n.new result) }
{
    match star_tests(nodes, work, level, x) {
        Shortcut::Answer(h) => Some(h),
        Shortcut::Delegate(_) => one_at_depth(nodes, work, n, level),
        Shortcut::Recurse(y, z) => {
            if level == 0 {
                return None;
            }
            let p = get(nodes, y);
            let below = level - 1;
            let d_star = star(nodes, work, n, below, p.x11)?;
            let bd_star = sequence(nodes, work, n, below, p.x01, d_star)?;
            let bd_star_c = sequence(nodes, work, n, below, bd_star, p.x10)?;
            let a_plus_bdc = union(nodes, work, n, below, p.x00, bd_star_c)?;
            let res_a = star(nodes, work, n, below, a_plus_bdc)?;
            let h = star_node(nodes, work, n, below, res_a, bd_star, p.x10, d_star)?;
            memo::keep(work, memo::STAR, level, y, z, h);
            Some(h)
        }
    }
}

// The relation of every packet to the outputs of a.
pub fn naive_forward(
    nodes: &mut [u32],
    work: &mut [u32],
    n: &mut usize,
    level: u8,
    a: u32,
) -> Option<u32>
    ensures { Performs rel (naive_forward level a) (going n.old) nodes.old nodes.new work.old work.new (ended n.new result) }
{
    let top = top_at_depth(nodes, work, n, level)?;
    sequence(nodes, work, n, level, top, a)
}

// The relation of the inputs of a to every packet.
pub fn backward(
    nodes: &mut [u32],
    work: &mut [u32],
    n: &mut usize,
    level: u8,
    a: u32,
) -> Option<u32>
    ensures { Performs rel (backward level a) (going n.old) nodes.old nodes.new work.old work.new (ended n.new result) }
{
    let top = top_at_depth(nodes, work, n, level)?;
    sequence(nodes, work, n, level, a, top)
}
