// Whether two lent memories are a store, by document 01's rules, node after node, each entering index and property words.
#![tactic(auto)]

ghost use Rattle.std.specs.Prelude.{◌≡◌, Bool, true, false, List, ℕ, ◌+◌, ◌*◌, ◌%◌, ◌<◌, ◌≤◌, length, get_or};
ghost use Rattle.memory.specs.Rows.{most_places};
ghost use Rattle.model.specs.Store.{Kind, arity, handle_of};
ghost use Rattle.model.specs.WellFormed.{Even};
ghost use Rattle.store_check.specs.Memory.{memories};
ghost use Rattle.store_check.specs.StoreChecking.{Tests, Earlier, LevelWalked, NodeLevel, FitsNext, NodesChecked, BothChecked, StoreChecked};

use crate::head::*;
use crate::room::heads_fit;
use memory::property_words::{gather, level, properties_in, write};
use memory::{clear, index};

pub mod commit;
pub mod head;
pub mod reindex;
mod room;

// The handle of the node at place i; a child has a lower one.
fn handle_at(c: usize, i: usize) -> usize
    requires { i < most_places }
    ensures { (K : Kind) → c ≡ arity K → result ≡ handle_of K 0 i }
{
    if c == 2 { 2 * (i + 1) } else { i + 2 }
}

// Whether each child of node i is held earlier.
fn children_earlier(nodes: &[u32], c: usize, i: usize) -> bool
    requires { (0 < c) × (c * i + c ≤ length nodes.now) × (i < most_places) }
    ensures { (K : Kind) → c ≡ arity K → Tests result (Earlier K nodes.now i) }
{
    let s = c * i;
    let most = handle_at(c, i);
    nodes[s..s + c].iter().all(|x| (*x as usize) < most)
}

// The level of node i, one above its children's, by walking down from each, where they share one below k.
fn level_walked(nodes: &[u32], c: usize, k: u32, i: usize) -> Option<u32>
    requires { (0 < c) × (c * i + c ≤ length nodes.now) × (i < most_places) }
    ensures { LevelWalked nodes.now c k i result }
{
    let s = c * i;
    let l = level(nodes, c, k, nodes[s]);
    if l >= k {
        return None;
    }
    for x in &nodes[s..s + c] {
        if level(nodes, c, k, *x) != l {
            return None;
        }
    }
    Some(l + 1)
}

// The same, read in the node's word where that says something: 0, a number of lent memory, says nothing.
fn node_level(nodes: &[u32], c: usize, k: u32, i: usize, word: u32) -> Option<u32>
    requires { (0 < c) × (c * i + c ≤ length nodes.now) × (i < most_places) }
    ensures { NodeLevel nodes.now c k i word result }
{
    if word != 0 {
        return Some(properties_in(word).level);
    }
    level_walked(nodes, c, k, i)
}

// Whether a node with this first child may have it: a set's is even.
fn first_even(c: usize, x0: u32) -> bool
    ensures { (K : Kind) (x : List ℕ) → c ≡ arity K → get_or x 0 0 ≡ x0 → Tests result (Even K x) }
{
    c != 2 || x0 % 2 == 0
}

// Whether node i, of this property word, may follow those before it.
fn node_fits(nodes: &[u32], work: &[u32], c: usize, k: u32, i: usize, word: u32) -> bool
    requires { (0 < c) × (c * i + c ≤ length nodes.now) × (i < most_places) }
    ensures { FitsNext nodes.now work.now c k i word result }
{
    let s = c * i;
    if !children_earlier(nodes, c, i) {
        return false;
    }
    let Some(l) = node_level(nodes, c, k, i, word) else {
        return false;
    };
    let above = l > k;
    if l == 0 || above {
        return false;
    }
    if !first_even(c, nodes[s]) {
        return false;
    }
    index::find(nodes, work, i, &nodes[s..s + c]).is_none()
}

// Whether all n nodes keep the rules.
fn nodes_fit(nodes: &[u32], work: &mut [u32], c: usize, k: u32, n: usize) -> bool
    requires { (0 < c) × (c * n ≤ length nodes.now) × (n ≤ most_places) }
    ensures { NodesChecked c n k nodes.now work.old work.new result }
{
    for i in 0..n {
        let s = c * i;
        let word = gather(work, &nodes[s..s + c]);
        if !node_fits(nodes, work, c, k, i, word) {
            return false;
        }
        write(work, c, i, word);
        index::enter(nodes, work, c, i);
    }
    true
}

// Whether the nodes of both kinds keep the rules; the index is then of the second kind's.
fn both_fit(
    first: &[u32],
    second: &[u32],
    work: &mut [u32],
    c1: usize,
    n1: usize,
    c2: usize,
    n2: usize,
    k: u32,
) -> bool
    requires { (0 < c1) × (c1 * n1 ≤ length first.now) × (n1 ≤ most_places) × (0 < c2) × (c2 * n2 ≤ length second.now) × (n2 ≤ most_places) }
    ensures { BothChecked c1 n1 c2 n2 k first.now second.now work.old work.new result }
{
    if !nodes_fit(first, work, c1, k, n1) {
        return false;
    }
    index::empty(work);
    nodes_fit(second, work, c2, k, n2)
}

// Whether both memories are a store; the index is then of the sets' nodes where `last` is true, else of the relations' (a flag, since its clause may not
// change).
pub fn is_store(relations: &[u32], sets: &[u32], work: &mut [u32], last: bool) -> bool
    ensures { StoreChecked (memories relations.now sets.now) last work.old work.new result }
{
    clear(work);
    if !heads_fit(relations, sets) {
        return false;
    }
    let n = relations[RELATION_COUNT] as usize;
    let m = sets[SET_COUNT] as usize;
    if last {
        both_fit(
            &relations[RELATION_HEAD..],
            &sets[SET_HEAD..],
            work,
            4,
            n,
            2,
            m,
            relations[FIELDS],
        )
    } else {
        both_fit(
            &sets[SET_HEAD..],
            &relations[RELATION_HEAD..],
            work,
            2,
            m,
            4,
            n,
            relations[FIELDS],
        )
    }
}
