// A new store in two lent memories.
#![tactic(auto)]

ghost use Rattle.std.specs.Prelude.{◌≡◌, ◌+◌, ◌*◌, ◌<◌, ◌≤◌, length};
ghost use Rattle.model.specs.Store.{set, rel};
ghost use Rattle.model.specs.NewNodes.{levels, level_handle, level_node, new_sets, new_relations};
ghost use Rattle.store_check.specs.Memory.{memories, head_of, write};
ghost use Rattle.call_rules.specs.Added.{held_in, new_counted};
ghost use Rattle.call_rules.specs.Promise.{Meets};
ghost use Rattle.call_rules.specs.OnMemories.{new_step};
ghost use Rattle.new_store.specs.Creating.{NewChecked, freed, NewFits, NodesWritten};

use call_rules::added::{NodeCounts, held};
use call_rules::{Answer, Refusal, Reply};
use memory::{clear, places_of};
use store_check::head::*;

// Whether a store of k fields fits into memories of these lengths: 3k relation nodes and k set nodes.
fn check(relations: usize, sets: usize, k: u32) -> Result<u32, Refusal>
    ensures { NewChecked relations sets k result }
{
    if k > 32 {
        return Err(Refusal::OutOfRange);
    }
    if relations < RELATION_HEAD || sets < SET_HEAD {
        return Err(Refusal::NotStore);
    }
    let n = k as usize;
    if 3 * n > places_of(relations - RELATION_HEAD, 4) || n > places_of(sets - SET_HEAD, 2) {
        return Err(Refusal::UsedUp);
    }
    Ok(k)
}

// All places free: nodes of c numbers begin at `start`.
fn begin(memory: &mut [u32], start: usize, c: usize)
    requires { (0 < c) × (start ≤ length memory.old) }
    ensures { memory.new ≡ freed start c memory.old }
{
    let e = start + c * places_of(memory.len() - start, c);
    clear(&mut memory[start..e]);
}

// The empty sets of all levels up to k, a node each: both children are the one below.
fn set_nodes(nodes: &mut [u32], k: u32)
    requires { (k ≤ 32) × (2 * k ≤ length nodes.old) }
    ensures { NodesWritten 2 0 k (new_sets k) nodes.old nodes.new }
{
    for i in 0..k {
        let s = 2 * i as usize;
        let h = 2 * i;
        nodes[s..s + 2].copy_from_slice(&[h, h]);
    }
}

// A node for each level up to k from place p on; the handle of the last. Where the field keeps its bit, a node has the one below it
// among these, at level 0 c; where it changes, the one below among those from place q on, at level 0 d.
fn level_nodes(nodes: &mut [u32], k: u32, p: u32, c: u32, q: u32, d: u32) -> u32
    requires { (k ≤ 32) × (p ≤ 64) × (q ≤ 64) × (4 * (p + k) ≤ length nodes.old) }
    ensures { NodesWritten 4 p (p + k) (levels (level_node p c q d) k) nodes.old nodes.new
        × (result ≡ level_handle rel p c k) }
{
    let mut same = c;
    let mut other = d;
    for i in 0..k {
        let s = 4 * (p + i) as usize;
        nodes[s..s + 4].copy_from_slice(&[same, other, other, same]);
        same = p + i + 2;
        other = q + i + 2;
    }
    same
}

// The empty relations, the identities and the full relations of all levels up to k, in turn; the handle of the last.
fn relation_nodes(nodes: &mut [u32], k: u32) -> u32
    requires { (k ≤ 32) × (4 * (3 * k) ≤ length nodes.old) }
    ensures { NodesWritten 4 0 (3 * k) (new_relations k) nodes.old nodes.new
        × (result ≡ level_handle rel (2 * k) 1 k) }
{
    level_nodes(nodes, k, 0, 0, 0, 0);
    level_nodes(nodes, k, k, 1, 0, 0);
    level_nodes(nodes, k, 2 * k, 1, 2 * k, 1)
}

// The set memory of a new store of k fields.
fn write_sets(sets: &mut [u32], k: u32)
    requires { NewFits set k k (length sets.old) }
    ensures { sets.new ≡ write set (head_of set k k) (new_sets k) sets.old }
{
    begin(sets, SET_HEAD, 2);
    set_nodes(&mut sets[SET_HEAD..], k);
    sets[SET_COUNT] = k;
}

// The relation memory of a new store of k fields; the handle of the full relation, made last.
fn write_relations(relations: &mut [u32], k: u32) -> u32
    requires { NewFits rel k (3 * k) (length relations.old) }
    ensures { (relations.new ≡ write rel (head_of rel k (3 * k)) (new_relations k) relations.old)
        × (result ≡ level_handle rel (2 * k) 1 k) }
{
    begin(relations, RELATION_HEAD, 4);
    let h = relation_nodes(&mut relations[RELATION_HEAD..], k);
    relations[FIELDS] = k;
    relations[RELATION_COUNT] = 3 * k;
    h
}

// `SPPstore::new(k)`: the handle of the full relation, and the nodes that the new store holds.
pub fn new(
    relations: &mut [u32],
    sets: &mut [u32],
    work: &mut [u32],
    k: u32,
) -> Reply<Result<Answer, Refusal>>
    ensures { Meets (new_counted held_in (new_step k (memories relations.old sets.old)))
        (memories relations.new sets.new) work.old work.new (result.answer, result.added) }
{
    clear(work);
    match check(relations.len(), sets.len(), k) {
        Err(r) => Reply {
            answer: Err(r),
            added: NodeCounts {
                relations: 0,
                sets: 0,
            },
        },
        Ok(l) => {
            write_sets(sets, l);
            let top = write_relations(relations, l);
            Reply {
                answer: Ok(Answer::Handle(top)),
                added: held(relations, sets),
            }
        }
    }
}
