// The nodes that a call added: those that the memories hold after it, less those that they held before.
ghost use Rattle.std.specs.Prelude.{◌≡◌, get_or};
ghost use Rattle.store_check.specs.Memory.{memories};
ghost use Rattle.call_rules.specs.Added.{held_in, less};

use store_check::head::*;

// A number of relation nodes, and one of set nodes.
#[derive(Clone, Copy)]
pub struct NodeCounts {
    pub relations: u32,
    pub sets: u32,
}

// The number at a place of a memory, 0 beyond its end: a memory without a head holds nothing.
fn number_at(memory: &[u32], i: usize) -> u32
    ensures { result ≡ get_or memory.now i 0 }
{
    memory.get(i).copied().unwrap_or(0)
}

// The nodes that two memories hold.
pub fn held(relations: &[u32], sets: &[u32]) -> NodeCounts
    ensures { result ≡ held_in (memories relations.now sets.now) }
{
    NodeCounts {
        relations: number_at(relations, RELATION_COUNT),
        sets: number_at(sets, SET_COUNT),
    }
}

// The nodes held after a call, less those held before it.
pub fn since(before: NodeCounts, after: NodeCounts) -> NodeCounts
    ensures { result ≡ less after before }
{
    NodeCounts {
        relations: after.relations.saturating_sub(before.relations),
        sets: after.sets.saturating_sub(before.sets),
    }
}
