// Ranks: of a packet by its number, of the first packet of a set, and of the first from a rank on.
ghost use Rattle.std.specs.Prelude.{◌≡◌, Some, ℕ, ◌+◌, ◌^◌, ◌≤◌, min};
ghost use Rattle.model.specs.Store.{set};
ghost use Rattle.model.specs.Packets.{packet};
ghost use Rattle.model.specs.FieldOrder.{rank};
ghost use Rattle.model.specs.FirstInputs.{first_member};
ghost use Rattle.memory.specs.Performing.{going, ended, Performs};
ghost use Rattle.first_paths.specs.FromRanks.{FindsFrom};

use memory::power;
use memory::property_words::set_properties;

// The rank that stands for no packet of this level, as in the programs of `model`: it is above every rank, so that the lesser of two needs no case for none.
pub fn none_at(level: u8) -> u32
    requires { level ≤ 31 }
    ensures { result ≡ 2 ^ level }
{
    power(level) as u32
}

// The rank of the packet with the number n, whose bits it has in the other order; so it is also the number of the packet of rank n.
pub fn reversed(level: u8, n: u32) -> u32
    requires { level ≤ 32 }
    ensures { result ≡ rank (packet level n) }
{
    let mut r = 0;
    let mut rest = n;
    for _ in 0..level {
        r = 2 * r + rest % 2;
        rest /= 2;
    }
    r
}

// The rank of the packet with 1 before the fields of the one of rank n, of this level.
pub fn in_second_half(n: u32, level: u8) -> u32
    requires { level ≤ 30 }
    ensures { result ≡ 2 ^ level + min n (2 ^ level) }
{
    let half = none_at(level);
    half + n.min(half)
}

// The rank of the first packet of a set. Of level 0, one that is not empty has the packet of rank 0.
pub fn first_member(sets: &[u32], work: &[u32], level: u8, p: u32) -> u32
    requires { level ≤ 31 }
    ensures { (n : ℕ) → Performs set (first_member level p) (going n) sets.now sets.now work.now work.now (ended n (Some result)) }
{
    let pp = set_properties(sets, work, level, p);
    if pp.empty {
        return none_at(level);
    }
    if pp.universal || level == 0 {
        return 0;
    }
    let x = sets::get(sets, p);
    let below = level - 1;
    let r0 = first_member(sets, work, below, x.x0);
    if r0 < none_at(below) {
        return r0;
    }
    let r1 = first_member(sets, work, below, x.x1);
    in_second_half(r1, below)
}

// The rank of the first packet of a set from the rank `from` on; 2^level, as `none_at` has it, where there is none. It goes down along `from`, and where the
// half that has `from` has none left, to the first packet of the other. An empty set ends at once, so that it calls itself at most four times a level.
pub fn first_from(sets: &[u32], work: &[u32], level: u8, p: u32, from: u64) -> u64
    requires { level ≤ 32 }
    ensures small { result ≤ 2 ^ level }
    ensures first { FindsFrom level p from sets.now work.now result }
{
    let pp = set_properties(sets, work, level, p);
    if pp.empty {
        return power(level);
    }
    if level == 0 {
        return from.min(1);
    }
    let x = sets::get(sets, p);
    let below = level - 1;
    let half = power(below);
    if from >= half {
        return half + first_from(sets, work, below, x.x1, from - half);
    }
    let r0 = first_from(sets, work, below, x.x0, from);
    if r0 < half {
        return r0;
    }
    half + first_from(sets, work, below, x.x1, 0)
}
