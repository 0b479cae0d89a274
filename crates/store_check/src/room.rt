// Whether a memory has its head, as many places as its count says, and zeros past the count.
ghost use Rattle.std.specs.Prelude.{◌≡◌, ℕ, ◌+◌, ◌-◌, ◌<◌, ◌≤◌, length, get_or, eqb};
ghost use Rattle.model.specs.Store.{Kind, arity};
ghost use Rattle.model.specs.Programs.{all_below};
ghost use Rattle.store_check.specs.Memory.{head, count_at, memories};
ghost use Rattle.store_check.specs.StoreChecking.{Tests, HeadsFit};
ghost use Rattle.store_check.specs.Valid.{has_room};

use crate::head::*;
use memory::places_of;

// Whether the numbers from s to before e are zero: all are looked at, so that the compiler takes several at a time.
fn zeros(m: &[u32], s: usize, e: usize) -> bool
    requires { (s ≤ e) × (e ≤ length m.now) }
    ensures { result ≡ all_below (e - s) (λ j. eqb (get_or m.now (s + j) 0) 0) }
{
    m[s..e].iter().fold(0, |bits, x| bits | x) == 0
}

// Whether a memory whose nodes of c numbers begin at `start` has room for as many as its count says, which is at `at`.
fn has_room(m: &[u32], at: usize, start: usize, c: usize) -> bool
    requires { (at < start) × (0 < c) }
    ensures { (K : Kind) → at ≡ count_at K → start ≡ head K → c ≡ arity K → result ≡ has_room K m.now }
{
    if m.len() < start {
        return false;
    }
    let p = places_of(m.len() - start, c);
    let n = m[at] as usize;
    n <= p && zeros(m, start + c * n, start + c * p)
}

// Whether both memories have room for what they say, and at most 32 fields.
pub(crate) fn heads_fit(relations: &[u32], sets: &[u32]) -> bool
    ensures { Tests result (HeadsFit (memories relations.now sets.now)) }
{
    has_room(relations, RELATION_COUNT, RELATION_HEAD, 4)
        && has_room(sets, SET_COUNT, SET_HEAD, 2)
        && relations[FIELDS] <= 32
}
