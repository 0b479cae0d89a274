// The public policy call: a NetKAT text read and built on two lent memories.
#![tactic(auto)]

ghost use Rattle.std.specs.Prelude.{◌≡◌, true, Ok};
ghost use Rattle.model.specs.Store.{rel};
ghost use Rattle.store_check.specs.Memory.{memories, fields};
ghost use Rattle.call_rules.specs.Checking.{CheckedStore};
ghost use Rattle.call_rules.specs.Outcome.{outcome};
ghost use Rattle.call_rules.specs.Promise.{Replies};
ghost use Rattle.policy_text.specs.XForms.{x_forms};
ghost use Rattle.policy_text.specs.Reading.{reading};
ghost use Rattle.policies.specs.declared.PolicyRefusal.TheVariants.{At, Store};
ghost use Rattle.policies.specs.Outcome.{refused, policy_step, is_short};
ghost use Rattle.policies.specs.Declining.{policy_no_store};

use call_rules::calls::{self, AddsRelations};
use call_rules::{Refusal, Reply};
use policy_build::build;
pub use policy_text::{Fault, Misread};
use store_check::commit::commit;
use store_check::head::*;

// The most bytes of a text.
const MOST_BYTES: usize = 4096;

// Why a policy is declined: what is wrong at a place in the text, or the store's own refusal.
#[derive(Clone, Copy, Debug, PartialEq, Eq)]
pub enum PolicyRefusal {
    At(Misread),
    Store(Refusal),
}

impl From<Misread> for PolicyRefusal {
    ghost from_gives = { λ m r. r ≡ At m };

    fn from(misread: Misread) -> PolicyRefusal {
        PolicyRefusal::At(misread)
    }
}

impl From<Refusal> for PolicyRefusal {
    ghost from_gives = { λ q r. r ≡ Store q };

    fn from(refusal: Refusal) -> PolicyRefusal {
        PolicyRefusal::Store(refusal)
    }
}

// A text within the rules: it is built, and its nodes are kept where they fit.
fn built(
    relations: &mut [u32],
    sets: &[u32],
    work: &mut [u32],
    text: &[u8],
) -> Result<u32, PolicyRefusal>
    requires { CheckedStore rel (memories relations.old sets.now) work.old
        × (is_short text.now ≡ true) × (reading x_forms (fields (memories relations.old sets.now)) text.now ≡ Ok tt) }
    ensures { outcome result (memories relations.new sets.now)
        ≡ policy_step text.now (memories relations.old sets.now) }
{
    let k = relations[FIELDS];
    let n = relations[RELATION_COUNT] as usize;
    let mut end = n;
    let made = build(
        text,
        &mut relations[RELATION_HEAD..],
        work,
        &mut end,
        k as u8,
    );
    commit(relations, RELATION_COUNT, RELATION_HEAD, 4, n, end, made);
    if let Some(h) = made {
        return Ok(h);
    }
    Err(PolicyRefusal::Store(Refusal::UsedUp))
}

// A text, as a call that may add relations.
#[derive(Clone, Copy)]
struct Text<'a> {
    text: &'a [u8],
}

impl<'a> AddsRelations for Text<'a> {
    type Output = Result<u32, PolicyRefusal>;

    ghost refuse = { refused };

    ghost step = { λ t M. policy_step t.text.now M };

    fn refused(refusal: Refusal) -> Result<u32, PolicyRefusal>
        ensures { result ≡ refused refusal }
    {
        Err(refusal.into())
    }

    // Reads the text for the store, and builds it.
    fn run_checked(
        self,
        relations: &mut [u32],
        sets: &[u32],
        work: &mut [u32],
    ) -> Result<u32, PolicyRefusal> {
        if self.text.len() > MOST_BYTES {
            return Err(PolicyRefusal::Store(Refusal::TooLong));
        }
        policy_text::read(self.text, relations[FIELDS])?;
        built(relations, sets, work, self.text)
    }

    ghost declines = { λ t M e. policy_no_store t.text.now M e };
}

// A policy on any numbers in both memories, and any bytes as its text, with the nodes that it added.
pub fn policy(
    relations: &mut [u32],
    sets: &[u32],
    work: &mut [u32],
    text: &[u8],
) -> Reply<Result<u32, PolicyRefusal>>
    ensures { Replies (policy_step text.now) (memories relations.old sets.now)
        (memories relations.new sets.now) work.old work.new result.answer result.added }
{
    calls::add_relations(relations, sets, work, Text { text })
}
