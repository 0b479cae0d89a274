// The calls that may add relations.
ghost use Rattle.std.specs.Prelude.{Err};
ghost use Rattle.model.specs.Store.{rel};
ghost use Rattle.memory.specs.Performing.{Performs, going, ended};
ghost use Rattle.store_check.specs.Memory.{memories};
ghost use Rattle.call_rules.specs.Promise.{Replies};
ghost use Rattle.store.specs.Declining.{relation_call_no_store};
ghost use Rattle.store.specs.Calls.{relation_call, step};
ghost use Rattle.store.specs.RelationCalls.{relation_declines, relation_program};
ghost use Rattle.call_rules.specs.Checking.{Checks};
ghost use Rattle.store.specs.RelationChecking.{RelationFieldFits};

use call_rules::calls::{self, AddsRelations};
use call_rules::finish::finish;
use call_rules::{Answer, Refusal, Reply, operands};
use relations::fields;
use store_check::head::*;

// A call with its arguments, after spp.rs: handles, and for `test` and `assign` a field first; a value is 0 or 1.
#[derive(Clone, Copy)]
pub enum RelationCall {
    Mk(u32, u32, u32, u32),
    Zero,
    One,
    Top,
    Union(u32, u32),
    Intersect(u32, u32),
    Xor(u32, u32),
    Difference(u32, u32),
    Complement(u32),
    Sequence(u32, u32),
    Star(u32),
    Flip(u32),
    Test(u32, u32),
    Assign(u32, u32),
    NaiveForward(u32),
    Backward(u32),
}

// Whether a call may run on the first n nodes.
fn check(nodes: &[u32], n: usize, k: u32, call: RelationCall) -> Result<u32, Refusal>
    ensures { Checks rel nodes.now n k (λ S. relation_declines k call S) result }
{
    match call {
        RelationCall::Mk(a, b, c, d) => operands::four_children(nodes, 4, n, k, a, b, c, d),
        RelationCall::Zero | RelationCall::One | RelationCall::Top => Ok(k),
        RelationCall::Union(a, b)
        | RelationCall::Intersect(a, b)
        | RelationCall::Xor(a, b)
        | RelationCall::Difference(a, b)
        | RelationCall::Sequence(a, b) => operands::two(nodes, 4, n, k, a, b),
        RelationCall::Complement(a)
        | RelationCall::Star(a)
        | RelationCall::Flip(a)
        | RelationCall::NaiveForward(a)
        | RelationCall::Backward(a) => operands::one(nodes, 4, n, k, a),
        RelationCall::Test(var, value) | RelationCall::Assign(var, value) => operands::field(
            k, var, value,
        ),
    }
}

// Runs a call whose operands are of this level, in a store of k fields.
fn perform(
    nodes: &mut [u32],
    work: &mut [u32],
    n: &mut usize,
    k: u8,
    level: u8,
    call: RelationCall,
) -> Option<u32>
    requires { RelationFieldFits call }
    ensures { Performs rel (relation_program k level call) (going n.old)
        nodes.old nodes.new work.old work.new (ended n.new result) }
{
    match call {
        RelationCall::Mk(a, b, c, d) => relations::mk(nodes, work, n, a, b, c, d),
        RelationCall::Zero => relations::zero_at_depth(nodes, work, n, k),
        RelationCall::One => relations::one_at_depth(nodes, work, n, k),
        RelationCall::Top => relations::top_at_depth(nodes, work, n, k),
        RelationCall::Union(a, b) => relations::union(nodes, work, n, level, a, b),
        RelationCall::Intersect(a, b) => relations::intersect(nodes, work, n, level, a, b),
        RelationCall::Xor(a, b) => relations::xor(nodes, work, n, level, a, b),
        RelationCall::Difference(a, b) => relations::difference(nodes, work, n, level, a, b),
        RelationCall::Complement(a) => relations::complement(nodes, work, n, level, a),
        RelationCall::Sequence(a, b) => relation_products::sequence(nodes, work, n, level, a, b),
        RelationCall::Star(a) => relation_products::star(nodes, work, n, level, a),
        RelationCall::Flip(a) => relations::flip(nodes, work, n, level, a),
        RelationCall::Test(var, value) => fields::test(nodes, work, n, k, var as u8, value == 1),
        RelationCall::Assign(var, value) => fields::assign(
            nodes,
            work,
            n,
            k,
            var as u8,
            value == 1,
        ),
        RelationCall::NaiveForward(a) => relation_products::naive_forward(nodes, work, n, level, a),
        RelationCall::Backward(a) => relation_products::backward(nodes, work, n, level, a),
    }
}

impl AddsRelations for RelationCall {
    type Output = Result<Answer, Refusal>;

    ghost refuse = { Err };

    ghost step = { λ c M. step (relation_call c) M };

    // A call that is declined.
    fn refused(refusal: Refusal) -> Result<Answer, Refusal> {
        Err(refusal)
    }

    // Checks a call on a store, and runs it (lib.rt says why each type of calls has its own).
    fn run_checked(
        self,
        relations: &mut [u32],
        sets: &[u32],
        work: &mut [u32],
    ) -> Result<Answer, Refusal> {
        let k = relations[FIELDS];
        let n = relations[RELATION_COUNT] as usize;
        let level = check(&relations[RELATION_HEAD..], n, k, self)?;
        let mut end = n;
        let made = perform(
            &mut relations[RELATION_HEAD..],
            work,
            &mut end,
            k as u8,
            level as u8,
            self,
        );
        finish(relations, RELATION_COUNT, RELATION_HEAD, 4, n, end, made)
    }

    ghost declines = { relation_call_no_store };
}

// A call on any numbers in both memories, with the nodes that it added.
pub fn relation_call(
    relations: &mut [u32],
    sets: &[u32],
    work: &mut [u32],
    call: RelationCall,
) -> Reply<Result<Answer, Refusal>>
    ensures { Replies (step (relation_call call)) (memories relations.old sets.now)
        (memories relations.new sets.now) work.old work.new result.answer result.added }
{
    calls::add_relations(relations, sets, work, call)
}
