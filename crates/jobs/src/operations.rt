// The operations that a job may name, by their numbers: what each takes, and the call that it is.
ghost use Rattle.std.specs.Prelude.{◌≡◌};
ghost use Rattle.jobs.specs.Operations.{numbered, as_call};

use store::filter_calls::FilterCall;
use store::image_calls::ImageCall;
use store::path_reads::PathRead;
use store::relation_calls::RelationCall;
use store::relation_reads::RelationRead;
use store::set_calls::SetCall;
use store::set_reads::SetRead;

// The number of the last operation; the first is 1.
pub const LAST: u32 = 38;

// What an operand is: nothing, a set, a relation, or a number, which is a field, a packet or a value. No Option: spare operands stand for 0, whatever they hold
// (`SpareIgnored` of theorems/specs/JobLists speaks of the case).
#[derive(Clone, Copy)]
pub enum Slot {
    Spare,
    Set,
    Relation,
    Number,
}

#[derive(Clone, Copy)]
pub struct Slots {
    pub a: Slot,
    pub b: Slot,
    pub c: Slot,
}

// A call of `store` with its arguments.
#[derive(Clone, Copy)]
pub enum StoreCall {
    AddsSet(SetCall),
    ReadsSet(SetRead),
    AddsRelation(RelationCall),
    ReadsRelation(RelationRead),
    AddsImage(ImageCall),
    AddsFilter(FilterCall),
    ReadsPath(PathRead),
}

// What the operation of this number takes. The numbers are those of the C interface.
#[tactic(auto, unfolding(crate::specs::Operations::numbered))]
pub fn operands(n: u32) -> Slots
    ensures { result ≡ (numbered n).operands }
{
    let (a, b, c) = match n {
        0..=5 | 39.. => (Slot::Spare, Slot::Spare, Slot::Spare),
        6..=10 => (Slot::Set, Slot::Spare, Slot::Spare),
        11..=18 => (Slot::Relation, Slot::Spare, Slot::Spare),
        19..=24 => (Slot::Set, Slot::Set, Slot::Spare),
        25..=29 => (Slot::Relation, Slot::Relation, Slot::Spare),
        30..=31 => (Slot::Set, Slot::Relation, Slot::Spare),
        32 => (Slot::Relation, Slot::Set, Slot::Spare),
        33..=35 => (Slot::Number, Slot::Number, Slot::Spare),
        36 => (Slot::Number, Slot::Set, Slot::Set),
        37 => (Slot::Relation, Slot::Number, Slot::Number),
        38 => (Slot::Set, Slot::Relation, Slot::Set),
    };
    Slots { a, b, c }
}

// The call that the operation of this number is, where its operands stand for a, b and c; it ignores those that it does not take.
#[tactic(auto, unfolding(crate::specs::Operations::numbered))]
pub fn call(n: u32, a: u32, b: u32, c: u32) -> StoreCall
    ensures { as_call result ≡ (numbered n).call a b c }
{
    match n {
        0..=1 | 39.. => StoreCall::AddsSet(SetCall::Zero),
        2 => StoreCall::AddsSet(SetCall::One),
        3 => StoreCall::AddsRelation(RelationCall::Zero),
        4 => StoreCall::AddsRelation(RelationCall::One),
        5 => StoreCall::AddsRelation(RelationCall::Top),
        6 => StoreCall::ReadsSet(SetRead::Complement(a)),
        7 => StoreCall::ReadsSet(SetRead::IsZero(a)),
        8 => StoreCall::AddsFilter(FilterCall::Diagonal(a)),
        9 => StoreCall::AddsFilter(FilterCall::Ifwd(a)),
        10 => StoreCall::AddsFilter(FilterCall::Ibwd(a)),
        11 => StoreCall::AddsRelation(RelationCall::Complement(a)),
        12 => StoreCall::AddsRelation(RelationCall::Star(a)),
        13 => StoreCall::AddsRelation(RelationCall::Flip(a)),
        14 => StoreCall::AddsRelation(RelationCall::NaiveForward(a)),
        15 => StoreCall::AddsRelation(RelationCall::Backward(a)),
        16 => StoreCall::AddsImage(ImageCall::Fwd(a)),
        17 => StoreCall::AddsImage(ImageCall::Bwd(a)),
        18 => StoreCall::ReadsRelation(RelationRead::IsZero(a)),
        19 => StoreCall::AddsSet(SetCall::Mk(a, b)),
        20 => StoreCall::AddsSet(SetCall::Union(a, b)),
        21 => StoreCall::AddsSet(SetCall::Intersect(a, b)),
        22 => StoreCall::AddsSet(SetCall::Xor(a, b)),
        23 => StoreCall::AddsSet(SetCall::Difference(a, b)),
        24 => StoreCall::ReadsSet(SetRead::Intersects(a, b)),
        25 => StoreCall::AddsRelation(RelationCall::Union(a, b)),
        26 => StoreCall::AddsRelation(RelationCall::Intersect(a, b)),
        27 => StoreCall::AddsRelation(RelationCall::Xor(a, b)),
        28 => StoreCall::AddsRelation(RelationCall::Difference(a, b)),
        29 => StoreCall::AddsRelation(RelationCall::Sequence(a, b)),
        30 => StoreCall::AddsImage(ImageCall::Push(a, b)),
        31 => StoreCall::ReadsPath(PathRead::HasImage(a, b)),
        32 => StoreCall::AddsImage(ImageCall::Pull(a, b)),
        33 => StoreCall::AddsSet(SetCall::Test(a, b)),
        34 => StoreCall::AddsRelation(RelationCall::Test(a, b)),
        35 => StoreCall::AddsRelation(RelationCall::Assign(a, b)),
        36 => StoreCall::AddsSet(SetCall::Ifelse(a, b, c)),
        37 => StoreCall::ReadsRelation(RelationRead::Relates(a, b, c)),
        38 => StoreCall::ReadsPath(PathRead::HasPath(a, b, c)),
    }
}
