// The calls of a list, by the oracle's names. A call that the store gains has a line here.
use jobs::operations::StoreCall;
use store::filter_calls::FilterCall;
use store::image_calls::ImageCall;
use store::path_reads::PathRead;
use store::relation_calls::RelationCall;
use store::relation_reads::RelationRead;
use store::set_calls::SetCall;
use store::set_reads::{Cursor, SetRead};

// A call with its arguments.
#[derive(Clone, Copy)]
pub enum Call {
    New(u32, u32, u32),
    Store(StoreCall),
}

// The calls that may add sets.
fn set_call(name: &[u8], numbers: &[u32]) -> Option<SetCall> {
    match (name, numbers) {
        (b"set.mk", [a, b]) => Some(SetCall::Mk(*a, *b)),
        (b"set.zero", []) => Some(SetCall::Zero),
        (b"set.one", []) => Some(SetCall::One),
        (b"set.union", [a, b]) => Some(SetCall::Union(*a, *b)),
        (b"set.intersect", [a, b]) => Some(SetCall::Intersect(*a, *b)),
        (b"set.xor", [a, b]) => Some(SetCall::Xor(*a, *b)),
        (b"set.difference", [a, b]) => Some(SetCall::Difference(*a, *b)),
        (b"set.test", [f, b]) => Some(SetCall::Test(*f, *b)),
        (b"ifelse", [f, a, b]) => Some(SetCall::Ifelse(*f, *a, *b)),
        _ => None,
    }
}

// The calls on sets that add nothing.
fn set_read(name: &[u8], numbers: &[u32]) -> Option<SetRead> {
    match (name, numbers) {
        (b"set.get", [a]) => Some(SetRead::Get(*a)),
        (b"set.complement", [a]) => Some(SetRead::Complement(*a)),
        (b"set.is_zero", [a]) => Some(SetRead::IsZero(*a)),
        (b"intersects", [a, b]) => Some(SetRead::Intersects(*a, *b)),
        (b"set.next", [handle, last, given, ended]) => Some(SetRead::Next(Cursor {
            handle: *handle,
            last: *last,
            given: *given,
            ended: *ended,
        })),
        _ => None,
    }
}

// The calls that may add relations.
fn relation_call(name: &[u8], numbers: &[u32]) -> Option<RelationCall> {
    match (name, numbers) {
        (b"rel.mk", [a, b, c, d]) => Some(RelationCall::Mk(*a, *b, *c, *d)),
        (b"rel.zero", []) => Some(RelationCall::Zero),
        (b"rel.one", []) => Some(RelationCall::One),
        (b"top", []) => Some(RelationCall::Top),
        (b"rel.union", [a, b]) => Some(RelationCall::Union(*a, *b)),
        (b"rel.intersect", [a, b]) => Some(RelationCall::Intersect(*a, *b)),
        (b"rel.xor", [a, b]) => Some(RelationCall::Xor(*a, *b)),
        (b"rel.difference", [a, b]) => Some(RelationCall::Difference(*a, *b)),
        (b"rel.complement", [a]) => Some(RelationCall::Complement(*a)),
        (b"sequence", [a, b]) => Some(RelationCall::Sequence(*a, *b)),
        (b"star", [a]) => Some(RelationCall::Star(*a)),
        (b"flip", [a]) => Some(RelationCall::Flip(*a)),
        (b"rel.test", [f, b]) => Some(RelationCall::Test(*f, *b)),
        (b"assign", [f, b]) => Some(RelationCall::Assign(*f, *b)),
        (b"naive_forward", [a]) => Some(RelationCall::NaiveForward(*a)),
        (b"backward", [a]) => Some(RelationCall::Backward(*a)),
        _ => None,
    }
}

// The calls on relations that add nothing.
fn relation_read(name: &[u8], numbers: &[u32]) -> Option<RelationRead> {
    match (name, numbers) {
        (b"rel.get", [a]) => Some(RelationRead::Get(*a)),
        (b"rel.is_zero", [a]) => Some(RelationRead::IsZero(*a)),
        (b"relates", [a, p, q]) => Some(RelationRead::Relates(*a, *p, *q)),
        _ => None,
    }
}

// The calls that read relations and may add sets.
fn image_call(name: &[u8], numbers: &[u32]) -> Option<ImageCall> {
    match (name, numbers) {
        (b"fwd", [a]) => Some(ImageCall::Fwd(*a)),
        (b"bwd", [a]) => Some(ImageCall::Bwd(*a)),
        (b"push", [p, a]) => Some(ImageCall::Push(*p, *a)),
        (b"pull", [a, p]) => Some(ImageCall::Pull(*a, *p)),
        _ => None,
    }
}

// The calls that read sets and may add relations.
fn filter_call(name: &[u8], numbers: &[u32]) -> Option<FilterCall> {
    match (name, numbers) {
        (b"diagonal", [a]) => Some(FilterCall::Diagonal(*a)),
        (b"ifwd", [a]) => Some(FilterCall::Ifwd(*a)),
        (b"ibwd", [a]) => Some(FilterCall::Ibwd(*a)),
        _ => None,
    }
}

// The calls on relations and sets that add nothing.
fn path_read(name: &[u8], numbers: &[u32]) -> Option<PathRead> {
    match (name, numbers) {
        (b"has_image", [p, a]) => Some(PathRead::HasImage(*p, *a)),
        (b"has_path", [p, a, q]) => Some(PathRead::HasPath(*p, *a, *q)),
        (b"first_path", [p, a, q]) => Some(PathRead::FirstPath(*p, *a, *q)),
        _ => None,
    }
}

// The call on a store of this name.
fn store_call(name: &[u8], numbers: &[u32]) -> Option<StoreCall> {
    set_call(name, numbers)
        .map(StoreCall::AddsSet)
        .or_else(|| set_read(name, numbers).map(StoreCall::ReadsSet))
        .or_else(|| relation_call(name, numbers).map(StoreCall::AddsRelation))
        .or_else(|| relation_read(name, numbers).map(StoreCall::ReadsRelation))
        .or_else(|| image_call(name, numbers).map(StoreCall::AddsImage))
        .or_else(|| filter_call(name, numbers).map(StoreCall::AddsFilter))
        .or_else(|| path_read(name, numbers).map(StoreCall::ReadsPath))
}

// The call that a line asks for, if it asks for one.
pub fn asked(line: &[u8]) -> Option<Call> {
    let end = line.iter().position(|b| *b == b' ').unwrap_or(line.len());
    let row = crate::lines::read_numbers(line, end)?;
    match (&line[..end], &row.x[..row.count]) {
        (b"new", [k, r, s]) => Some(Call::New(*k, *r, *s)),
        (name, numbers) => store_call(name, numbers).map(Call::Store),
    }
}
