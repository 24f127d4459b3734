use p21_express_graph::EntityId;
use p21_mapping_values::{Ids, Rows, Typed, Value, Values};
use p21_numbering::{PlacedUse, uses_in};
use p21_values::Name;
use std::alloc::{AllocError, Global};
use std::rt::HostRuntime;

/// Of each reference of `record` the way to it and its name.
const WANTED: &[(&[u64], u64)] = &[
    (&[0, 0], 7),
    (&[0, 1, 1], 8),
    (&[0, 1, 3, 0], 9),
    (&[1, 0, 0], 7),
];

fn reference(name: u64) -> Value {
    Value::Reference(Name(name))
}

fn values<const N: usize>(alloc: Global, all: [Value; N]) -> Result<Values, AllocError> {
    Ok(Values::from_vec(Vec::from_array(alloc, all)?))
}

/// `((#7, (#8, $, {#9})), ({#7}))`, where braces are a set and a bag.
fn record(alloc: Global) -> Result<Typed<'static>, AllocError> {
    let set = Value::Set(values(alloc, [reference(9)])?);
    let list = Value::List(values(alloc, [reference(8), Value::Missing, set])?);
    let bag = Value::Bag(values(alloc, [reference(7)])?);
    let first = values(alloc, [reference(7), list])?;
    let second = values(alloc, [bag])?;
    Ok(Typed {
        parts: Ids::from_vec(Vec::from_array(alloc, [EntityId(3), EntityId(5)])?),
        values: Rows::from_vec(Vec::from_array(alloc, [first, second])?),
    })
}

/// The first reference that is another one, or how many there are.
fn first_wrong(found: &[PlacedUse]) -> usize {
    for at in 0..WANTED.len() {
        let Some(one) = found.get(at) else {
            return at;
        };
        let (place, target) = WANTED[at];
        if one.place.as_slice() != place || one.target != target {
            return at;
        }
    }
    found.len()
}

fn found(alloc: Global) -> Result<Vec<PlacedUse>, AllocError> {
    let record = record(alloc)?;
    uses_in(alloc, &record)
}

#[test]
fn finds_references(rt: HostRuntime) {
    let found = found(rt.alloc());
    assert_eq!(rt;
        found.ok().map(|found| first_wrong(&found)),
        Some(WANTED.len())
    );
}
