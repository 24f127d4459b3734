use p21_express_graph::EntityId;
use p21_mapping_values::{Ids, Rows, Typed, Value, Values};
use p21_numbering::{PlacedUse, renamed_record, uses_in};
use p21_values::Name;
use std::alloc::{AllocError, Global};
use std::collections::BTreeMap;
use std::rt::HostRuntime;

/// The names in `record` in their order, and what the renamed record has in their place.
const NAMES: &[(u64, u64)] = &[(7, 1), (9, 2), (7, 1), (8, 0)];

fn row(alloc: Global, name: u64) -> Result<Values, AllocError> {
    let mut values = Vec::new(alloc);
    values.push(Value::Reference(Name(name)))?;
    Ok(Values::from_vec(values))
}

/// `((#7), ((#9)), ({#7}), ((#8)))`, where braces are a set: a row for each entity.
fn record(alloc: Global) -> Result<Typed<'static>, AllocError> {
    let mut rows = Vec::new(alloc);
    rows.push(row(alloc, 7)?)?;
    rows.push(inner(alloc, Value::List(row(alloc, 9)?))?)?;
    rows.push(inner(alloc, Value::Set(row(alloc, 7)?))?)?;
    rows.push(inner(alloc, Value::Bag(row(alloc, 8)?))?)?;
    let parts = Vec::from_array(alloc, [EntityId(1), EntityId(2), EntityId(3), EntityId(4)])?;
    Ok(Typed {
        parts: Ids::from_vec(parts),
        values: Rows::from_vec(rows),
    })
}

fn inner(alloc: Global, value: Value) -> Result<Values, AllocError> {
    let mut values = Vec::new(alloc);
    values.push(value)?;
    Ok(Values::from_vec(values))
}

fn new_names(alloc: Global) -> Result<BTreeMap<u64, u64>, AllocError> {
    let mut names = BTreeMap::new(alloc);
    names.insert(7, 1)?;
    names.insert(9, 2)?;
    Ok(names)
}

fn renamed_uses(alloc: Global) -> Result<Vec<PlacedUse>, AllocError> {
    let names = new_names(alloc)?;
    let renamed = renamed_record(alloc, record(alloc)?, &names)?;
    uses_in(alloc, &renamed)
}

/// The first name that is another one, or how many there are.
fn first_wrong(found: &[PlacedUse]) -> usize {
    for at in 0..NAMES.len() {
        let Some(one) = found.get(at) else {
            return at;
        };
        if one.target != NAMES[at].1 {
            return at;
        }
    }
    found.len()
}

#[test]
fn renames_references(rt: HostRuntime) {
    let found = renamed_uses(rt.alloc());
    assert_eq!(rt;
        found.ok().map(|found| first_wrong(&found)),
        Some(NAMES.len())
    );
}
