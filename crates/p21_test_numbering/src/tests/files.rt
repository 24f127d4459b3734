ghost use Rattle.std.specs.List.{AllByRecursion as Each};
ghost use Rattle.std.specs.Prelude.{IfOk};
ghost use Rattle.p21_mapping_values.specs.KnownTypes.{HaveKnownTypes};
ghost use Rattle.p21_mapping_values.specs.TypedView.{typed_view};
ghost use Rattle.p21_mapping_values.specs.View.{list_of, views};
ghost use Rattle.p21_numbering.specs.Instances.{Instance as InstanceOf, file_instances};
ghost use Rattle.p21_numbering.specs.NodesOf.{HasKnownParts};

use p21_express::read_schema;
use p21_express_graph::EntityId;
use p21_mapping_values::{Ids, Rows, Typed, Value, Values};
use p21_numbering::{Instance, Unordered, file_order, numbers_in};
use p21_schema::Schema;
use p21_values::Name;
use std::alloc::{AllocError, Global};
use std::collections::BTreeMap;
use std::rt::HostRuntime;

const SCHEMA: &[u8] = b"SCHEMA s;
TYPE any = SELECT (a, b); END_TYPE;
ENTITY a; row : LIST OF any; some : SET OF any; lists : SET OF LIST OF any; END_ENTITY;
ENTITY b; row : LIST OF any; some : SET OF any; lists : SET OF LIST OF any; END_ENTITY;
END_SCHEMA;";

/// The texts of the heading of each section.
const HEADINGS: &[&[&[char]]] = &[&[&['A'], &['S']], &[&['B'], &['S']]];

/// An instance: its name, the numbers of its section and of its entity, and those that it refers to in a list, in a set, and in the
/// lists of a set.
type Row = (
    u64,
    usize,
    u32,
    &'static [u64],
    &'static [u64],
    &'static [&'static [u64]],
);

/// Small files, each with all orders of its instances, none where it isn't decided: those of all permutations that tests/ranks.py finds.
const FILES: &[(&[Row], &[&[u64]])] = &[
    (&[], &[&[]]),
    (
        &[
            (10, 0, 0, &[], &[], &[]),
            (7, 0, 0, &[9], &[], &[]),
            (9, 0, 0, &[], &[], &[]),
            (8, 0, 0, &[10], &[], &[]),
        ],
        &[&[7, 8, 9, 10], &[8, 7, 10, 9]],
    ),
    (
        &[
            (2, 0, 0, &[], &[], &[]),
            (3, 0, 0, &[], &[], &[]),
            (5, 0, 0, &[], &[3, 2], &[]),
        ],
        &[&[5, 2, 3], &[5, 3, 2]],
    ),
    (
        &[
            (5, 0, 0, &[], &[], &[&[3], &[2]]),
            (2, 0, 0, &[], &[], &[]),
            (3, 0, 0, &[], &[], &[]),
        ],
        &[],
    ),
    (
        &[
            (1, 0, 0, &[2], &[], &[]),
            (2, 0, 0, &[3], &[], &[]),
            (3, 0, 0, &[1], &[], &[]),
        ],
        &[],
    ),
    (
        &[
            (1, 1, 0, &[], &[], &[]),
            (2, 0, 0, &[], &[], &[]),
            (3, 0, 1, &[], &[], &[]),
        ],
        &[&[2, 3, 1]],
    ),
    (
        &[
            (11, 0, 0, &[1, 2], &[], &[]),
            (12, 0, 0, &[4, 3], &[], &[]),
            (1, 0, 0, &[], &[], &[]),
            (2, 0, 0, &[], &[], &[]),
            (3, 0, 0, &[], &[], &[]),
            (4, 0, 0, &[], &[], &[]),
            (20, 0, 0, &[], &[11, 12], &[]),
        ],
        &[&[11, 12, 20, 1, 4, 2, 3], &[12, 11, 20, 4, 1, 3, 2]],
    ),
    (
        &[
            (6, 0, 1, &[], &[], &[]),
            (7, 0, 1, &[], &[], &[]),
            (8, 0, 1, &[], &[], &[]),
            (1, 0, 0, &[7, 8], &[], &[]),
            (2, 0, 0, &[8], &[], &[]),
        ],
        &[&[2, 1, 6, 8, 7]],
    ),
];

/// References to these.
fn references(alloc: Global, schema: &Schema, targets: &[u64]) -> Result<Values, AllocError>
    ensures { IfOk result (λ row. HaveKnownTypes schema.now (views (list_of row))) }
{
    let mut all = Vec::new(alloc);
    for target in targets {
        all.push(Value::Reference(Name(*target)))?;
    }
    Ok(Values::from_vec(all))
}

/// Lists of references to these.
fn lists(alloc: Global, schema: &Schema, rows: &[&[u64]]) -> Result<Values, AllocError>
    ensures { IfOk result (λ row. HaveKnownTypes schema.now (views (list_of row))) }
{
    let mut all = Vec::new(alloc);
    for targets in rows {
        let uses = references(alloc, schema, *targets)?;
        all.push(Value::List(uses))?;
    }
    Ok(Values::from_vec(all))
}

/// The values of a record: a list, a set, and a set of lists.
fn attributes(
    alloc: Global,
    schema: &Schema,
    row: &[u64],
    some: &[u64],
    rows: &[&[u64]],
) -> Result<Values, AllocError>
    ensures { IfOk result (λ row. HaveKnownTypes schema.now (views (list_of row))) }
{
    let listed = references(alloc, schema, row)?;
    let grouped = references(alloc, schema, some)?;
    let inner = lists(alloc, schema, rows)?;
    let mut all = Vec::new(alloc);
    all.push(Value::List(listed))?;
    all.push(Value::Set(grouped))?;
    all.push(Value::Set(inner))?;
    Ok(Values::from_vec(all))
}

/// The record of an entity with these values.
fn record(
    alloc: Global,
    schema: &Schema,
    entity: u32,
    values: Values,
) -> Result<Typed<'static>, AllocError>
    requires { HaveKnownTypes schema.now (views (list_of values)) }
    ensures { IfOk result (λ typed. HasKnownParts schema.now (typed_view typed)) }
{
    if entity as usize >= schema.entities() {
        return Err(AllocError);
    }
    let mut parts = Vec::new(alloc);
    parts.push(EntityId(entity))?;
    let mut rows = Vec::new(alloc);
    rows.push(values)?;
    Ok(Typed {
        parts: Ids::from_vec(parts),
        values: Rows::from_vec(rows),
    })
}

fn instances(
    alloc: Global,
    schema: &Schema,
    rows: &[Row],
) -> Result<Vec<Instance<'static>>, AllocError>
    ensures { IfOk result (λ all. Each (λ (i : InstanceOf). HasKnownParts schema.now i.typed) (file_instances all.items)) }
{
    let mut all = Vec::new(alloc);
    for one in rows {
        let (name, section, entity, row, some, lists) = *one;
        let values = attributes(alloc, schema, row, some, lists)?;
        let typed = record(alloc, schema, entity, values)?;
        let Some(heading) = HEADINGS.get(section) else {
            return Err(AllocError);
        };
        all.push(Instance {
            name,
            heading: *heading,
            typed,
        })?;
    }
    Ok(all)
}

fn order_of(alloc: Global, schema: &Schema, rows: &[Row]) -> Result<Vec<u64>, Unordered> {
    let all = instances(alloc, schema, rows)?;
    file_order(alloc, schema, &all)
}

fn is_among(orders: &[&[u64]], found: &[u64]) -> bool {
    for one in orders {
        if *one == found {
            return true;
        }
    }
    false
}

/// Whether each name has its position in the order, from 1 on.
fn have_positions(order: &[u64], numbers: &BTreeMap<u64, u64>) -> bool {
    for k in 0..order.len() {
        match numbers.get(&order[k]) {
            Some(number) => {
                if *number != k as u64 + 1 {
                    return false;
                }
            }
            None => return false,
        }
    }
    true
}

fn are_numbered(alloc: Global, order: &[u64]) -> bool {
    match numbers_in(alloc, order) {
        Ok(numbers) => have_positions(order, &numbers),
        Err(_) => false,
    }
}

/// Whether one of the orders is answered, and its names have these numbers; or two names where there is none.
fn is_right(alloc: Global, schema: &Schema, rows: &[Row], orders: &[&[u64]]) -> bool {
    match order_of(alloc, schema, rows) {
        Ok(found) => is_among(orders, &found) && are_numbered(alloc, &found),
        Err(Unordered::Alike(one, other)) => orders.is_empty() && one != other,
        Err(Unordered::NoMemory) => false,
    }
}

/// The first file that is answered wrongly, or how many there are.
fn first_wrong(alloc: Global, schema: &Schema) -> usize {
    for at in 0..FILES.len() {
        let (rows, orders) = FILES[at];
        if !is_right(alloc, schema, rows, orders) {
            return at;
        }
    }
    FILES.len()
}

fn first_wrong_under_schema(alloc: Global) -> usize {
    match read_schema(alloc, SCHEMA) {
        Ok(schema) => first_wrong(alloc, &schema),
        Err(_) => usize::MAX,
    }
}

#[test]
fn orders_files(rt: HostRuntime) {
    assert_eq!(rt; first_wrong_under_schema(rt.alloc()), FILES.len());
}
