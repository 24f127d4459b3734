ghost use Rattle.std.specs.List.{AllByRecursion as Each};
ghost use Rattle.std.specs.Prelude.{IfOk};
ghost use Rattle.p21_mapping_values.specs.KnownTypes.{HaveKnownTypes};
ghost use Rattle.p21_mapping_values.specs.TypedView.{typed_view};
ghost use Rattle.p21_mapping_values.specs.View.{list_of, views};
ghost use Rattle.p21_numbering.specs.Instances.{Instance as InstanceOf, file_instances};
ghost use Rattle.p21_numbering.specs.NodesOf.{HasKnownParts};

use p21_express::read_schema;
use p21_express_graph::EntityId;
use p21_mapping_values::{Ids, Rows, Typed, Value, Values};
use p21_pairing::{Instance, names_by, partners};
use p21_schema::Schema;
use p21_values::{Name, NoMemory};
use std::alloc::{AllocError, Global};
use std::collections::BTreeMap;
use std::rt::HostRuntime;

const SCHEMA: &[u8] = b"SCHEMA s;
TYPE any = SELECT (a, b); END_TYPE;
ENTITY a; row : LIST OF any; says : LIST OF LIST OF any; END_ENTITY;
ENTITY b; row : LIST OF any; says : LIST OF LIST OF any; END_ENTITY;
END_SCHEMA;";

/// The texts of the heading of each section.
const HEADINGS: &[&[&[char]]] = &[&[&['A'], &['S']], &[&['B'], &['S']]];

/// An instance: its name, the numbers of its section and of its entity, those that it refers to, and what else it says: so many empty
/// lists.
type Row = (u64, usize, u32, &'static [u64], &'static [&'static [u64]]);

const ONE: &[&[u64]] = &[&[]];

const TWO: &[&[u64]] = &[&[], &[]];

const THREE: &[&[u64]] = &[&[], &[], &[]];

const FOUR: &[&[u64]] = &[&[], &[], &[], &[]];

/// Two small files; for each instance of the first one the position of its partner and its new name; and how many pairs are made by
/// order alone.
type Files = (
    &'static [Row],
    &'static [Row],
    &'static [Option<usize>],
    &'static [u64],
    usize,
);

const FILES: &[Files] = &[
    (&[], &[], &[], &[], 0),
    // Renumbered and reordered.
    (
        &[
            (1, 0, 0, &[2], &[]),
            (2, 0, 0, &[3], &[]),
            (3, 0, 0, &[], &[]),
        ],
        &[
            (30, 0, 0, &[], &[]),
            (10, 0, 0, &[20], &[]),
            (20, 0, 0, &[30], &[]),
        ],
        &[Some(1), Some(2), Some(0)],
        &[10, 20, 30],
        0,
    ),
    // The third one says something else.
    (
        &[
            (1, 0, 0, &[2, 3], &[]),
            (2, 0, 0, &[], ONE),
            (3, 0, 0, &[], TWO),
        ],
        &[
            (7, 0, 0, &[], ONE),
            (8, 0, 0, &[], THREE),
            (9, 0, 0, &[7, 8], &[]),
        ],
        &[Some(2), Some(0), Some(1)],
        &[9, 7, 8],
        0,
    ),
    // The list of the first one has one more: by the order alone its partner is not the one that says more.
    (
        &[(1, 0, 0, &[2], &[]), (2, 0, 0, &[], ONE)],
        &[
            (1, 0, 0, &[4, 2], &[]),
            (2, 0, 0, &[], ONE),
            (4, 0, 0, &[], TWO),
        ],
        &[Some(0), Some(1)],
        &[1, 2],
        1,
    ),
    // Two that say the same are told apart by what refers to them, though the first one of all says something else.
    (
        &[
            (1, 0, 1, &[2, 3], ONE),
            (2, 0, 1, &[5], TWO),
            (3, 0, 1, &[4], THREE),
            (4, 0, 0, &[], &[]),
            (5, 0, 0, &[], &[]),
        ],
        &[
            (1, 0, 1, &[2, 3], &[]),
            (2, 0, 1, &[4], TWO),
            (3, 0, 1, &[5], THREE),
            (4, 0, 0, &[], &[]),
            (5, 0, 0, &[], &[]),
        ],
        &[Some(0), Some(1), Some(2), Some(4), Some(3)],
        &[1, 2, 3, 5, 4],
        0,
    ),
    // Partners have one set of entities.
    (
        &[(1, 0, 0, &[], &[])],
        &[(1, 0, 1, &[], &[])],
        &[None],
        &[2],
        0,
    ),
    // What has none gets the lowest names that the second file leaves.
    (
        &[
            (7, 0, 0, &[], &[]),
            (1, 0, 0, &[], ONE),
            (3, 0, 0, &[], TWO),
        ],
        &[
            (2, 0, 1, &[], &[]),
            (5, 0, 1, &[], &[]),
            (1, 0, 1, &[], &[]),
        ],
        &[None, None, None],
        &[3, 4, 6],
        0,
    ),
    // Copies, in order.
    (
        &[
            (1, 0, 0, &[], &[]),
            (2, 0, 0, &[], &[]),
            (3, 0, 0, &[], &[]),
        ],
        &[(8, 0, 0, &[], &[]), (9, 0, 0, &[], &[])],
        &[Some(0), Some(1), None],
        &[8, 9, 1],
        0,
    ),
    (
        &[
            (1, 0, 0, &[2], &[]),
            (2, 0, 0, &[3], &[]),
            (3, 0, 0, &[1], &[]),
        ],
        &[
            (1, 0, 0, &[2], &[]),
            (2, 0, 0, &[3], &[]),
            (3, 0, 0, &[1], &[]),
        ],
        &[Some(0), Some(1), Some(2)],
        &[1, 2, 3],
        0,
    ),
    // Of copies that hang together none is mixed with another.
    (
        &[
            (1, 0, 1, &[2], &[]),
            (2, 0, 0, &[], &[]),
            (3, 0, 1, &[4], &[]),
            (4, 0, 0, &[], &[]),
        ],
        &[
            (10, 0, 1, &[12], &[]),
            (11, 0, 1, &[13], &[]),
            (13, 0, 0, &[], &[]),
            (12, 0, 0, &[], &[]),
        ],
        &[Some(0), Some(3), Some(1), Some(2)],
        &[10, 12, 11, 13],
        0,
    ),
    // In another section.
    (
        &[(1, 0, 0, &[], &[]), (2, 0, 0, &[], ONE)],
        &[(1, 0, 0, &[], ONE), (2, 1, 0, &[], &[])],
        &[Some(1), Some(0)],
        &[2, 1],
        0,
    ),
    // Two that say what no other says are one another's only choice.
    (
        &[(1, 0, 0, &[], ONE)],
        &[(8, 0, 0, &[], TWO)],
        &[Some(0)],
        &[8],
        0,
    ),
    // Of two in the second file, or in both, it could have been another one.
    (
        &[(1, 0, 0, &[], ONE)],
        &[(8, 0, 0, &[], TWO), (9, 0, 0, &[], THREE)],
        &[Some(0)],
        &[8],
        1,
    ),
    (
        &[(1, 0, 0, &[], ONE), (2, 0, 0, &[], FOUR)],
        &[(8, 0, 0, &[], TWO), (9, 0, 0, &[], THREE)],
        &[Some(0), Some(1)],
        &[8, 9],
        2,
    ),
];

/// References to these.
fn references(alloc: Global, schema: &Schema, targets: &[u64]) -> Result<Values, AllocError>
    ensures { IfOk result (λ row. HaveKnownTypes schema.now (views (list_of row))) }
{
    let mut all = Vec::new(alloc);
    for target in targets {
        all.push(Value::Reference(Name(*target)))?;
    }
    Ok(Values::from_vec(all))
}

/// Lists of references to these.
fn lists(alloc: Global, schema: &Schema, rows: &[&[u64]]) -> Result<Values, AllocError>
    ensures { IfOk result (λ row. HaveKnownTypes schema.now (views (list_of row))) }
{
    let mut all = Vec::new(alloc);
    for targets in rows {
        let uses = references(alloc, schema, *targets)?;
        all.push(Value::List(uses))?;
    }
    Ok(Values::from_vec(all))
}

/// The values of a record: a list of references, and a list of lists.
fn attributes(
    alloc: Global,
    schema: &Schema,
    row: &[u64],
    rows: &[&[u64]],
) -> Result<Values, AllocError>
    ensures { IfOk result (λ row. HaveKnownTypes schema.now (views (list_of row))) }
{
    let listed = references(alloc, schema, row)?;
    let inner = lists(alloc, schema, rows)?;
    let mut all = Vec::new(alloc);
    all.push(Value::List(listed))?;
    all.push(Value::List(inner))?;
    Ok(Values::from_vec(all))
}

/// The record of an entity with these values.
fn record(
    alloc: Global,
    schema: &Schema,
    entity: u32,
    values: Values,
) -> Result<Typed<'static>, AllocError>
    requires { HaveKnownTypes schema.now (views (list_of values)) }
    ensures { IfOk result (λ typed. HasKnownParts schema.now (typed_view typed)) }
{
    if entity as usize >= schema.entities() {
        return Err(AllocError);
    }
    let mut parts = Vec::new(alloc);
    parts.push(EntityId(entity))?;
    let mut rows = Vec::new(alloc);
    rows.push(values)?;
    Ok(Typed {
        parts: Ids::from_vec(parts),
        values: Rows::from_vec(rows),
    })
}

fn instances(
    alloc: Global,
    schema: &Schema,
    rows: &[Row],
) -> Result<Vec<Instance<'static>>, AllocError>
    ensures { IfOk result (λ all. Each (λ (i : InstanceOf). HasKnownParts schema.now i.typed) (file_instances all.items)) }
{
    let mut all = Vec::new(alloc);
    for one in rows {
        let (name, section, entity, row, says) = *one;
        let values = attributes(alloc, schema, row, says)?;
        let typed = record(alloc, schema, entity, values)?;
        let Some(heading) = HEADINGS.get(section) else {
            return Err(AllocError);
        };
        all.push(Instance {
            name,
            heading: *heading,
            typed,
        })?;
    }
    Ok(all)
}

/// Whether the partners of these files, their new names and the choices are those that are wanted.
fn is_paired(alloc: Global, schema: &Schema, files: &Files) -> Result<bool, NoMemory> {
    let (first, second, wanted, news, choices) = *files;
    let one = instances(alloc, schema, first)?;
    let other = instances(alloc, schema, second)?;
    let found = partners(alloc, schema, &one, &other)?;
    let names = names_by(alloc, &one, &other, &found.partners)?;
    Ok(
        found.partners.as_slice() == wanted
            && found.choices == choices
            && are_named(first, &names, news),
    )
}

/// Whether instances have these new names, in order, and no others.
fn are_named(first: &[Row], names: &BTreeMap<u64, u64>, news: &[u64]) -> bool {
    for (one, new) in first.iter().zip(news) {
        if names.get(&one.0) != Some(new) {
            return false;
        }
    }
    names.len() == news.len()
}

/// The first files that are paired otherwise, or how many there are.
fn first_wrong(alloc: Global, schema: &Schema) -> usize {
    for (at, files) in FILES.iter().enumerate() {
        match is_paired(alloc, schema, files) {
            Ok(true) => {}
            _ => return at,
        }
    }
    FILES.len()
}

fn first_wrong_under_schema(alloc: Global) -> usize {
    match read_schema(alloc, SCHEMA) {
        Ok(schema) => first_wrong(alloc, &schema),
        Err(_) => usize::MAX,
    }
}

#[test]
fn pairs_instances(rt: HostRuntime) {
    assert_eq!(rt; first_wrong_under_schema(rt.alloc()), FILES.len());
}
