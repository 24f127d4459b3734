//! What is looked up in schemas: entities, types and places by their names, answers as texts.
ghost use Rattle.std.specs.Prelude.{IfOk, IfSome};
ghost use Rattle.p21_express_graph.specs.Lookups.{AreEntities};
ghost use Rattle.p21_express_graph.specs.Orders.{numbers};
ghost use Rattle.p21_express_graph.specs.Resolved.{IsEntity, IsPlace, IsType};
ghost use Rattle.p21_express_graph.specs.Meaning.{place as place_of};

use p21_express::{SchemaFault, read_schema};
use p21_express_graph::{EntityId, Place, TypeId};
use p21_schema::Schema;
use std::alloc::Global;
use std::fmt::Debug;
use std::process::Abort;

mod entities;
mod ladder;
mod places;
mod types;

const DEMO: &str = "SCHEMA demo;
TYPE distance = REAL; END_TYPE;
TYPE tally = INTEGER; END_TYPE;
TYPE colour = ENUMERATION OF (red, green); END_TYPE;
TYPE measure = SELECT (distance, tally); END_TYPE;
TYPE item = SELECT (measure, point); END_TYPE;
ENTITY shape ABSTRACT SUPERTYPE; label : OPTIONAL STRING; END_ENTITY;
ENTITY point SUBTYPE OF (shape); x, y : distance; END_ENTITY;
ENTITY marked SUBTYPE OF (shape); mark : colour; END_ENTITY;
ENTITY origin SUBTYPE OF (point);
DERIVE SELF\\point.x : distance := 0.0; END_ENTITY;
ENTITY cloud; members : SET OF point; sizes : BAG OF BAG OF REAL;
values : LIST [1:3] OF UNIQUE item; END_ENTITY;
END_SCHEMA;
";

/// Names with a text that is looked up by each.
type Texts = &'static [(&'static str, &'static str)];

/// Names with a number that is looked up by each, if there is one.
type Numbers = &'static [(&'static str, Option<u32>)];

/// Names with a fact that is looked up by each.
type Facts = &'static [(&'static str, bool)];

/// Pairs of names with a fact that is looked up by each.
type PairFacts = &'static [(&'static str, &'static str, bool)];

/// The names of entities, a place, as an entity and the number of its attribute, and what may stand there.
type PlaceTexts = &'static [(&'static str, &'static str, u32, &'static str)];

/// Rows of one kind. Several names or entities stand in one text, with a blank between each two.
#[derive(Clone, Copy)]
enum Rows {
    // The name of the schema and how many entities and types it has.
    Schema(&'static [(&'static str, usize, usize)]),
    // The number of an entity, and whether it is abstract.
    Entities(Numbers),
    Abstract(Facts),
    // Whether an entity is another one or a subtype of it.
    IsA(PairFacts),
    // The entities of an order, the leaves of a set, and whether a set clashes.
    Orders(Texts),
    Leaves(Texts),
    Clashes(Facts),
    // Whether an entity is abstract, and whether the set of it and its supertypes leaves something open or clashes.
    Lacks(&'static [(&'static str, [bool; 3])]),
    // The places of an entity, and what may stand at one in a set, or in the set of an entity and its supertypes.
    Places(Texts),
    PlaceTypes(PlaceTexts),
    OwnTypes(PlaceTexts),
    // Whether any entity derives an attribute, by its entity and its number.
    Derived(&'static [(&'static str, u32, bool)]),
    // Whether there is a type of a name, what it is, and what it comes down to.
    Types(Facts),
    Kinds(Texts),
    Bases(Texts),
    // Whether a select offers E, and whether it offers a type.
    OffersEntity(Facts),
    OffersType(PairFacts),
}

/// What a row begins with and what else names it: none where each row is as it says.
type Wrong = Option<(&'static str, &'static str)>;

fn first_wrong_row(alloc: Global, schema: &Schema, rows: Rows) -> Wrong {
    match rows {
        Rows::Schema(rows) => entities::wrong_schema(schema, rows),
        Rows::Entities(rows) => entities::wrong_number(schema, rows),
        Rows::Abstract(rows) => entities::wrong_abstract(schema, rows),
        Rows::IsA(rows) => entities::wrong_is_a(schema, rows),
        Rows::Orders(rows) => entities::wrong_order(schema, rows),
        Rows::Leaves(rows) => entities::wrong_leaves(alloc, schema, rows),
        Rows::Clashes(rows) => entities::wrong_clash(alloc, schema, rows),
        Rows::Lacks(rows) => entities::wrong_lack(schema, rows),
        Rows::Places(rows) => places::wrong_places(schema, rows),
        Rows::PlaceTypes(rows) => places::wrong_type(alloc, schema, rows),
        Rows::OwnTypes(rows) => places::wrong_own_type(alloc, schema, rows),
        Rows::Derived(rows) => places::wrong_derived(schema, rows),
        Rows::Types(rows) => types::wrong_name(schema, rows),
        Rows::Kinds(rows) => types::wrong_kind(alloc, schema, rows),
        Rows::Bases(rows) => types::wrong_base(alloc, schema, rows),
        Rows::OffersEntity(rows) => types::wrong_entity_offered(schema, rows),
        Rows::OffersType(rows) => types::wrong_type_offered(schema, rows),
    }
}

/// The first row that isn't as it says, of what is looked up in a schema.
fn first_wrong(alloc: Global, text: &str, rows: Rows) -> Wrong {
    match read_schema(alloc, text.as_bytes()) {
        Ok(schema) => first_wrong_row(alloc, &schema, rows),
        Err(fault) => Some(("the schema is refused", fault.name())),
    }
}

/// Fails where a row isn't as it says.
fn check(rt: &impl Abort, alloc: Global, text: &str, rows: Rows) {
    assert_eq!(*rt; first_wrong(alloc, text, rows), None);
}

/// The entity of this name.
fn entity_named(schema: &Schema, name: &str) -> Option<EntityId>
    ensures { IfSome result (λ entity. IsEntity schema.now entity.0) }
{
    match schema.entity(name.as_bytes()) {
        Some(entity) => {
            if (entity.0 as usize) < schema.entities() {
                Some(entity)
            } else {
                None
            }
        }
        None => None,
    }
}

/// The entities of these names.
fn entities_named(alloc: Global, schema: &Schema, names: &str) -> Result<Vec<EntityId>, SchemaFault>
    ensures { IfOk result (λ entities. AreEntities schema.now (numbers entities.items)) }
{
    let mut entities = Vec::new(alloc);
    for name in names.split_whitespace() {
        match entity_named(schema, name) {
            Some(entity) => entities.push(entity)?,
            None => return Err(SchemaFault::UnknownName),
        }
    }
    Ok(entities)
}

/// The type of this name.
fn type_named(schema: &Schema, name: &str) -> Option<TypeId>
    ensures { IfSome result (λ of. IsType schema.now of.0) }
{
    match schema.type_named(name.as_bytes()) {
        Some(of) => {
            if (of.0 as usize) < schema.types() {
                Some(of)
            } else {
                None
            }
        }
        None => None,
    }
}

/// The attribute of an entity with this number.
fn place_named(schema: &Schema, entity: &str, index: u32) -> Option<Place>
    ensures { IfSome result (λ place. IsPlace schema.now (place_of place)) }
{
    match entity_named(schema, entity) {
        Some(entity) => {
            if index < schema.attribute_count(entity) {
                Some(Place { entity, index })
            } else {
                None
            }
        }
        None => None,
    }
}

/// Whether an entity has this name.
fn is_named(schema: &Schema, entity: EntityId, name: &str) -> bool {
    (entity.0 as usize) < schema.entities() && schema.entity_name(entity) == name.as_bytes()
}

/// Whether these are the names of entities.
fn are_named(schema: &Schema, entities: &[EntityId], names: &str) -> bool {
    let mut left = names.split_whitespace();
    for entity in entities {
        match left.next() {
            Some(name) => {
                if !is_named(schema, *entity, name) {
                    return false;
                }
            }
            None => return false,
        }
    }
    left.next().is_none()
}

/// Whether this is how a value is printed to debug.
fn is_printed<T: Debug>(alloc: Global, value: &T, wanted: &str) -> bool {
    match format!(in alloc; "{value:?}") {
        Ok(text) => text.as_str() == wanted,
        Err(_) => false,
    }
}
