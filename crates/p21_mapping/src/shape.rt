//! Why the set of an entity is refused is asked in the order of the refusals, and the set is walked for the last reason
//! alone, so that a record of an abstract entity, or one of a set that clashes, costs no walk. A set whose places stay
//! open is walked each time; `KnownEntities` remembers it where that is large.
ghost use Rattle.std.specs.Prelude.{◌≡◌, ℕ, Contains, MatchBool, MatchResult, IfOk};
ghost use Rattle.p21_spec_exchange.specs.Record.{simple, complex};
ghost use Rattle.p21_express_graph.specs.Lookups.{AreEntities};
ghost use Rattle.p21_express_graph.specs.Orders.{numbers};
ghost use Rattle.p21_express_graph.specs.Resolved.{IsEntity};
ghost use Rattle.p21_grammar_tree.specs.View.{part_view, part_views, record_view};
ghost use Rattle.p21_spec_schema.specs.Schema.{IsAbstract};
ghost use Rattle.p21_spec_schema.specs.WellFormed.{IsWellFormed};
ghost use Rattle.p21_mapping.specs.Shape.{AreMembers, HasSomeAbstractLeaf, HasNoAbstractLeaf, IsShape, PassesOwnSet, PassesSet, Refuses, RefusesMembers, RefusesOwnSet, RefusesSet, listed_in, own_of, AreListed};

use crate::key::{named, named_entities};
use crate::members::{has_twice, is_closed};
use crate::places::{has_count, has_open_place, have_counts};
use crate::positions::Positions;
use p21_express_graph::EntityId;
use p21_grammar_tree::{CheckFault, Part, Record};
use p21_schema::{Ids, Schema};
use p21_values::NoMemory;
use std::alloc::Global;

/// The entities whose places the parameters of a record stand at, in their order.
#[derive(Debug, Drop)]
pub enum Listed {
    /// In internal mapping those of the order of the entity that the keyword names.
    Order(EntityId),
    /// In external mapping those that the keywords name.
    Named(Vec<EntityId>),
}

impl Listed {
    /// The entities. It takes no memory.
    pub(crate) fn entities<'a>(&'a self, schema: &'a Schema) -> &'a [EntityId]
        requires { AreListed schema.now self.now }
        ensures { numbers result.now ≡ listed_in schema.now self.now }
    {
        match self {
            Listed::Order(entity) => schema.order_of(*entity),
            Listed::Named(entities) => entities,
        }
    }

    /// The entity whose closure the set is, where that is known.
    pub(crate) fn own(&self) -> Option<EntityId>
        ensures { result ≡ own_of self.now }
    {
        match self {
            Listed::Order(entity) => Some(*entity),
            Listed::Named(_) => None,
        }
    }
}

/// The entities of a record: those whose places its parameters stand at, and its set, rising by keyword.
#[derive(Drop)]
pub struct Shape<'a> {
    pub listed: Listed,
    pub entities: Ids<'a>,
}

/// The entities of a record, where nothing is wrong with them, nor with the numbers of its parameters.
///
/// # Errors
///
/// In this order: `UnknownEntity`, `PartTwice`, `PartMissing`, `Abstract`, `OneOf`, `TwoRedeclarations`, `Count`.
/// `NoMemory`.
pub(crate) fn shape_of<'a>(
    alloc: Global,
    schema: &'a Schema,
    of: &Record,
) -> Result<Shape<'a>, CheckFault>
    requires { IsWellFormed schema.now }
    ensures { MatchResult result (IsShape schema.now (record_view of.now)) (Refuses schema.now (record_view of.now)) }
{
    match of {
        Record::Simple(part) => simple_shape(schema, part),
        Record::Complex(parts) => complex_shape(alloc, schema, parts.items()),
    }
}

fn simple_shape<'a>(schema: &'a Schema, part: &Part) -> Result<Shape<'a>, CheckFault>
    requires { IsWellFormed schema.now }
    ensures { MatchResult result (IsShape schema.now (simple (part_view part.now))) (Refuses schema.now (simple (part_view part.now))) }
{
    let Some(entity) = named(schema, &part.key) else {
        return Err(CheckFault::UnknownEntity);
    };
    schema.holds_together();
    match check_own_set(schema, entity) {
        Ok(()) => {}
        Err(fault) => return Err(fault),
    }
    let listed = schema.order_of(entity);
    if !has_count(schema, listed, part.params.items().len()) {
        return Err(CheckFault::Count);
    }
    let entities = schema.own_rising(entity)?;
    Ok(Shape {
        listed: Listed::Order(entity),
        entities,
    })
}

/// The entity isn't abstract, no two entities of its closure are of one ONEOF list, and no place of that is open.
pub(crate) fn check_own_set(schema: &Schema, entity: EntityId) -> Result<(), CheckFault>
    requires { IsEntity schema.now entity.0 }
    ensures { MatchResult result (λ _. PassesOwnSet schema.now entity.0) (RefusesOwnSet schema.now entity.0) }
{
    if schema.is_abstract(entity) {
        return Err(CheckFault::Abstract);
    }
    if schema.own_clashes(entity) {
        return Err(CheckFault::OneOf);
    }
    if schema.leaves_open(entity) {
        return Err(CheckFault::TwoRedeclarations);
    }
    Ok(())
}

fn complex_shape<'a>(
    alloc: Global,
    schema: &'a Schema,
    parts: &[Part],
) -> Result<Shape<'a>, CheckFault>
    requires { IsWellFormed schema.now }
    ensures { MatchResult result (IsShape schema.now (complex (part_views parts.now))) (Refuses schema.now (complex (part_views parts.now))) }
{
    let listed = named_entities(alloc, schema, parts)?;
    check_members(alloc, schema, &listed)?;
    let entities = schema.rising(&listed)?;
    let found = has_abstract_leaf(schema, &entities)?;
    if found {
        return Err(CheckFault::Abstract);
    }
    match check_set(alloc, schema, &entities) {
        Ok(()) => {}
        Err(fault) => return Err(fault),
    }
    if !have_counts(schema, &listed, parts) {
        return Err(CheckFault::Count);
    }
    Ok(Shape {
        listed: Listed::Named(listed),
        entities: Ids::from_vec(entities),
    })
}

/// Checks that no entity stands twice, and that all supertypes are there.
///
/// # Errors
///
/// In this order: `PartTwice`, `PartMissing`. `NoMemory`.
pub fn check_members(alloc: Global, schema: &Schema, listed: &[EntityId]) -> Result<(), CheckFault>
    requires { AreEntities schema.now (numbers listed.now) }
    ensures { MatchResult result (λ _. AreMembers schema.now (numbers listed.now)) (RefusesMembers schema.now (numbers listed.now)) }
{
    let positions = Positions::of(alloc, listed)?;
    if has_twice(&positions) {
        return Err(CheckFault::PartTwice);
    }
    if !is_closed(schema, &positions) {
        return Err(CheckFault::PartMissing);
    }
    Ok(())
}

/// Checks that no two entities of the set are of one ONEOF list, and that no place of it is open.
///
/// # Errors
///
/// In this order: `OneOf`, `TwoRedeclarations`. `NoMemory`.
pub fn check_set(alloc: Global, schema: &Schema, entities: &[EntityId]) -> Result<(), CheckFault>
    requires { AreEntities schema.now (numbers entities.now) }
    ensures { MatchResult result (λ _. PassesSet schema.now (numbers entities.now)) (RefusesSet schema.now (numbers entities.now)) }
{
    let clashes = schema.find_clash(entities)?;
    if clashes {
        return Err(CheckFault::OneOf);
    }
    let positions = Positions::of(alloc, entities)?;
    let found = has_open_place(alloc, schema, &positions)?;
    if found {
        return Err(CheckFault::TwoRedeclarations);
    }
    Ok(())
}

/// Whether a leaf of the set is abstract.
///
/// # Errors
///
/// `NoMemory`.
pub fn has_abstract_leaf(schema: &Schema, entities: &[EntityId]) -> Result<bool, NoMemory>
    requires { AreEntities schema.now (numbers entities.now) }
    ensures { IfOk result (λ found. MatchBool found (HasSomeAbstractLeaf schema.now (numbers entities.now))
        (HasNoAbstractLeaf schema.now (numbers entities.now))) }
{
    let leaves = schema.leaves(entities)?;
    Ok(has_abstract(schema, &leaves))
}

/// Whether one of the entities is abstract.
fn has_abstract(schema: &Schema, entities: &[EntityId]) -> bool
    requires { AreEntities schema.now (numbers entities.now) }
    ensures { MatchBool result ((e : ℕ) × Contains (numbers entities.now) e × IsAbstract schema.now e)
        ((e : ℕ) → Contains (numbers entities.now) e → IsAbstract schema.now e → ⊥) }
{
    for entity in entities {
        if schema.is_abstract(*entity) {
            return true;
        }
    }
    false
}
