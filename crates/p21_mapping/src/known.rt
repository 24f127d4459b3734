//! Records of internal form whose entity has a large set, or many places, refused at the cost of the record.
//!
//! `check_owned_record` walks the set of an entity for each of its records and looks at its places, and makes a row for
//! each entity of it. Where records are refused and the reading goes on, that would cost as much as records times
//! entities, or times places: a record may have fewer values than that. So what all records of an entity have in common
//! is found once (`Known`): why they are refused, or how many places there are, and behind the first record of as many
//! values what may stand at each, so that the entities that declare no place aren't walked either. So no more is kept
//! than records have values. What is known borrows of the schema and stays with it: the model of `KnownEntities` is that
//! schema, and that all is right for it is its invariant. So no caller owes a clause.
//!
//! A record is refused here as by `check_owned_record`, in the same order; one that isn't refused, one of external form
//! and one whose set is small are left to it.
ghost use Rattle.std.specs.Prelude.{◌≡◌, IfErr, IfOk, IfSome, length, map};
ghost use Rattle.std.specs.List.{AllByRecursion as Each};
ghost use Rattle.p21_express_graph.specs.Meaning.{place_type};
ghost use Rattle.p21_express_graph.specs.Resolved.{IsEntity};
ghost use Rattle.p21_grammar_tree.specs.View.{part_view, record_view};
ghost use Rattle.p21_mapping.specs.Known.{AreOwnTypes, IsKnown, RefusesParams};
ghost use Rattle.p21_mapping.specs.Outcome.{IsStoredIn};
ghost use Rattle.p21_mapping.specs.Rows.{param_views};
ghost use Rattle.p21_mapping.specs.Shape.{PassesOwnSet, Refuses};
ghost use Rattle.p21_spec_exchange.specs.Record.{simple};
ghost use Rattle.p21_spec_file.specs.Meaning.{NamesEntity};

use crate::key::named;
use crate::param::copied_param;
use crate::place::fit_place;
use crate::shape::check_own_set;
use crate::trail::Trail;
use p21_express_graph::{EntityId, PlaceType};
use p21_grammar_tree::{CheckFault, Param, Part, Record};
use p21_schema::Schema;
use p21_values::NoMemory;
use std::alloc::Global;
use std::collections::BTreeMap;
use std::marker::Model;

/// A set is walked for each of its records where that takes at most so many steps: one for each entity, and at each place as
/// many as there are entities.
const MOST_STEPS: usize = 256;

/// What is known of the records of internal form of entities with large sets, under one schema.
pub struct KnownEntities<'a> {
    alloc: Global,
    schema: &'a Schema,
    all: Vec<KnownEntity<'a>>,
    // Where an entity stands among them, by its number. It is held against the entity there before it counts.
    numbers: BTreeMap<u32, usize>,
}

/// An entity, and what is known of its records.
#[derive(Drop)]
struct KnownEntity<'a> {
    entity: EntityId,
    known: Known<'a>,
}

/// What all records of internal form of an entity have in common.
#[derive(Drop)]
enum Known<'a> {
    /// They are refused.
    Refused(CheckFault),
    /// So many places, with whatever may stand there.
    Counted(usize),
    /// What may stand at their places, in the order of internal mapping.
    Places(Vec<PlaceType<'a>>),
}

// Written out: crates above call it, where they would prove a derived one field by field.
impl<'a> Drop for KnownEntities<'a> {
    fn drop(self) {
        let KnownEntities {
            alloc: _,
            schema: _,
            all: _,
            numbers: _,
        } = self;
    }
}

impl<'a> Model for KnownEntities<'a> {
    ghost use Rattle.p21_schema.specs.Coding.{schema_code};
    ghost use Rattle.p21_mapping.specs.Known.{AreKnown};
    ghost use Rattle.p21_spec_schema.specs.Schema.{Schema as Meant};

    ghost Value = { Meant };

    ghost coded = { schema_code };

    ghost view = { λ known. known.schema.now };

    ghost invariant = { λ known. AreKnown known.schema.now known.all.items };
}

impl<'a> KnownEntities<'a> {
    /// Nothing is known of the entities of the schema. It takes no memory.
    pub fn new(alloc: Global, schema: &'a Schema) -> KnownEntities<'a>
        ensures { result ≡ schema.now }
    {
        KnownEntities {
            alloc,
            schema,
            all: Vec::new(alloc),
            numbers: BTreeMap::new(alloc),
        }
    }

    /// Why a record is refused, where it is of internal form and its entity has a large set: the first of the faults of
    /// `check_owned_record`, or `NoMemory`. None where the record isn't refused, or isn't such a one. What is found of the
    /// entity is known from then on.
    pub fn refusal(&mut self, of: &Record) -> Option<CheckFault>
        ensures refuses { IfSome result (Refuses self.old (record_view of.now)) }
        ensures schema { self.new ≡ self.old }
    {
        match of {
            Record::Simple(part) => self.own_refusal(part),
            Record::Complex(_) => None,
        }
    }

    /// The same of a record of internal form.
    fn own_refusal(&mut self, part: &Part) -> Option<CheckFault>
        ensures refuses { IfSome result (Refuses self.old (simple (part_view part.now))) }
        ensures schema { self.new ≡ self.old }
    {
        let schema = self.schema();
        let entity = named(schema, &part.key)?;
        if is_small(schema, entity) {
            return None;
        }
        let Ok(()) = self.learn(entity, part.params.items().len()) else {
            return Some(CheckFault::NoMemory);
        };
        let known = self.find(entity)?;
        refusal_by(schema, entity, known, part)
    }

    /// The schema of the entities.
    fn schema(&self) -> &'a Schema
        ensures { result.now ≡ self.now }
    {
        self.schema
    }

    /// What is known of the records of an entity, if anything is.
    fn find(&self, entity: EntityId) -> Option<&Known<'a>>
        ensures { IfSome result (λ known. IsKnown self.now entity.0 known.now) }
    {
        let number = *self.numbers.get(&entity.0)?;
        let found = self.all.get(number)?;
        if found.entity.0 != entity.0 {
            return None;
        }
        Some(&found.known)
    }

    /// Has it known what the records of an entity with so many parameters have in common.
    fn learn(&mut self, entity: EntityId, params: usize) -> Result<(), NoMemory>
        requires { IsEntity self.old entity.0 }
        ensures { self.new ≡ self.old }
    {
        if let Some(known) = self.find(entity) {
            if known.is_enough(params) {
                return Ok(());
            }
        }
        let known = find_known(self.alloc, self.schema, entity, params)?;
        let Ok(_) = self.numbers.insert(entity.0, self.all.len()) else {
            return Err(NoMemory);
        };
        self.all.push(KnownEntity { entity, known })?;
        Ok(())
    }
}

impl<'a> Known<'a> {
    /// Whether no more needs to be known of a record with so many parameters. Nothing is claimed of it.
    fn is_enough(&self, params: usize) -> bool {
        match self {
            Known::Refused(_) => true,
            Known::Counted(places) => *places != params,
            Known::Places(_) => true,
        }
    }
}

/// Whether the set of an entity and its supertypes is small enough to be walked for each of its records. Nothing is claimed
/// of it.
fn is_small(schema: &Schema, entity: EntityId) -> bool
    requires { IsEntity schema.now entity.0 }
{
    schema.holds_together();
    let order = schema.order_of(entity);
    if order.len() > MOST_STEPS {
        return false;
    }
    let mut places: usize = 0;
    for owner in order {
        places = places.saturating_add(schema.attribute_count(*owner) as usize);
    }
    order.len().saturating_mul(places.saturating_add(1)) <= MOST_STEPS
}

/// What the records of internal form of an entity with so many parameters have in common.
fn find_known<'a>(
    alloc: Global,
    schema: &'a Schema,
    entity: EntityId,
    params: usize,
) -> Result<Known<'a>, NoMemory>
    requires { IsEntity schema.now entity.0 }
    ensures { IfOk result (IsKnown schema.now entity.0) }
{
    match check_own_set(schema, entity) {
        Ok(()) => find_places(alloc, schema, entity, params),
        Err(fault) => Ok(Known::Refused(fault)),
    }
}

/// How many places there are in an instance whose set is an entity and its supertypes; and where they are so many, what may
/// stand there.
fn find_places<'a>(
    alloc: Global,
    schema: &'a Schema,
    entity: EntityId,
    params: usize,
) -> Result<Known<'a>, NoMemory>
    requires entity { IsEntity schema.now entity.0 }
    requires passes { PassesOwnSet schema.now entity.0 }
    ensures { IfOk result (IsKnown schema.now entity.0) }
{
    let places = schema.places(entity)?;
    if places.len() != params {
        return Ok(Known::Counted(places.len()));
    }
    let types = own_types(alloc, schema, entity)?;
    Ok(Known::Places(types))
}

/// What may stand at the places of an instance whose set is an entity and its supertypes, in the order of internal mapping.
fn own_types<'a>(
    alloc: Global,
    schema: &'a Schema,
    entity: EntityId,
) -> Result<Vec<PlaceType<'a>>, NoMemory>
    requires { IsEntity schema.now entity.0 }
    ensures { IfOk result (λ types. AreOwnTypes schema.now entity.0 (map place_type types.items)) }
{
    schema.holds_together();
    let places = schema.places(entity)?;
    let mut types = Vec::with_capacity(alloc, places.len())?;
    for index in 0..places.len() {
        types.push(schema.own_type(entity, places[index]))?;
    }
    Ok(types)
}

/// Why a record of internal form is refused, by what is known of its entity; none where it isn't.
fn refusal_by(
    schema: &Schema,
    entity: EntityId,
    known: &Known<'_>,
    part: &Part,
) -> Option<CheckFault>
    requires named { NamesEntity schema.now (part_view part.now).key entity.0 }
    requires known { IsKnown schema.now entity.0 known.now }
    ensures { IfSome result (Refuses schema.now (simple (part_view part.now))) }
{
    schema.holds_together();
    match known {
        Known::Refused(fault) => Some(*fault),
        Known::Counted(places) => {
            if *places == part.params.items().len() {
                return None;
            }
            Some(CheckFault::Count)
        }
        Known::Places(types) => {
            let params = part.params.items();
            if types.len() != params.len() {
                return Some(CheckFault::Count);
            }
            match check_each(*types.allocator(), schema, types, params) {
                Ok(()) => None,
                Err(fault) => Some(fault),
            }
        }
    }
}

/// Checks as many parameters as places by what may stand there.
fn check_each(
    alloc: Global,
    schema: &Schema,
    types: &[PlaceType<'_>],
    params: &[Param],
) -> Result<(), CheckFault>
    requires stored { Each (IsStoredIn schema.now) (map place_type types.now) }
    requires each { length types.now ≡ length params.now }
    ensures { IfErr result (RefusesParams schema.now (map place_type types.now) (param_views params.now)) }
{
    let mut needs = Vec::new(alloc);
    let mut trail = Trail::new();
    for index in 0..types.len() {
        let at = same_type(&types[index]);
        let param = copied_param(alloc, &params[index])?;
        match fit_place(alloc, schema, at, param, &mut needs, &mut trail) {
            Ok(_) => {}
            Err(fault) => return Err(fault),
        }
    }
    Ok(())
}

/// What may stand at a place, once more.
fn same_type<'a>(at: &PlaceType<'a>) -> PlaceType<'a>
    ensures { place_type result ≡ place_type at.now }
{
    match at {
        PlaceType::Derived => PlaceType::Derived,
        PlaceType::Stored(optional, of) => PlaceType::Stored(*optional, of),
        PlaceType::Two => PlaceType::Two,
    }
}
