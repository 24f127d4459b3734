//! What decides at a redeclared place is kept for no entity, but looked up by the place, so that an entity that only
//! inherits redeclarations costs nothing. Of the entities that redeclare the place and those of the closure the fewer
//! are looked at: a place that many siblings redeclare costs as much as the closure is deep, and a place that one of a
//! long chain redeclares costs one step. Where one entity alone redeclares a place, it decides where it is a supertype,
//! which is mostly seen by two comparisons: the orders of both are fronts of one run, and its own is no longer. The
//! entities that redeclare a place stand in a table, by the entity that declares it and its number there; whether one
//! of them derives it, and where in a list it redeclares it, is found in a tree by the place. A decision says which
//! entity, and which of its redeclarations, and no type is copied. Whether a closure leaves a place open is found in
//! the same way, place by place, where it is asked for: an instance writes at least two bytes for each place. In a set
//! that is no closure the fewer are looked at too: of the entities that redeclare the place those count that are in the
//! set, which is seen in a tree where it has more than 16 (`type_among`). So a record with many parts, each of which
//! redeclares one attribute of another, costs a look-up for each and no walk. The shorter way has no such tree: it
//! leaves an instance to the general way where such a set redeclares the attribute.
ghost use Rattle.std.specs.Prelude.{◌≡◌, ◌≢◌, ◌++◌, ◌∷◌, [], ◌<◌, ◌≤◌, ◌^◌, ℕ, length, map, slice_get, Contains, IfOk, OnOk, Some};
ghost use Rattle.p21_spec_schema.specs.Schema.{Entity as MeantEntity, Place as MeantPlace, Schema as Meant};
ghost use Rattle.p21_express_graph.specs.Meaning.{place as place_of};
ghost use Rattle.p21_express_graph.specs.Orders.{numbers};
ghost use Rattle.p21_express_graph.specs.SchemaContents.{schema_of, entity as entity_of};
ghost use Rattle.p21_express_graph.specs.Resolved.{HoldsTogether, IsEntity};
ghost use Rattle.p21_schema.specs.Redeclarers.{AddsRedeclarer, AreNone, ArePlacesOf, ArePlacesOfEach, AreRedeclared, AreRedeclarers, AreRedeclarersOf, RedeclaresPlace, items_at, places_redeclared, redeclarers_in};

use crate::place_positions::{PlacePositions, places_of};
use crate::schema::Schema;
use p21_express_graph::{Entity, EntityId, Place, SchemaContents};
use p21_values::NoMemory;
use std::alloc::Global;

/// The places that entities redeclare.
#[derive(Drop)]
pub(crate) struct RedeclaredPlaces {
    pub(crate) of_each: Vec<EntityPlaces>,
    pub(crate) redeclarers: Redeclarers,
}

/// Where in the lists of an entity the places stand that it redeclares, as explicit and as derived attributes.
#[derive(Drop)]
pub(crate) struct EntityPlaces {
    pub(crate) redeclared: PlacePositions,
    pub(crate) derived: PlacePositions,
}

/// For each place that is redeclared, the entities that do so.
#[derive(Drop)]
pub(crate) struct Redeclarers {
    alloc: Global,
    // By the entity that declares a place, and then by its number there; nothing stands behind the last one with entities.
    of_owners: Vec<Vec<Vec<EntityId>>>,
}

impl Schema {
    /// The entities that redeclare a place, as an explicit or as a derived attribute (ISO 10303-11, Attribute redeclaration).
    /// It takes no memory.
    pub fn redeclarers_of(&self, place: Place) -> &[EntityId]
        ensures all { (e : ℕ) → RedeclaresPlace self.now e (place_of place) → Contains (numbers result.now) e }
        ensures within { (e : ℕ) → Contains (numbers result.now) e → IsEntity self.now e }
    {
        self.tables.redeclared.redeclarers.of(place)
    }

    /// Where in its lists the places stand that an entity redeclares.
    pub(crate) fn places_redeclared(&self, entity: EntityId) -> &EntityPlaces
        requires { IsEntity self.now entity.0 }
        ensures { (x : MeantEntity) → slice_get self.now.entities entity.0 ≡ Some x → ArePlacesOf x result.now }
    {
        &self.tables.redeclared.of_each[entity.0 as usize]
    }
}

impl Redeclarers {
    fn new(alloc: Global) -> Redeclarers
        ensures { AreNone result }
    {
        Redeclarers {
            alloc,
            of_owners: Vec::new(alloc),
        }
    }

    /// The entities that redeclare a place.
    fn of(&self, place: Place) -> &[EntityId]
        ensures { numbers result.now ≡ redeclarers_in self.now (place_of place) }
    {
        match self.of_owners.get(place.entity.0 as usize) {
            Some(places) => entities_at(places, place.index),
            None => &[],
        }
    }

    /// Adds an entity that redeclares a place.
    fn add(&mut self, entity: EntityId, place: Place) -> Result<(), NoMemory>
        ensures { OnOk result (AddsRedeclarer entity.0 (place_of place ∷ []) self.old self.new) }
    {
        let owner = place.entity.0 as usize;
        reach(self.alloc, owner, &mut self.of_owners)?;
        add_at(self.alloc, place.index, entity, &mut self.of_owners[owner])?;
        Ok(())
    }

    /// Adds an entity that redeclares places.
    fn add_all(&mut self, entity: EntityId, places: &[Place]) -> Result<(), NoMemory>
        ensures { OnOk result (AddsRedeclarer entity.0 (map place_of places.now) self.old self.new) }
    {
        for place in places {
            self.add(entity, *place)?;
        }
        Ok(())
    }

    /// Adds an entity at all places that it redeclares.
    fn add_entity(&mut self, number: EntityId, entity: &Entity) -> Result<(), NoMemory>
        ensures { OnOk result (AddsRedeclarer number.0 (places_redeclared (entity_of entity.now)) self.old self.new) }
    {
        let redeclared = places_of(self.alloc, &entity.redeclared)?;
        self.add_all(number, &redeclared)?;
        self.add_all(number, &entity.derived)?;
        Ok(())
    }
}

/// The entities at an index; none behind the last list.
fn entities_at(lists: &[Vec<EntityId>], index: u32) -> &[EntityId]
    ensures { result.now ≡ items_at lists.now index }
{
    match lists.get(index as usize) {
        Some(entities) => entities,
        None => &[],
    }
}

/// Adds an entity at an index.
fn add_at(
    alloc: Global,
    index: u32,
    entity: EntityId,
    lists: &mut Vec<Vec<EntityId>>,
) -> Result<(), NoMemory>
    ensures there { OnOk result (items_at lists.new.items index ≡ items_at lists.old.items index ++ entity ∷ []) }
    ensures others { OnOk result ((k : ℕ) → k ≢ index → items_at lists.new.items k ≡ items_at lists.old.items k) }
{
    let at = index as usize;
    reach(alloc, at, lists)?;
    lists[at].push(entity)?;
    Ok(())
}

/// Appends empty lists until there is one at an index.
fn reach<T: Drop>(alloc: Global, index: usize, lists: &mut Vec<Vec<T>>) -> Result<(), NoMemory>
    ensures there { OnOk result (index < length lists.new.items) }
    ensures same { OnOk result ((k : ℕ) → items_at lists.new.items k ≡ items_at lists.old.items k) }
{
    while lists.len() <= index {
        lists.push(Vec::new(alloc))?;
    }
    Ok(())
}

/// The places that the entities of a schema redeclare.
pub(crate) fn all_redeclared(
    alloc: Global,
    parts: &SchemaContents,
) -> Result<RedeclaredPlaces, NoMemory>
    requires { HoldsTogether (schema_of parts.now) }
    ensures { IfOk result (AreRedeclared (schema_of parts.now)) }
{
    let of_each = places_of_each(alloc, &parts.entities)?;
    let redeclarers = all_redeclarers(alloc, &parts.entities)?;
    Ok(RedeclaredPlaces {
        of_each,
        redeclarers,
    })
}

fn places_of_each(alloc: Global, entities: &[Entity]) -> Result<Vec<EntityPlaces>, NoMemory>
    ensures { IfOk result (λ of_each. ArePlacesOfEach (map entity_of entities.now) of_each.items) }
{
    let mut of_each = Vec::with_capacity(alloc, entities.len())?;
    for entity in entities {
        let entity: &Entity = entity;
        of_each.push(places_of_entity(alloc, entity)?)?;
    }
    Ok(of_each)
}

fn places_of_entity(alloc: Global, entity: &Entity) -> Result<EntityPlaces, NoMemory>
    ensures { IfOk result (ArePlacesOf (entity_of entity.now)) }
{
    let places = places_of(alloc, &entity.redeclared)?;
    let redeclared = PlacePositions::of(alloc, &places)?;
    let derived = PlacePositions::of(alloc, &entity.derived)?;
    Ok(EntityPlaces {
        redeclared,
        derived,
    })
}

fn all_redeclarers(alloc: Global, entities: &[Entity]) -> Result<Redeclarers, NoMemory>
    requires { length entities.now ≤ 2 ^ 32 }
    ensures { IfOk result (λ redeclarers. AreRedeclarersOf (map entity_of entities.now) redeclarers) }
{
    let mut redeclarers = Redeclarers::new(alloc);
    for number in 0..entities.len() {
        redeclarers.add_entity(EntityId(number as u32), &entities[number])?;
    }
    Ok(redeclarers)
}
