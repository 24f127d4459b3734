//! The attribute that a redeclaration names is looked up in the names of its entity, where that has more than 16
//! attributes, and else one after another. If the named supertype doesn't declare it itself, its owner is sought: each
//! name that the text redeclares has the list of the entities that declare an attribute of that name, and of these and
//! the supertype's closure the fewer are asked. Names and lists are kept only while redeclarations are resolved.
ghost use Rattle.std.specs.Prelude.{◌≡◌, IfOk, MatchOption};
ghost use Rattle.p21_spec_schema.specs.Redeclaration.{IsOwnPlace};
ghost use Rattle.p21_spec_schema.specs.Schema as pure;
ghost use Rattle.p21_express.specs.AttributeNames.{AreNamesOf, IsKept, own_names};
ghost use Rattle.p21_express.specs.Found.{HasDistinctAttributes};
ghost use Rattle.p21_express_graph.specs.Resolved.{IsEntity};
ghost use Rattle.p21_express_graph.specs.Meaning.{place as place_of};

use crate::named_owners::NamedOwners;
use p21_express_graph::{EntityId, Names, Place};
use p21_express_syntax::Entity;
use p21_schema::Hierarchy;
use p21_values::NoMemory;
use std::alloc::Global;

/// So many attributes of an entity are looked at one by one.
const MOST_ATTRIBUTES_IN_TURN: u32 = 16;

/// For each entity of a hierarchy the names of the attributes that it declares itself, where these are many; and for each name
/// that is redeclared the entities that declare an attribute of it.
#[derive(Drop)]
pub(crate) struct AttributeNames {
    of_each: Vec<Option<Names>>,
    pub(crate) owners: NamedOwners,
}

impl AttributeNames {
    pub(crate) fn of(
        alloc: Global,
        hierarchy: &Hierarchy,
        declared: &[Entity],
    ) -> Result<AttributeNames, NoMemory>
        requires { HasDistinctAttributes hierarchy.now }
        ensures { IfOk result (AreNamesOf hierarchy.now) }
    {
        hierarchy.holds_together();
        let mut of_each = Vec::with_capacity(alloc, hierarchy.entities())?;
        for number in 0..hierarchy.entities() {
            let names = many_names(alloc, hierarchy, EntityId(number as u32))?;
            of_each.push(names)?;
        }
        let owners = NamedOwners::of(alloc, hierarchy, declared)?;
        Ok(AttributeNames { of_each, owners })
    }

    /// The place of this name, in upper case, that an entity declares itself.
    pub(crate) fn own_place(
        &self,
        hierarchy: &Hierarchy,
        entity: EntityId,
        name: &[u8],
    ) -> Option<Place>
        requires names { AreNamesOf hierarchy.now self.now }
        requires entity { IsEntity hierarchy.now entity.0 }
        ensures { MatchOption result ((place : pure.Place) → IsOwnPlace hierarchy.now entity.0 name.now place → ⊥)
            (λ place. IsOwnPlace hierarchy.now entity.0 name.now (place_of place)) }
    {
        match self.of_each.get(entity.0 as usize) {
            Some(kept) => kept_place(hierarchy, entity, kept, name),
            None => listed_place(hierarchy, entity, name),
        }
    }
}

/// The same, where these names are kept.
fn kept_place(
    hierarchy: &Hierarchy,
    entity: EntityId,
    kept: &Option<Names>,
    name: &[u8],
) -> Option<Place>
    requires kept { IsKept hierarchy.now entity.0 kept.now }
    requires entity { IsEntity hierarchy.now entity.0 }
    ensures { MatchOption result ((place : pure.Place) → IsOwnPlace hierarchy.now entity.0 name.now place → ⊥)
        (λ place. IsOwnPlace hierarchy.now entity.0 name.now (place_of place)) }
{
    match kept {
        Some(names) => place_among(hierarchy, entity, names, name),
        None => listed_place(hierarchy, entity, name),
    }
}

/// The same by the names of all attributes.
fn place_among(hierarchy: &Hierarchy, entity: EntityId, names: &Names, name: &[u8]) -> Option<Place>
    requires names { names.now ≡ own_names hierarchy.now entity.0 }
    requires entity { IsEntity hierarchy.now entity.0 }
    ensures { MatchOption result ((place : pure.Place) → IsOwnPlace hierarchy.now entity.0 name.now place → ⊥)
        (λ place. IsOwnPlace hierarchy.now entity.0 name.now (place_of place)) }
{
    hierarchy.holds_together();
    match names.position(name) {
        Some(at) => Some(Place {
            entity,
            index: at as u32,
        }),
        None => None,
    }
}

/// The same, one attribute after another.
fn listed_place(hierarchy: &Hierarchy, entity: EntityId, name: &[u8]) -> Option<Place>
    requires { IsEntity hierarchy.now entity.0 }
    ensures { MatchOption result ((place : pure.Place) → IsOwnPlace hierarchy.now entity.0 name.now place → ⊥)
        (λ place. IsOwnPlace hierarchy.now entity.0 name.now (place_of place)) }
{
    let count = hierarchy.attribute_count(entity);
    for index in 0..count {
        let place = Place { entity, index };
        if hierarchy.place_name(place) == name {
            return Some(place);
        }
    }
    None
}

/// The names of an entity's attributes, where these are many.
fn many_names(
    alloc: Global,
    hierarchy: &Hierarchy,
    entity: EntityId,
) -> Result<Option<Names>, NoMemory>
    requires { IsEntity hierarchy.now entity.0 }
    ensures { IfOk result (IsKept hierarchy.now entity.0) }
{
    if hierarchy.attribute_count(entity) <= MOST_ATTRIBUTES_IN_TURN {
        return Ok(None);
    }
    all_names(alloc, hierarchy, entity)
}

/// The names of an entity's attributes.
fn all_names(
    alloc: Global,
    hierarchy: &Hierarchy,
    entity: EntityId,
) -> Result<Option<Names>, NoMemory>
    requires { IsEntity hierarchy.now entity.0 }
    ensures { IfOk result (IsKept hierarchy.now entity.0) }
{
    let mut names = Vec::new(alloc);
    for index in 0..hierarchy.attribute_count(entity) {
        names.push(hierarchy.place_name(Place { entity, index }))?;
    }
    Names::of(alloc, &names)
}
