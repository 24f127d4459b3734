ghost use Rattle.std.specs.Prelude.{◌≡◌, ◌≢◌, ◌↔◌, ℕ, IsTrue, MatchOption};
ghost use Rattle.p21_spec_schema.specs.Redeclaration.{IsOwnPlace, IsPlaceOf, IsProperSupertype};
ghost use Rattle.p21_spec_schema.specs.Schema as pure;
ghost use Rattle.p21_express.specs.AttributeNames.{AreNamesOf};
ghost use Rattle.p21_express.specs.Candidates.{AreCandidates, IsPlaceAbove};
ghost use Rattle.p21_express.specs.RedeclarationTarget.{IsTargetIn, IsTargetOf};
ghost use Rattle.p21_express_graph.specs.Orders.{numbers};
ghost use Rattle.p21_express_graph.specs.Resolved.{IsEntity};
ghost use Rattle.p21_express_graph.specs.Meaning.{place as place_of};

use crate::attribute_names::AttributeNames;
use p21_express_graph::{EntityId, Place};
use p21_schema::Hierarchy;

/// What `SELF\supertype.name` stands for in an entity (ISO 10303-11, Attribute redeclaration).
#[derive(Clone, Copy, Debug, Drop)]
pub(crate) enum RedeclarationTarget {
    /// The place that it redeclares.
    Place(Place),
    /// This proper supertype, which has no place of the name.
    Missing(EntityId),
    /// No proper supertype, or one with several places of the name and none of its own.
    Unclear,
}

/// The proper supertype of this name, in upper case.
fn proper_supertype(hierarchy: &Hierarchy, entity: EntityId, name: &[u8]) -> Option<EntityId>
    requires { IsEntity hierarchy.now entity.0 }
    ensures { MatchOption result ((sup : ℕ) → IsProperSupertype hierarchy.now entity.0 sup name.now → ⊥)
        (λ sup. IsProperSupertype hierarchy.now entity.0 sup.0 name.now) }
{
    hierarchy.well_formed();
    match hierarchy.entity(name) {
        Some(sup) => {
            if sup.0 == entity.0 {
                return None;
            }
            if hierarchy.is_a(entity, sup) {
                Some(sup)
            } else {
                None
            }
        }
        None => None,
    }
}

/// Entities among which are all of the order of an entity that declare an attribute of this name.
fn candidates<'a>(
    hierarchy: &'a Hierarchy,
    names: &'a AttributeNames,
    entity: EntityId,
    name: &[u8],
) -> &'a [EntityId]
    requires names { AreNamesOf hierarchy.now names.now }
    requires entity { IsEntity hierarchy.now entity.0 }
    ensures { AreCandidates hierarchy.now entity.0 name.now (numbers result.now) }
{
    hierarchy.holds_together();
    let order = hierarchy.order_of(entity);
    match names.owners.find(hierarchy, name) {
        Some(owners) => {
            if owners.len() < order.len() {
                owners
            } else {
                order
            }
        }
        None => order,
    }
}

/// The place of this name that an owner declares itself, if that is the entity or a supertype of it.
fn place_above(
    hierarchy: &Hierarchy,
    names: &AttributeNames,
    entity: EntityId,
    owner: EntityId,
    name: &[u8],
) -> Option<Place>
    requires names { AreNamesOf hierarchy.now names.now }
    requires entity { IsEntity hierarchy.now entity.0 }
    requires owner { IsEntity hierarchy.now owner.0 }
    ensures { MatchOption result ((place : pure.Place) → IsPlaceAbove hierarchy.now entity.0 owner.0 name.now place → ⊥)
        (λ place. IsPlaceAbove hierarchy.now entity.0 owner.0 name.now (place_of place)) }
{
    if hierarchy.is_a(entity, owner) {
        names.own_place(hierarchy, owner, name)
    } else {
        None
    }
}

/// A place of this name in the order of the entity.
fn first_place(
    hierarchy: &Hierarchy,
    names: &AttributeNames,
    entity: EntityId,
    name: &[u8],
) -> Option<Place>
    requires names { AreNamesOf hierarchy.now names.now }
    requires entity { IsEntity hierarchy.now entity.0 }
    ensures { MatchOption result ((place : pure.Place) → IsPlaceOf hierarchy.now entity.0 name.now place → ⊥)
        (λ place. IsPlaceOf hierarchy.now entity.0 name.now (place_of place)) }
{
    hierarchy.holds_together();
    for owner in candidates(hierarchy, names, entity, name) {
        match place_above(hierarchy, names, entity, *owner, name) {
            Some(place) => return Some(place),
            None => {}
        }
    }
    None
}

/// Whether an owner that is the entity or a supertype of it declares another place of this name itself.
fn has_other_above(
    hierarchy: &Hierarchy,
    names: &AttributeNames,
    entity: EntityId,
    owner: EntityId,
    name: &[u8],
    first: Place,
) -> bool
    requires names { AreNamesOf hierarchy.now names.now }
    requires entity { IsEntity hierarchy.now entity.0 }
    requires owner { IsEntity hierarchy.now owner.0 }
    ensures { IsTrue result ↔ ((place : pure.Place) × IsPlaceAbove hierarchy.now entity.0 owner.0 name.now place × (place ≢ place_of first)) }
{
    match place_above(hierarchy, names, entity, owner, name) {
        Some(place) => !is_same(place, first),
        None => false,
    }
}

/// Whether there is another place of this name in the order of the entity.
fn has_other(
    hierarchy: &Hierarchy,
    names: &AttributeNames,
    entity: EntityId,
    name: &[u8],
    first: Place,
) -> bool
    requires names { AreNamesOf hierarchy.now names.now }
    requires entity { IsEntity hierarchy.now entity.0 }
    ensures { IsTrue result ↔ ((place : pure.Place) × IsPlaceOf hierarchy.now entity.0 name.now place × (place ≢ place_of first)) }
{
    hierarchy.holds_together();
    for owner in candidates(hierarchy, names, entity, name) {
        if has_other_above(hierarchy, names, entity, *owner, name, first) {
            return true;
        }
    }
    false
}

/// Whether two places are one.
pub(crate) fn is_same(place: Place, other: Place) -> bool
    ensures { IsTrue result ↔ (place_of place ≡ place_of other) }
{
    place.entity.0 == other.entity.0 && place.index == other.index
}

/// The place of this name that the entity declares itself, else the only one in its order.
fn place_in(
    hierarchy: &Hierarchy,
    names: &AttributeNames,
    entity: EntityId,
    name: &[u8],
) -> RedeclarationTarget
    requires names { AreNamesOf hierarchy.now names.now }
    requires entity { IsEntity hierarchy.now entity.0 }
    ensures { IsTargetIn hierarchy.now entity.0 name.now result }
{
    match names.own_place(hierarchy, entity, name) {
        Some(own) => return RedeclarationTarget::Place(own),
        None => {}
    }
    match first_place(hierarchy, names, entity, name) {
        Some(first) => {
            if has_other(hierarchy, names, entity, name, first) {
                RedeclarationTarget::Unclear
            } else {
                RedeclarationTarget::Place(first)
            }
        }
        None => RedeclarationTarget::Missing(entity),
    }
}

/// What `SELF\supertype.name` stands for in an entity, with both names in upper case: the place that the proper supertype
/// declares itself, else the only one of this name in its order.
pub(crate) fn redeclared_place(
    hierarchy: &Hierarchy,
    names: &AttributeNames,
    entity: EntityId,
    supertype: &[u8],
    name: &[u8],
) -> RedeclarationTarget
    requires names { AreNamesOf hierarchy.now names.now }
    requires entity { IsEntity hierarchy.now entity.0 }
    ensures { IsTargetOf hierarchy.now entity.0 supertype.now name.now result }
{
    hierarchy.well_formed();
    match proper_supertype(hierarchy, entity, supertype) {
        Some(sup) => place_in(hierarchy, names, sup, name),
        None => RedeclarationTarget::Unclear,
    }
}
