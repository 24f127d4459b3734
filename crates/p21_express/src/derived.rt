ghost use Rattle.std.specs.Prelude.{◌↔◌, [], ◌∷◌, IsTrue, Contains, map};
ghost use Rattle.p21_express.specs.AttributeNames.{AreNamesOf};
ghost use Rattle.p21_express.specs.Derived.{AddsDerivedPlaces, DerivesItself, FindsDerivedPlaces, FindsDerivedPlace};
ghost use Rattle.p21_express_outline.specs.Outline.{digest_own_names, digest_redeclared_names};
ghost use Rattle.p21_express_outline.specs.Redeclarations.{DigestDerivesName};
ghost use Rattle.p21_express_syntax.specs.Views.{entity_view};
ghost use Rattle.p21_express_graph.specs.Resolved.{IsEntity};

use crate::attribute_names::AttributeNames;
use crate::lookups::{RedeclarationTarget, redeclared_place};
use p21_express_graph::{EntityId, Place};
use p21_express_outline::SchemaFault;
use p21_express_syntax::{AttributeName, Entity};
use p21_schema::Hierarchy;
use std::alloc::Global;

/// Whether an attribute is a new one of this name.
fn is_new(attribute: &AttributeName, name: &[u8]) -> bool
    ensures { IsTrue result ↔ Contains (digest_own_names (attribute.now ∷ [])) name.now }
{
    match attribute {
        AttributeName::Own(own) => own.bytes() == name,
        AttributeName::Redeclared { .. } => false,
    }
}

/// Whether one of the attributes is a new one of this name.
fn has_new(attributes: &[AttributeName], name: &[u8]) -> bool
    ensures { IsTrue result ↔ Contains (digest_own_names attributes.now) name.now }
{
    for attribute in attributes {
        let attribute: &AttributeName = attribute;
        if is_new(attribute, name) {
            return true;
        }
    }
    false
}

/// Whether an entity derives a new attribute of this name itself.
fn derives_itself(declared: &[Entity], entity: EntityId, name: &[u8]) -> bool
    ensures { IsTrue result ↔ DerivesItself (map entity_view declared.now) entity.0 name.now }
{
    match declared.get(entity.0 as usize) {
        Some(own) => has_new(&own.derived, name),
        None => false,
    }
}

/// Whether an entity or a supertype of it derives a new attribute of this name.
fn derives_name(hierarchy: &Hierarchy, declared: &[Entity], entity: EntityId, name: &[u8]) -> bool
    requires { IsEntity hierarchy.now entity.0 }
    ensures { IsTrue result ↔ DigestDerivesName hierarchy.now (map entity_view declared.now) entity.0 name.now }
{
    hierarchy.holds_together();
    for owner in hierarchy.order_of(entity) {
        if derives_itself(declared, *owner, name) {
            return true;
        }
    }
    false
}

/// The place that a redeclaration in a DERIVE clause stands for; none where it redeclares a derived attribute.
fn derived_place(
    hierarchy: &Hierarchy,
    names: &AttributeNames,
    entity: EntityId,
    declared: &[Entity],
    supertype: &[u8],
    name: &[u8],
) -> Result<Option<Place>, SchemaFault>
    requires names { AreNamesOf hierarchy.now names.now }
    requires entity { IsEntity hierarchy.now entity.0 }
    ensures { FindsDerivedPlace hierarchy.now (map entity_view declared.now) entity.0 (supertype.now, name.now) result }
{
    match redeclared_place(hierarchy, names, entity, supertype, name) {
        RedeclarationTarget::Place(place) => Ok(Some(place)),
        RedeclarationTarget::Missing(sup) => {
            if derives_name(hierarchy, declared, sup, name) {
                Ok(None)
            } else {
                Err(SchemaFault::RedeclaredPlace)
            }
        }
        RedeclarationTarget::Unclear => Err(SchemaFault::RedeclaredPlace),
    }
}

/// Adds the place of an attribute of a DERIVE clause, if it redeclares one.
fn add_derived(
    hierarchy: &Hierarchy,
    names: &AttributeNames,
    entity: EntityId,
    declared: &[Entity],
    attribute: &AttributeName,
    out: &mut Vec<Place>,
) -> Result<(), SchemaFault>
    requires names { AreNamesOf hierarchy.now names.now }
    requires entity { IsEntity hierarchy.now entity.0 }
    ensures { AddsDerivedPlaces hierarchy.now (map entity_view declared.now) entity.0 (digest_redeclared_names (attribute.now ∷ [])) result
        out.old out.new }
{
    match attribute {
        AttributeName::Own(_name) => Ok(()),
        AttributeName::Redeclared {
            entity: supertype,
            name,
        } => {
            match derived_place(
                hierarchy,
                names,
                entity,
                declared,
                supertype.bytes(),
                name.bytes(),
            )? {
                Some(place) => {
                    out.push(place)?;
                    Ok(())
                }
                None => Ok(()),
            }
        }
    }
}

/// The places that the attributes of a DERIVE clause redeclare (ISO 10303-11, Attribute redeclaration). One that redeclares a
/// derived attribute of a supertype has no place.
///
/// # Errors
///
/// `RedeclaredPlace` for a redeclaration of several places, or of no place and no derived attribute; `NoMemory`.
pub(crate) fn derived_of(
    alloc: Global,
    hierarchy: &Hierarchy,
    names: &AttributeNames,
    entity: EntityId,
    declared: &[Entity],
    derived: &[AttributeName],
) -> Result<Vec<Place>, SchemaFault>
    requires names { AreNamesOf hierarchy.now names.now }
    requires entity { IsEntity hierarchy.now entity.0 }
    ensures { FindsDerivedPlaces hierarchy.now (map entity_view declared.now) entity.0 (digest_redeclared_names derived.now) result }
{
    let mut found = Vec::new(alloc);
    for name in derived {
        let name: &AttributeName = name;
        add_derived(hierarchy, names, entity, declared, name, &mut found)?;
    }
    Ok(found)
}
