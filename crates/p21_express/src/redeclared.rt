ghost use Rattle.std.specs.Prelude.{[], ◌∷◌, ◌<◌, ◌↔◌, length, map, IsTrue};
ghost use Rattle.std.specs.Arc.{arc_value};
ghost use Rattle.p21_spec_schema.specs.Redeclaration.{RedeclaresPlace};
ghost use Rattle.p21_express_outline.specs.Finding.{AddsEach, Finds, FindsEach};
ghost use Rattle.p21_express_outline.specs.Known.{AreFew, names_of};
ghost use Rattle.p21_express.specs.AttributeNames.{AreNamesOf};
ghost use Rattle.p21_express.specs.Explicit.{redeclared_by};
ghost use Rattle.p21_express_outline.specs.Outline.{DigestTypeIs, digest_redeclared_explicit, digest_redeclared_names};
ghost use Rattle.p21_express_outline.specs.Redeclarations.{DigestRedeclaredIs};
ghost use Rattle.p21_express_syntax.specs.Views.{attributes_view, type_view};
ghost use Rattle.p21_express_graph.specs.SchemaContents.{redeclared as redeclared_view};
ghost use Rattle.p21_express_graph.specs.Resolved.{IsEntity};
ghost use Rattle.p21_express_graph.specs.Meaning.{place as place_of, type_use as type_use_of};

use crate::attribute_names::AttributeNames;
use crate::lookups::{RedeclarationTarget, redeclared_place};
use p21_express_graph::{EntityId, KnownNames, Place, Redeclared, TypeUse};
use p21_express_outline::{SchemaFault, resolve_type};
use p21_express_syntax::{AttributeName, ExplicitAttributes};
use p21_schema::Hierarchy;
use std::alloc::Global;
use std::sync::Arc;

/// An entity that redeclares: its hierarchy, in which nothing is redeclared yet, and the names that the text declares.
#[derive(Drop)]
struct Redeclarer<'a> {
    hierarchy: &'a Hierarchy,
    names: &'a AttributeNames,
    known: &'a KnownNames,
    entity: EntityId,
}

/// The place that `SELF\supertype.name` redeclares.
fn named_place(
    hierarchy: &Hierarchy,
    names: &AttributeNames,
    entity: EntityId,
    supertype: &[u8],
    name: &[u8],
) -> Result<Place, SchemaFault>
    requires names { AreNamesOf hierarchy.now names.now }
    requires entity { IsEntity hierarchy.now entity.0 }
    ensures { Finds place_of (RedeclaresPlace hierarchy.now entity.0 supertype.now name.now) result }
{
    match redeclared_place(hierarchy, names, entity, supertype, name) {
        RedeclarationTarget::Place(place) => Ok(place),
        RedeclarationTarget::Missing(_supertype) => Err(SchemaFault::RedeclaredPlace),
        RedeclarationTarget::Unclear => Err(SchemaFault::RedeclaredPlace),
    }
}

/// Whether an attribute is redeclared.
fn has_redeclared(names: &[AttributeName]) -> bool
    ensures { IsTrue result ↔ 0 < length (digest_redeclared_names names.now) }
{
    for name in names {
        match name {
            AttributeName::Own(_name) => {}
            AttributeName::Redeclared { .. } => return true,
        }
    }
    false
}

/// A place that is redeclared as an explicit attribute of a type.
fn redeclared_as(
    redeclarer: &Redeclarer<'_>,
    supertype: &[u8],
    name: &[u8],
    explicit: &ExplicitAttributes,
    type_use: &Arc<TypeUse, Global>,
) -> Result<Redeclared, SchemaFault>
    requires names { AreNamesOf redeclarer.now.hierarchy.now redeclarer.now.names.now }
    requires typed { DigestTypeIs (names_of redeclarer.now.known.now) (type_view explicit.now.data_type)
        (type_use_of (arc_value type_use.now)) }
    requires entity { IsEntity redeclarer.now.hierarchy.now redeclarer.now.entity.0 }
    ensures { Finds redeclared_view (DigestRedeclaredIs redeclarer.now.hierarchy.now (names_of redeclarer.now.known.now)
        redeclarer.now.entity.0 ((supertype.now, name.now), explicit.now.optional, type_view explicit.now.data_type)) result }
{
    let place = named_place(
        redeclarer.hierarchy,
        redeclarer.names,
        redeclarer.entity,
        supertype,
        name,
    )?;
    Ok(Redeclared {
        place,
        optional: explicit.optional,
        type_use: Arc::try_clone(type_use)?,
    })
}

/// Adds an attribute of a type, if it is redeclared.
fn add_redeclared(
    redeclarer: &Redeclarer<'_>,
    name: &AttributeName,
    explicit: &ExplicitAttributes,
    type_use: &Arc<TypeUse, Global>,
    out: &mut Vec<Redeclared>,
) -> Result<(), SchemaFault>
    requires names { AreNamesOf redeclarer.now.hierarchy.now redeclarer.now.names.now }
    requires typed { DigestTypeIs (names_of redeclarer.now.known.now) (type_view explicit.now.data_type)
        (type_use_of (arc_value type_use.now)) }
    requires entity { IsEntity redeclarer.now.hierarchy.now redeclarer.now.entity.0 }
    ensures { AddsEach redeclared_view (DigestRedeclaredIs redeclarer.now.hierarchy.now (names_of redeclarer.now.known.now)
        redeclarer.now.entity.0) (redeclared_by (attributes_view explicit.now) (name.now ∷ [])) result out.old out.new }
{
    match name {
        AttributeName::Own(_name) => Ok(()),
        AttributeName::Redeclared {
            entity: supertype,
            name,
        } => {
            let redeclared = redeclared_as(
                redeclarer,
                supertype.bytes(),
                name.bytes(),
                explicit,
                type_use,
            )?;
            out.push(redeclared)?;
            Ok(())
        }
    }
}

/// Adds the redeclared ones of explicit attributes, which share a type.
fn add_sharing(
    redeclarer: &Redeclarer<'_>,
    explicit: &ExplicitAttributes,
    type_use: &Arc<TypeUse, Global>,
    out: &mut Vec<Redeclared>,
) -> Result<(), SchemaFault>
    requires names { AreNamesOf redeclarer.now.hierarchy.now redeclarer.now.names.now }
    requires typed { DigestTypeIs (names_of redeclarer.now.known.now) (type_view explicit.now.data_type)
        (type_use_of (arc_value type_use.now)) }
    requires entity { IsEntity redeclarer.now.hierarchy.now redeclarer.now.entity.0 }
    ensures { AddsEach redeclared_view (DigestRedeclaredIs redeclarer.now.hierarchy.now (names_of redeclarer.now.known.now)
        redeclarer.now.entity.0) (redeclared_by (attributes_view explicit.now) explicit.now.names.items) result out.old out.new }
{
    for name in &explicit.names {
        let name: &AttributeName = name;
        add_redeclared(redeclarer, name, explicit, type_use, out)?;
    }
    Ok(())
}

/// Adds the redeclared ones of explicit attributes of one type. Where none is redeclared, the type isn't resolved.
fn add_all_redeclared(
    alloc: Global,
    redeclarer: &Redeclarer<'_>,
    explicit: &ExplicitAttributes,
    out: &mut Vec<Redeclared>,
) -> Result<(), SchemaFault>
    requires names { AreNamesOf redeclarer.now.hierarchy.now redeclarer.now.names.now }
    requires few { AreFew redeclarer.now.known.now }
    requires entity { IsEntity redeclarer.now.hierarchy.now redeclarer.now.entity.0 }
    ensures { AddsEach redeclared_view (DigestRedeclaredIs redeclarer.now.hierarchy.now (names_of redeclarer.now.known.now)
        redeclarer.now.entity.0) (redeclared_by (attributes_view explicit.now) explicit.now.names.items) result out.old out.new }
{
    if !has_redeclared(&explicit.names) {
        return Ok(());
    }
    let type_use = resolve_type(alloc, redeclarer.known, &explicit.data_type)?;
    let shared = Arc::new(alloc, type_use)?;
    add_sharing(redeclarer, explicit, &shared, out)
}

/// The places that an entity redeclares as explicit attributes.
///
/// # Errors
///
/// `RedeclaredPlace` for a redeclaration that stands for no place or for several, `UnknownName` for a type that isn't
/// declared, `NoMemory`.
pub(crate) fn redeclared_of(
    alloc: Global,
    hierarchy: &Hierarchy,
    names: &AttributeNames,
    known: &KnownNames,
    entity: EntityId,
    explicit: &[ExplicitAttributes],
) -> Result<Vec<Redeclared>, SchemaFault>
    requires names { AreNamesOf hierarchy.now names.now }
    requires few { AreFew known.now }
    requires entity { IsEntity hierarchy.now entity.0 }
    ensures { FindsEach redeclared_view (DigestRedeclaredIs hierarchy.now (names_of known.now) entity.0)
        (digest_redeclared_explicit (map attributes_view explicit.now)) result }
{
    let redeclarer = Redeclarer {
        hierarchy,
        names,
        known,
        entity,
    };
    let mut found = Vec::new(alloc);
    for attributes in explicit {
        let attributes: &ExplicitAttributes = attributes;
        add_all_redeclared(alloc, &redeclarer, attributes, &mut found)?;
    }
    Ok(found)
}
