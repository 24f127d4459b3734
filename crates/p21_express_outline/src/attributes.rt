//! The attributes of one declaration share their type (an `Arc` in `Attribute` and in `Redeclared`), which is resolved
//! once, and only where one of them is new, or redeclared. So a type takes memory by what is written of it, and not
//! again for each name before it: a thousand names of one type that is 32 lists deep have one type of 33 parts. A
//! declaration of one name takes a block more. What is asked for a place is a borrow of the type, as before.
ghost use Rattle.std.specs.Prelude.{[], ◌∷◌, ◌++◌, ◌≡◌, ◌<◌, ◌↔◌, length, map, IfOk, IsTrue, OnOk};
ghost use Rattle.std.specs.Arc.{arc_value};
ghost use Rattle.p21_express_outline.specs.Finding.{AddsEach, FindsEach};
ghost use Rattle.p21_express_outline.specs.Known.{AreFew, names_of};
ghost use Rattle.p21_express_outline.specs.Outline.{DigestAttributeIs, digest_own_explicit, digest_own_names};
ghost use Rattle.p21_express_outline.specs.Attributes.{attribute_with, own_of, own_with};
ghost use Rattle.p21_express_syntax.specs.Views.{attributes_view};
ghost use Rattle.p21_express_graph.specs.Meaning.{type_use as type_use_of};
ghost use Rattle.p21_express_graph.specs.SchemaContents.{attribute as attribute_of};

use crate::fault::SchemaFault;
use crate::lists::copied;
use crate::types::resolve_type;
use p21_express_graph::{Attribute, KnownNames, TypeUse};
use p21_express_syntax::{AttributeName, ExplicitAttributes};
use p21_values::{NoMemory, Word};
use std::alloc::Global;
use std::sync::Arc;

/// Whether an attribute is new.
fn has_own(names: &[AttributeName]) -> bool
    ensures { IsTrue result ↔ 0 < length (digest_own_names names.now) }
{
    for name in names {
        match name {
            AttributeName::Own(_name) => return true,
            AttributeName::Redeclared { .. } => {}
        }
    }
    false
}

/// A new attribute of a type.
fn own_attribute(
    alloc: Global,
    name: &Word,
    optional: bool,
    type_use: &Arc<TypeUse, Global>,
) -> Result<Attribute, NoMemory>
    ensures { IfOk result (λ attribute. attribute_of attribute ≡ attribute_with optional (type_use_of (arc_value type_use.now)) name.now) }
{
    let name = copied(alloc, name)?;
    let type_use = Arc::try_clone(type_use)?;
    Ok(Attribute {
        name,
        optional,
        type_use,
    })
}

/// Adds an attribute of a type, if it is a new one.
fn add_attribute(
    alloc: Global,
    name: &AttributeName,
    optional: bool,
    type_use: &Arc<TypeUse, Global>,
    out: &mut Vec<Attribute>,
) -> Result<(), NoMemory>
    ensures { OnOk result (map attribute_of out.new.items ≡ map attribute_of out.old.items
        ++ own_with optional (type_use_of (arc_value type_use.now)) (name.now ∷ [])) }
{
    match name {
        AttributeName::Own(name) => {
            out.push(own_attribute(alloc, name, optional, type_use)?)?;
            Ok(())
        }
        AttributeName::Redeclared { .. } => Ok(()),
    }
}

/// Adds the new ones of attributes, which share a type.
fn add_sharing(
    alloc: Global,
    names: &[AttributeName],
    optional: bool,
    type_use: &Arc<TypeUse, Global>,
    out: &mut Vec<Attribute>,
) -> Result<(), NoMemory>
    ensures { OnOk result (map attribute_of out.new.items ≡ map attribute_of out.old.items
        ++ own_with optional (type_use_of (arc_value type_use.now)) names.now) }
{
    for name in names {
        let name: &AttributeName = name;
        add_attribute(alloc, name, optional, type_use, out)?;
    }
    Ok(())
}

/// Adds the new ones of explicit attributes of one type. Where none is new, the type isn't resolved.
fn add_attributes(
    alloc: Global,
    known: &KnownNames,
    explicit: &ExplicitAttributes,
    out: &mut Vec<Attribute>,
) -> Result<(), SchemaFault>
    requires { AreFew known.now }
    ensures { AddsEach attribute_of (DigestAttributeIs (names_of known.now))
        (own_of (attributes_view explicit.now) explicit.now.names.items) result out.old out.new }
{
    if !has_own(&explicit.names) {
        return Ok(());
    }
    let type_use = resolve_type(alloc, known, &explicit.data_type)?;
    let shared = Arc::new(alloc, type_use)?;
    add_sharing(alloc, &explicit.names, explicit.optional, &shared, out)?;
    Ok(())
}

/// The new explicit attributes of an entity.
pub(crate) fn own_attributes(
    alloc: Global,
    known: &KnownNames,
    explicit: &[ExplicitAttributes],
) -> Result<Vec<Attribute>, SchemaFault>
    requires { AreFew known.now }
    ensures { FindsEach attribute_of (DigestAttributeIs (names_of known.now)) (digest_own_explicit (map attributes_view explicit.now))
        result }
{
    let mut found = Vec::new(alloc);
    for attributes in explicit {
        let attributes: &ExplicitAttributes = attributes;
        add_attributes(alloc, known, attributes, &mut found)?;
    }
    Ok(found)
}
