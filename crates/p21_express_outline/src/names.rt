ghost use Rattle.std.specs.Prelude.{◌≡◌, ◌++◌, [], ◌∷◌, map, IfOk, OnOk};
ghost use Rattle.std.specs.List.{IsDistinct, flat_map};
ghost use Rattle.std.specs.Str.{bytes_eq};
ghost use Rattle.p21_express_graph.specs.Rising.{texts_of};
ghost use Rattle.p21_express_outline.specs.Finding.{DecidesClaim, KeepsNames};
ghost use Rattle.p21_express_outline.specs.Known.{AreOthers, KnowsNames};
ghost use Rattle.p21_express_outline.specs.Outline.{attribute_names, digest_names, digest_own_names};
ghost use Rattle.p21_express_syntax.specs.Views.{attributes_view, entity_view, schema_view};

use crate::fault::SchemaFault;
use p21_express_graph::{KnownNames, Names, are_distinct};
use p21_express_syntax::{AttributeName, Declarations, DefinedType, Entity, ExplicitAttributes};
use p21_values::{NoMemory, Word};
use std::alloc::Global;

/// No name is listed twice.
fn check_once(alloc: Global, names: &[&[u8]]) -> Result<(), SchemaFault>
    ensures { DecidesClaim (IsDistinct bytes_eq (texts_of names.now)) result }
{
    if are_distinct(alloc, names)? {
        Ok(())
    } else {
        Err(SchemaFault::Duplicate)
    }
}

/// These names, no two of which are equal.
fn distinct_names(alloc: Global, names: &[&[u8]]) -> Result<Names, SchemaFault>
    ensures { KeepsNames (texts_of names.now) result }
{
    let found = Names::of(alloc, names)?;
    match found {
        Some(kept) => Ok(kept),
        None => Err(SchemaFault::Duplicate),
    }
}

/// The characters of words.
fn texts(alloc: Global, words: &[Word]) -> Result<Vec<&[u8]>, NoMemory>
    ensures { IfOk result (λ names. texts_of names.items ≡ words.now) }
{
    let mut names = Vec::with_capacity(alloc, words.len())?;
    for word in words {
        let word: &Word = word;
        names.push(word.bytes())?;
    }
    Ok(names)
}

/// No name stands twice in a list.
pub(crate) fn check_distinct(alloc: Global, words: &[Word]) -> Result<(), SchemaFault>
    ensures { DecidesClaim (IsDistinct bytes_eq words.now) result }
{
    let names = texts(alloc, words)?;
    check_once(alloc, &names)
}

/// The names of entities, no two of which are equal.
fn entity_names(alloc: Global, entities: &[Entity]) -> Result<Names, SchemaFault>
    ensures { KeepsNames (map (λ x. x.name) entities.now) result }
{
    let mut names = Vec::with_capacity(alloc, entities.len())?;
    for entity in entities {
        let entity: &Entity = entity;
        names.push(entity.name.bytes())?;
    }
    distinct_names(alloc, &names)
}

/// The names of types, no two of which are equal.
fn type_names(alloc: Global, types: &[DefinedType]) -> Result<Names, SchemaFault>
    ensures { KeepsNames (map (λ x. x.name) types.now) result }
{
    let mut names = Vec::with_capacity(alloc, types.len())?;
    for defined in types {
        let defined: &DefinedType = defined;
        names.push(defined.name.bytes())?;
    }
    distinct_names(alloc, &names)
}

/// Adds the names of new attributes.
fn add_own_names<'a>(
    names: &mut Vec<&'a [u8]>,
    attributes: &'a [AttributeName],
) -> Result<(), NoMemory>
    ensures { OnOk result (texts_of names.new.items ≡ texts_of names.old.items ++ digest_own_names attributes.now) }
{
    for attribute in attributes {
        add_own_name(names, attribute)?;
    }
    Ok(())
}

fn add_own_name<'a>(names: &mut Vec<&'a [u8]>, attribute: &'a AttributeName) -> Result<(), NoMemory>
    ensures { OnOk result (texts_of names.new.items ≡ texts_of names.old.items ++ digest_own_names (attribute.now ∷ [])) }
{
    match attribute {
        AttributeName::Own(name) => {
            names.push(name.bytes())?;
            Ok(())
        }
        AttributeName::Redeclared { .. } => Ok(()),
    }
}

/// Adds the names of all new explicit attributes.
fn add_explicit_names<'a>(
    names: &mut Vec<&'a [u8]>,
    explicit: &'a [ExplicitAttributes],
) -> Result<(), NoMemory>
    ensures { OnOk result (texts_of names.new.items ≡ texts_of names.old.items
        ++ digest_own_names (flat_map (λ d. d.names) (map attributes_view explicit.now))) }
{
    for attributes in explicit {
        let attributes: &ExplicitAttributes = attributes;
        add_own_names(names, &attributes.names)?;
    }
    Ok(())
}

/// No two new attributes of an entity have one name.
pub(crate) fn check_attribute_names(alloc: Global, entity: &Entity) -> Result<(), SchemaFault>
    ensures { DecidesClaim (IsDistinct bytes_eq (attribute_names (entity_view entity.now))) result }
{
    let mut names = Vec::new(alloc);
    add_explicit_names(&mut names, &entity.explicit)?;
    add_own_names(&mut names, &entity.derived)?;
    check_once(alloc, &names)
}

/// No type has the name of an entity.
fn check_apart(entities: &Names, types: &[DefinedType]) -> Result<(), SchemaFault>
    ensures { DecidesClaim (AreOthers entities.now (map (λ x. x.name) types.now)) result }
{
    for defined in types {
        let defined: &DefinedType = defined;
        match entities.position(defined.name.bytes()) {
            Some(_at) => return Err(SchemaFault::Duplicate),
            None => {}
        }
    }
    Ok(())
}

/// The names of all entities and types, which are different.
///
/// # Errors
///
/// `Duplicate` for a name twice, `NoMemory`.
pub fn known_names(alloc: Global, declarations: &Declarations) -> Result<KnownNames, SchemaFault>
    ensures { KnowsNames (digest_names (schema_view declarations.now)) result }
{
    let entities = entity_names(alloc, &declarations.entities)?;
    let types = type_names(alloc, &declarations.types)?;
    check_apart(&entities, &declarations.types)?;
    Ok(KnownNames { entities, types })
}
