use p21_express_graph::are_distinct;
use p21_express_syntax::{AttributeName, Body, Declarations, DefinedType, Entity};
use p21_values::{NoMemory, Word};
use std::alloc::Global;

/// Whether a name stands twice in a list.
fn has_twice(alloc: Global, words: &[Word]) -> Result<bool, NoMemory> {
    let mut names = Vec::with_capacity(alloc, words.len())?;
    for word in words {
        let word: &Word = word;
        names.push(word.bytes())?;
    }
    Ok(!are_distinct(alloc, &names)?)
}

/// Adds the names of new attributes.
pub(crate) fn add_own<'a>(
    names: &mut Vec<&'a [u8]>,
    attributes: &'a [AttributeName],
) -> Result<(), NoMemory> {
    for attribute in attributes {
        let attribute: &AttributeName = attribute;
        if let AttributeName::Own(name) = attribute {
            names.push(name.bytes())?;
        }
    }
    Ok(())
}

/// Whether two new attributes of an entity have one name.
fn declares_twice(alloc: Global, entity: &Entity) -> Result<bool, NoMemory> {
    let mut names = Vec::new(alloc);
    for explicit in &entity.explicit {
        add_own(&mut names, &explicit.names)?;
    }
    add_own(&mut names, &entity.derived)?;
    Ok(!are_distinct(alloc, &names)?)
}

/// Whether an entity names something twice.
fn entity_has_twice(alloc: Global, entity: &Entity) -> Result<bool, NoMemory> {
    if has_twice(alloc, &entity.supertypes)? || declares_twice(alloc, entity)? {
        return Ok(true);
    }
    match &entity.constraint.one_of {
        Some(names) => has_twice(alloc, names),
        None => Ok(false),
    }
}

/// Whether an enumeration or a select names something twice.
fn type_has_twice(alloc: Global, defined: &DefinedType) -> Result<bool, NoMemory> {
    match &defined.body {
        Body::Enumeration(words) => has_twice(alloc, words),
        Body::Select(words) => has_twice(alloc, words),
        Body::Underlying(_data_type) => Ok(false),
    }
}

/// Whether two entities or types have one name.
fn declared_twice(alloc: Global, declarations: &Declarations) -> Result<bool, NoMemory> {
    let mut names = Vec::new(alloc);
    for entity in &declarations.entities {
        let entity: &Entity = entity;
        names.push(entity.name.bytes())?;
    }
    for defined in &declarations.types {
        let defined: &DefinedType = defined;
        names.push(defined.name.bytes())?;
    }
    Ok(!are_distinct(alloc, &names)?)
}

/// Whether entities or types have one name, or a list of names has one twice.
pub(crate) fn has_duplicate(alloc: Global, declarations: &Declarations) -> Result<bool, NoMemory> {
    if declared_twice(alloc, declarations)? {
        return Ok(true);
    }
    for entity in &declarations.entities {
        let entity: &Entity = entity;
        if entity_has_twice(alloc, entity)? {
            return Ok(true);
        }
    }
    for defined in &declarations.types {
        let defined: &DefinedType = defined;
        if type_has_twice(alloc, defined)? {
            return Ok(true);
        }
    }
    Ok(false)
}
