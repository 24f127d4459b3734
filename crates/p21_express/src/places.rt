use crate::duplicates::add_own;
use crate::unknown::entity_names;
use p21_express_graph::Names;
use p21_express_syntax::{AttributeName, Declarations, Entity};
use p21_values::{NoMemory, Word};
use std::alloc::Global;
use std::collections::BTreeSet;

/// The new explicit attributes of each entity, by their names, and the names of the entities.
#[derive(Drop)]
struct Attributes {
    entities: Names,
    of_each: Vec<Option<Names>>,
}

/// A new explicit attribute: the number of its entity, and its own there.
type Found = (usize, usize);

/// The names of the new explicit attributes of an entity, where none stands twice.
fn own_names(alloc: Global, entity: &Entity) -> Result<Option<Names>, NoMemory> {
    let mut names = Vec::new(alloc);
    for explicit in &entity.explicit {
        add_own(&mut names, &explicit.names)?;
    }
    Names::of(alloc, &names)
}

/// The same of each entity.
fn all_own_names(alloc: Global, entities: &[Entity]) -> Result<Vec<Option<Names>>, NoMemory> {
    let mut of_each = Vec::with_capacity(alloc, entities.len())?;
    for entity in entities {
        let entity: &Entity = entity;
        of_each.push(own_names(alloc, entity)?)?;
    }
    Ok(of_each)
}

/// The attributes of all entities, where none of these stands twice.
fn own_attributes(
    alloc: Global,
    declarations: &Declarations,
) -> Result<Option<Attributes>, NoMemory> {
    let Some(entities) = entity_names(alloc, &declarations.entities)? else {
        return Ok(None);
    };
    let of_each = all_own_names(alloc, &declarations.entities)?;
    Ok(Some(Attributes { entities, of_each }))
}

impl Attributes {
    fn own(&self, entity: usize, name: &[u8]) -> Option<Found> {
        match self.of_each.get(entity) {
            Some(Some(names)) => {
                let index = names.position(name)?;
                Some((entity, index))
            }
            Some(None) => None,
            None => None,
        }
    }

    /// The only attribute of this name among those of some entities.
    fn only(&self, entities: &[usize], name: &[u8]) -> Option<Found> {
        let mut only = None;
        for entity in entities {
            if let Some(found) = self.own(*entity, name) {
                if only.is_some() {
                    return None;
                }
                only = Some(found);
            }
        }
        only
    }
}

/// Entities in the order in which they are reached, each once.
#[derive(Drop)]
struct Reached {
    listed: Vec<usize>,
    all: BTreeSet<usize>,
}

impl Reached {
    fn new(alloc: Global) -> Reached {
        Reached {
            listed: Vec::new(alloc),
            all: BTreeSet::new(alloc),
        }
    }

    fn add(&mut self, entity: usize) -> Result<(), NoMemory> {
        if self.all.insert(entity)? {
            self.listed.push(entity)?;
        }
        Ok(())
    }
}

/// Adds the entities of names that aren't among the others.
fn add_supertypes(
    names: &Names,
    supertypes: &[Word],
    reached: &mut Reached,
) -> Result<(), NoMemory> {
    for name in supertypes {
        let name: &Word = name;
        if let Some(entity) = names.position(name.bytes()) {
            reached.add(entity)?;
        }
    }
    Ok(())
}

/// An entity and all its supertypes, each once.
fn with_supertypes(
    alloc: Global,
    names: &Names,
    entities: &[Entity],
    entity: usize,
) -> Result<Reached, NoMemory> {
    let mut reached = Reached::new(alloc);
    reached.add(entity)?;
    for at in 0..entities.len() {
        let Some(next) = reached.listed.get(at) else {
            return Ok(reached);
        };
        if let Some(declared) = entities.get(*next) {
            add_supertypes(names, &declared.supertypes, &mut reached)?;
        }
    }
    Ok(reached)
}

/// The attribute that `SELF\supertype.name` stands for, whether or not that is a supertype.
fn redeclared(
    alloc: Global,
    attributes: &Attributes,
    entities: &[Entity],
    supertype: &Word,
    name: &Word,
) -> Result<Option<Found>, NoMemory> {
    let Some(entity) = attributes.entities.position(supertype.bytes()) else {
        return Ok(None);
    };
    if let Some(own) = attributes.own(entity, name.bytes()) {
        return Ok(Some(own));
    }
    let reached = with_supertypes(alloc, &attributes.entities, entities, entity)?;
    Ok(attributes.only(&reached.listed, name.bytes()))
}

/// Adds the attributes that names redeclare, and says whether one of them was there.
fn adds_twice(
    alloc: Global,
    attributes: &Attributes,
    entities: &[Entity],
    names: &[AttributeName],
    places: &mut BTreeSet<Found>,
) -> Result<bool, NoMemory> {
    for name in names {
        let name: &AttributeName = name;
        if let AttributeName::Redeclared { entity, name } = name {
            if let Some(found) = redeclared(alloc, attributes, entities, entity, name)? {
                if !places.insert(found)? {
                    return Ok(true);
                }
            }
        }
    }
    Ok(false)
}

/// Whether an entity redeclares an attribute twice.
fn entity_redeclares_twice(
    alloc: Global,
    attributes: &Attributes,
    entities: &[Entity],
    entity: &Entity,
) -> Result<bool, NoMemory> {
    let mut places = BTreeSet::new(alloc);
    for explicit in &entity.explicit {
        if adds_twice(alloc, attributes, entities, &explicit.names, &mut places)? {
            return Ok(true);
        }
    }
    adds_twice(alloc, attributes, entities, &entity.derived, &mut places)
}

/// Whether an entity of the schema redeclares an attribute twice, where no name stands twice.
pub(crate) fn redeclares_twice(
    alloc: Global,
    declarations: &Declarations,
) -> Result<bool, NoMemory> {
    let Some(attributes) = own_attributes(alloc, declarations)? else {
        return Ok(false);
    };
    for entity in &declarations.entities {
        let entity: &Entity = entity;
        if entity_redeclares_twice(alloc, &attributes, &declarations.entities, entity)? {
            return Ok(true);
        }
    }
    Ok(false)
}
