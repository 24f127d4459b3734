use p21_express_graph::Names;
use p21_express_syntax::{
    AttributeName, Body, DataType, Declarations, DefinedType, Entity, ExplicitAttributes,
    SimpleType,
};
use p21_values::{NoMemory, Word};
use std::alloc::Global;

/// The names of the entities and of the types.
#[derive(Drop)]
struct Declared {
    entities: Names,
    types: Names,
}

/// The names of declarations, where none stands twice.
fn all_declared(alloc: Global, declarations: &Declarations) -> Result<Option<Declared>, NoMemory> {
    let Some(entities) = entity_names(alloc, &declarations.entities)? else {
        return Ok(None);
    };
    let Some(types) = type_names(alloc, &declarations.types)? else {
        return Ok(None);
    };
    Ok(Some(Declared { entities, types }))
}

/// The names of entities, where none stands twice.
pub(crate) fn entity_names(alloc: Global, entities: &[Entity]) -> Result<Option<Names>, NoMemory> {
    let mut names = Vec::with_capacity(alloc, entities.len())?;
    for entity in entities {
        let entity: &Entity = entity;
        names.push(entity.name.bytes())?;
    }
    Names::of(alloc, &names)
}

/// The names of types, where none stands twice.
fn type_names(alloc: Global, types: &[DefinedType]) -> Result<Option<Names>, NoMemory> {
    let mut names = Vec::with_capacity(alloc, types.len())?;
    for defined in types {
        let defined: &DefinedType = defined;
        names.push(defined.name.bytes())?;
    }
    Names::of(alloc, &names)
}

impl Declared {
    fn has_entity(&self, name: &[u8]) -> bool {
        self.entities.position(name).is_some()
    }

    fn has(&self, name: &[u8]) -> bool {
        self.has_entity(name) || self.types.position(name).is_some()
    }

    fn has_all_entities(&self, names: &[Word]) -> bool {
        for name in names {
            let name: &Word = name;
            if !self.has_entity(name.bytes()) {
                return false;
            }
        }
        true
    }

    fn has_all(&self, names: &[Word]) -> bool {
        for name in names {
            let name: &Word = name;
            if !self.has(name.bytes()) {
                return false;
            }
        }
        true
    }

    fn has_type(&self, data_type: &DataType) -> bool {
        match &data_type.element {
            SimpleType::Named(name) => self.has(name.bytes()),
            _ => true,
        }
    }

    /// Whether the entities of redeclarations are declared.
    fn has_redeclared(&self, names: &[AttributeName]) -> bool {
        for name in names {
            let name: &AttributeName = name;
            if let AttributeName::Redeclared { entity, .. } = name {
                if !self.has(entity.bytes()) {
                    return false;
                }
            }
        }
        true
    }

    fn has_explicit(&self, explicit: &[ExplicitAttributes]) -> bool {
        for attributes in explicit {
            let attributes: &ExplicitAttributes = attributes;
            if !self.has_type(&attributes.data_type) || !self.has_redeclared(&attributes.names) {
                return false;
            }
        }
        true
    }

    fn has_one_of(&self, entity: &Entity) -> bool {
        match &entity.constraint.one_of {
            Some(names) => self.has_all_entities(names),
            None => true,
        }
    }

    /// Whether all is declared that an entity names.
    fn has_names_of(&self, entity: &Entity) -> bool {
        self.has_all_entities(&entity.supertypes)
            && self.has_explicit(&entity.explicit)
            && self.has_redeclared(&entity.derived)
            && self.has_one_of(entity)
    }

    /// Whether a type is just the name of an entity.
    fn is_entity(&self, data_type: &DataType) -> bool {
        match &data_type.element {
            SimpleType::Named(name) => {
                data_type.aggregates.is_empty() && self.has_entity(name.bytes())
            }
            _ => false,
        }
    }

    /// Whether all is declared that a type names, and it isn't just the name of an entity.
    fn has_body(&self, body: &Body) -> bool {
        match body {
            Body::Enumeration(_words) => true,
            Body::Select(names) => self.has_all(names),
            Body::Underlying(data_type) => self.has_type(data_type) && !self.is_entity(data_type),
        }
    }

    /// Whether all is declared that entities and types name, and no type is just the name of an entity.
    fn has_all_names_of(&self, declarations: &Declarations) -> bool {
        for entity in &declarations.entities {
            let entity: &Entity = entity;
            if !self.has_names_of(entity) {
                return false;
            }
        }
        for defined in &declarations.types {
            let defined: &DefinedType = defined;
            if !self.has_body(&defined.body) {
                return false;
            }
        }
        true
    }
}

/// Whether a name isn't declared, or not as what it must be, in declarations where none stands twice.
pub(crate) fn has_unknown_name(
    alloc: Global,
    declarations: &Declarations,
) -> Result<bool, NoMemory> {
    let Some(declared) = all_declared(alloc, declarations)? else {
        return Ok(false);
    };
    Ok(!declared.has_all_names_of(declarations))
}
