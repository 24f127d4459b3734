/// The place of an entity among those of its schema, in the order of the declarations (ISO 10303-11, Schema declaration).
#[derive(Clone, Copy, Debug, Drop, PartialEq, Eq, PartialOrd, Ord)]
pub struct EntityId(pub u32);

/// The place of a type among those of its schema, in the order of the declarations.
#[derive(Clone, Copy, Debug, Drop, PartialEq, Eq, PartialOrd, Ord)]
pub struct TypeId(pub u32);

/// An explicit attribute: the entity that declares it, and its place among those of that entity, redeclarations apart
/// (ISO 10303-11, Explicit attribute).
#[derive(Clone, Copy, Debug, Drop, PartialEq, Eq)]
pub struct Place {
    pub entity: EntityId,
    pub index: u32,
}
