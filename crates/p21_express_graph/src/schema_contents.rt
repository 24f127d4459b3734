use crate::kind::TypeKind;
use crate::names::Names;
use crate::number::{EntityId, Place};
use crate::type_use::TypeUse;
use p21_values::Word;
use std::alloc::Global;
use std::sync::Arc;

/// An explicit attribute (ISO 10303-11, Explicit attribute). Those of one declaration share its type.
#[derive(Debug, Drop)]
pub struct Attribute {
    pub name: Word,
    pub optional: bool,
    pub type_use: Arc<TypeUse, Global>,
}

/// A place that is redeclared as an explicit attribute (ISO 10303-11, Attribute redeclaration). Those of one declaration
/// share its type.
#[derive(Debug, Drop)]
pub struct Redeclared {
    pub place: Place,
    pub optional: bool,
    pub type_use: Arc<TypeUse, Global>,
}

/// An entity: its direct supertypes as listed, its own explicit attributes, and the places that it redeclares as explicit
/// and as derived attributes (ISO 10303-11, Entity declaration).
#[derive(Debug, Drop)]
pub struct Entity {
    pub name: Word,
    pub is_abstract: bool,
    pub supertypes: Vec<EntityId>,
    pub attributes: Vec<Attribute>,
    pub redeclared: Vec<Redeclared>,
    pub derived: Vec<Place>,
}

/// What an entity redeclares, as explicit and as derived attributes.
#[derive(Drop)]
pub struct Redeclarations {
    pub redeclared: Vec<Redeclared>,
    pub derived: Vec<Place>,
}

/// A declared type (ISO 10303-11, Type declaration).
#[derive(Debug, Drop)]
pub struct Defined {
    pub name: Word,
    pub kind: TypeKind,
}

/// The names of the entities and of the types of a schema, each in the order of the declarations.
#[derive(Drop)]
pub struct KnownNames {
    pub entities: Names,
    pub types: Names,
}

/// What a schema declares, with all names resolved: its name, its entities and types in the order of their declarations,
/// and for each ONEOF list the entities of which an instance is one at most. The names of the entities and of the types
/// stand in their order.
#[derive(Drop)]
pub struct SchemaContents {
    pub name: Word,
    pub names: KnownNames,
    pub entities: Vec<Entity>,
    pub types: Vec<Defined>,
    pub one_of_lists: Vec<Vec<EntityId>>,
}
