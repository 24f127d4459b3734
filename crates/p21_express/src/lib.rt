//! Schemas read from their texts (ISO 10303-11): what their entities redeclare (Attribute redeclaration), and which refusal
//! comes first where a text has several.
#![tactic(auto)]

mod attribute_names;
mod checked;
mod derived;
mod distinct;
mod duplicates;
mod first;
mod lookups;
mod named_owners;
mod places;
mod redeclarations;
mod redeclared;
mod redeclaring;
mod schema_reader;
mod unknown;

pub use p21_express_graph::{
    EntityId, Member, Members, Place, PlaceType, TypeId, TypeKind, TypeUse, Width, Words,
};
pub use p21_express_outline::SchemaFault;
pub use p21_schema::Schema;
pub use p21_values::NoMemory;
pub use schema_reader::read_schema;
