//! A schema with all names resolved (ISO 10303-11), prepared so that each look-up costs little.
//!
//! How a contract speaks of a schema. `Schema` (`p21_schema`) has a model, whose value is the record `Schema`
//! of `p21_spec_schema`. So in a clause `schema.now` (or `schema` by value) *is* that record: `IsA schema.now sub.0
//! sup.0`, `TypeAt schema.now (numbers entities.now) (place p) (place_type result)`. The words `numbers`
//! (`p21_express_graph/specs/Orders`) and `place`, `member`, `kind`, `type_use`, `place_type`
//! (`p21_express_graph/specs/Meaning`) go from the values of the program to those of the definitions. The conditions
//! are `IsEntity`, `IsType`, `IsPlace`, `IsTypeUse` (`p21_express_graph/specs/Resolved`) and `AreEntities`
//! (`specs/Lookups` there); `schema.holds_together()` hands a caller `HoldsTogether schema.now`.
#![tactic(auto)]

mod ascent;
mod base;
mod hierarchy;
mod holders;
mod ids;
mod one_of;
mod own_sets;
mod place_positions;
mod place_types;
mod redeclarers;
mod rising;
mod schema;
mod tables;
mod words;

pub use base::Base;
pub use hierarchy::Hierarchy;
pub use ids::Ids;
pub use schema::Schema;
