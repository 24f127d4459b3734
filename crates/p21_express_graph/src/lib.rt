//! The parts of a schema with all names resolved (ISO 10303-11, Entity declaration, Type declaration): numbers of entities
//! and types, places, types where they are used, and what a declared type is. Bounds and widths are whole numbers up to
//! 4,294,967,295. Over these numbers stand the graphs of entities and types: their names, the orders of supertypes, circles
//! and closures, what types rename, and what each select offers.
//!
//! The tables that are made of the contents of a schema are plain structs with public fields (`PrefixLists`, `Index`,
//! `Offered`, `Ranking` of `p21_express_graph`): what they hold is a condition that each call names (`AreRunPrefixes`,
//! `IsIndex`), and `Hierarchy` and `Schema` keep them in private fields behind the invariants of their models. The names
//! of a schema are resolved with its contents alone, so `p21_express_outline` stands on `p21_express_graph` and needs no
//! `Schema`.
//!
//! A schema is made in one pass. The heads of `hierarchy` and `tables` of `p21_schema` say which tables stand behind the
//! models of `Hierarchy` and of `Schema`.
//! `p21_express_graph` makes those that follow from names, supertypes and types alone, and has three helpers for that:
//! `settled_order` lists numbers so that each stands behind those that come next to it, `collected_lists` uses that
//! list to visit each number once, and `inverted_lists` inverts a table of lists. `PrefixLists` has the order of each
//! entity as the front of a run, and `all_above` (`specs/Above`) the front in whose index `is_a` looks for a proper
//! supertype, and those outside of it; `sharing` takes the front of a supertype where that saves an index. `rising`
//! keeps the closure of each entity, rising by name, where it has 64 entities at most (`specs/RisingSets`). `own_sets`
//! keeps whether the closure has two entities of one ONEOF list: `Holders` (`holders`) has for each ONEOF list the
//! entity that was noted there last, and for which closure (`noted_in` of `specs/NotedEntities`). `redeclarers` has the
//! entities that redeclare each place, and where in its lists each entity redeclares a place; `decision_among` decides
//! by entities of which those count that are the closure's (`AreMembers` of `specs/Decisions`), so that one walk serves
//! sets and closures. What redeclarations need stands in a `Hierarchy`: its tables are determined by supertypes and
//! ONEOF lists alone (`proofs/UnchangedTables`), and stay when the entities redeclare something.
#![tactic(auto)]

mod above;
mod collected_lists;
mod direct_renaming;
mod gathered;
mod indexes;
pub mod inverted_lists;
mod kind;
mod names;
mod number;
mod offered;
mod orders;
mod place_type;
mod prefixes;
mod ranking;
mod redeclaring;
mod schema_contents;
mod settle;
mod sharing;
mod type_use;

pub use above::{Above, all_above};
pub use collected_lists::{is_among, rising_numbers};
pub use direct_renaming::{all_ends, declared};
pub use indexes::{Index, indexes_of};
pub use kind::{Member, Members, TypeKind, Words};
pub use names::{Names, are_distinct};
pub use number::{EntityId, Place, TypeId};
pub use offered::{Offered, all_offered, type_lists};
pub use orders::{all_orders, numbers_of};
pub use place_type::PlaceType;
pub use prefixes::{PrefixLists, RunPrefix};
pub use ranking::{Ranking, rank_entities};
pub use redeclaring::contents_with;
pub use schema_contents::{
    Attribute, Defined, Entity, KnownNames, Redeclarations, Redeclared, SchemaContents,
};
pub use settle::settled_order;
pub use type_use::{TypeUse, Width};
