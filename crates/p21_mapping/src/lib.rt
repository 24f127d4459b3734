//! Records checked against a schema (ISO 10303-21, Mapping of EXPRESS entity data types: internal mapping, external
//! mapping): the typed record that each means, and what it needs of the instances that it refers to. First come the
//! entities of a record and what is asked of their set, then each parameter and the type of its place (mapping of EXPRESS
//! data types).
//!
//! The check of a record (`p21_mapping`) has three parts: `shape_of` looks at keywords, entity sets and numbers of
//! parameters, before any parameter is looked at; `fit_place` looks at one parameter and its type; and
//! `check_owned_record` puts both together. Places are read entity by entity in the order of the record, so that needs
//! and refusals keep that order; rows are put into the order of the entity set at the end.
//!
//! A record of internal form asks the tables of its entity (`own_clashes`, `leaves_open`, `own_rising`, `own_type`),
//! and one of external form asks by definition (`find_clash`, `rising`, `type_at`); docs/dev/LAYERS.md says what each
//! costs. Before `type_at`, `type_among` leaves out the entities that don't redeclare the place, where they are the
//! most: `p21_mapping/proofs/Redeclaring` shows that they decide nothing. `Listed::own` carries the entity, and
//! `IsOwnClosure` (`p21_mapping/specs/Shape`) says that the entity set is its closure; `p21_mapping/proofs/OwnSets`
//! shows that types, clashes and open places depend on the members of a set alone. `p21_mapping/proofs/RowLists` and
//! `Taking` see a row as a list of quadruples (place, parameter, value, needs), so that the proof walks one list and
//! meets no square of cases; `proofs/Whole.is-checked` is the one place where all parts meet.
#![tactic(auto)]

mod aggregate;
mod among;
mod arranged_rows;
mod bounds;
mod by_reference;
mod check;
mod distinct;
mod fitted;
mod instance;
mod key;
mod known;
mod members;
mod needed;
mod param;
mod place;
mod places;
mod positions;
mod record;
mod refused_shape;
mod scalar;
mod scalar_copies;
mod shape;
mod trail;

pub use aggregate::{allows_count, is_unique};
pub use bounds::is_within;
pub use by_reference::check_record;
pub use check::check_owned_record;
pub use known::KnownEntities;
pub use needed::serves;
pub use p21_express_graph::{EntityId, Member, Place, TypeId};
pub use p21_grammar_tree::{CheckFault, Key, Param, Params, Part, Parts, Record};
pub use p21_mapping_values::{Ids, Need, Rows, Typed, Value, Values, write_value};
pub use p21_schema::Schema;
pub use p21_values::{Name, NoMemory};
pub use param::copied_param;
pub use record::copied_record;
pub use shape::{check_members, check_set, has_abstract_leaf};
pub use trail::Trail;
