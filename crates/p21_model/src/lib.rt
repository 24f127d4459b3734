//! The model in hand: the instances of an accepted file, and the value of each at each attribute, read from the canonical lines.
//!
//! An accepted file keeps its canonical lines, and `p21_model` reads what is asked for from them again: an instance is
//! its name, its schema and its line, and nothing is kept for it. That a line is the canonical statement of a record
//! with a meaning (`IsInstanceText` of `p21_spec_file`) is what a session promises of each (`texts_are` of
//! `AreInstancesOf`, `p21_stream`); so the clauses speak of a line that is stated so, and need no word of sessions.
//!
//! `p21_model` joins parameters with the places at which they stand. `AreRowsOf` (`specs/Rows`) says which rows of a
//! place and a parameter a record has, in internal and in external mapping, and `AreMeant` that each parameter stands
//! for the value that the meaning has there. `Attributes` hands these rows out one by one: `TellsRows` (`specs/Left`)
//! says which are left, `proofs/RowsLeft` cuts the first one off, and `proofs/PlacesLeft` does the same for places.
//! `proofs/Lines` leads from a line to its record, and `proofs/Meanings` from its meaning to the rows.
//! `Entities` hands out the entity set in the same way, keyword by keyword (`specs/EntitiesLeft`, `proofs/EntitySets`).
//!
//! `Users` turns the references round. `IsUse` (`specs/Uses`) says what a use of a name is; `proofs/UseNames` and
//! `proofs/UsesFound` follow the walk that finds all, value by value and instance by instance, and `p21_model_uses` keeps them.
#![tactic(auto)]

mod attributes;
mod entities;
mod instance;
mod model;
mod part;
mod places;
mod record;
mod users;

pub use attributes::{Attribute, Attributes};
pub use entities::Entities;
pub use instance::Instance;
pub use model::AcceptedModel;
pub use p21_model_uses::UsersFault;
pub use p21_model_values::{Characters, Digits, Elements, Kind, References, Value};
pub use users::{Use, Users, UsersOf};
