//! Usual instances of internal and of external mapping taken straight from their bytes to their canonical lines and their
//! references, with no token, no tree and no value made of them (ISO 10303-21, mapping of EXPRESS entity data types): what is
//! kept of a schema for that, the values of attributes, and the whole instance. All else is left to those who read it token
//! by token.
//!
//! The proofs of `p21_shorter_instances` make the typed record that is meant. For internal form `Rows` makes its
//! values, `Texts` its canonical record, and `Meaning` the whole; its entity set stands in the plan. For external form
//! `Joining` joins the simple records, and `Whole` is the whole; an entity set is tested once, by what the general way
//! asks of it (`specs/ExternalSet`), and then kept.
#![tactic(auto)]

mod aggregate;
mod ahead;
mod bare;
mod choice;
mod delimiter;
mod end;
mod entity;
mod external;
mod external_set;
mod given_up;
mod guess;
mod instance;
mod internal;
mod keyword;
mod length;
mod order;
mod own_parameters;
mod parts;
mod places;
mod plan;
mod reals;
mod reference;
mod row;
mod same;
mod scalar;
mod separated_delimiter;
mod sets;
mod step;
mod taken;
mod taker;
mod value;

pub use given_up::GivenUp;
pub use plan::Plan;
pub use sets::Sets;
pub use taken::Taken;
pub use taker::{Found, Taker};
