//! The trees that a parser of an exchange structure answers (ISO 10303-21, formal definition of the exchange structure):
//! parameters, and the records that hold them; and why a record doesn't fit its schema. Contracts see each tree as one of
//! the definitions.
#![tactic(auto)]

mod fault;
mod param;
mod record;

pub use fault::CheckFault;
pub use param::{Key, Param, Params};
pub use record::{Part, Parts, Record};
