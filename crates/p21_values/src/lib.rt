//! The scalar values of an exchange structure (ISO 10303-21): how each is read from the bytes of one token, when two
//! mean the same, and the one canonical spelling of each.
#![tactic(auto)]

mod bits;
mod bytes;
mod canonical;
mod decimal;
mod fault;
mod limits;
mod name;
mod prefix;
mod text;
mod whole;
mod word;

pub use bits::Bits;
pub use canonical::{Canonical, restore_on_failure};
pub use decimal::Decimal;
pub use fault::{NoMemory, ValueFault};
pub use limits::Limits;
pub use name::Name;
pub use prefix::{Number, read_number};
pub use text::{Text, long_directive, short_directive};
pub use whole::Whole;
pub use word::Word;
