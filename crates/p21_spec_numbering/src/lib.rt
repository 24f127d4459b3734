//! Names of instances that a model itself gives: the definitions, and the laws about them. It holds no code.
#![tactic(auto)]

mod laws;

pub use laws::{numbering_headline, numbering_laws};
