//! Pairs of instances of two files: the definitions, and the laws about them. It holds no code.
#![tactic(auto)]

mod laws;

pub use laws::pairing_laws;
