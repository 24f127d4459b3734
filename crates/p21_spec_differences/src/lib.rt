//! What differs in two files: the definitions, and the laws about them. It holds no code.
#![tactic(auto)]

mod laws;

pub use laws::difference_laws;
