//! What the standard says of a file by itself, without a schema: the definitions, and the laws about them. It holds no code.
#![tactic(auto)]

mod laws;

pub use laws::{ill_formed_laws, no_file_laws, reading_laws};
