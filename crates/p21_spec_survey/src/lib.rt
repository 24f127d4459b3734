//! What a survey of a file lists, and where it goes on behind a statement that is refused: the definitions, and the laws about them. It
//! holds no code.
#![tactic(auto)]

mod laws;

pub use laws::{
    kept_laws, list_laws, reading_laws, same_laws, signpost_laws, taking_laws, whole_laws,
};
