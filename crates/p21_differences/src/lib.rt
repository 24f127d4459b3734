//! What differs in the instances of two accepted files under one schema, from the first to the second.
//!
//! `TwoFiles` walks both by rising names, and says of each name of which they don't say the same what changed: an instance
//! came, went, has another set of entities, or other values. `OtherValues` walks two instances of one set side by
//! side, and says at which attributes their values differ. Neither keeps anything for an instance: it is read from the canonical
//! lines again (`p21_model`).
//!
//! What a difference is stands in `p21_spec_differences`. That lines tell a meaning is said by `AreLinesOf` (`specs/Lines`), and
//! `proofs/SideBySide` joins the rows of two canonical records of one set: they have the same places, and the texts at a place are
//! equal exactly if the values are the same.
#![tactic(auto)]

mod change;
mod changes;
mod entity_sets;
mod laws;
mod texts;
mod values;

pub use change::Change;
pub use changes::TwoFiles;
pub use laws::lines_law;
pub use values::{OtherValue, OtherValues};
