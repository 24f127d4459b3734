//! Values one by one: where each ends in a canonical line, and what it is.
//!
//! `p21_model_values` knows parameters and no schema. A value is its text, and `IsTextOf` (`specs/Written`) says of
//! which parameter. Where a value ends is found by a walk over its bytes that counts parentheses outside of strings
//! (`size_within` of `specs/Ends`); `proofs/Scanning` shows that the bytes of each parameter leave strings and
//! parentheses as they were, so that the first comma or parenthesis outside is behind it (`value_ends`). What a value
//! is, is told by its first byte and by whether a point stands in it (`proofs/FirstBytes`).
//!
//! What a value hands out is cut from its text too: the characters of a string by how each is spelled there
//! (`proofs/LedCharacters`), the digits of a number by the parts that `p21_scan` finds (`proofs/NumberTexts`), and the
//! names in it, at any depth, by each `#` outside of strings (`names_in` of `specs/Named`, `proofs/NamedTexts`). The
//! nearest double is what `fast_float` reads from the text.
#![tactic(auto)]

mod characters;
mod digits;
mod elements;
mod kind;
mod references;
mod size;
mod value;

pub use characters::Characters;
pub use digits::Digits;
pub use elements::Elements;
pub use kind::Kind;
pub use references::References;
pub use value::Value;
