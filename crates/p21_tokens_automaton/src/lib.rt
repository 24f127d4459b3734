//! What each byte does to a reader of tokens (ISO 10303-21, tokens): the states between two bytes, and the step from
//! one to the next. It keeps no bytes and makes no tokens; p21_tokens does.
//!
//! The states between two bytes are a crate of their own, `p21_tokens_automaton`. It is small, has no memory and no
//! loop, and its theorems about whole byte lists are proved once. The lexer adds memory, counts and limits.
//!
//! `specs/Reading` of `p21_tokens_automaton` says what a whole byte list is read as, by `advance` alone;
//! `proofs/Complete`, `Sound` and `Theorems` join that to the laying of tokens (docs/dev/PROVING.md, "Forms that
//! work").
#![tactic(auto)]

mod action;
mod binary;
mod gap;
mod mode;
mod name;
mod number;
mod run;
mod text;
mod word;

pub use action::advance;
pub use mode::{
    Absent, Action, BinaryMode, Marker, Mode, NameMode, NumberMode, Single, TextMode, WordMode,
    Wrong,
};
pub use run::{Run, blanks, plain_characters, run_of};
