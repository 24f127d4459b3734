//! Tokens taken straight from their bytes to their canonical spellings, with no value made of them (ISO 10303-21,
//! clause 6: tokens). Only what is usual is taken; all else is left to those who read it byte by byte. A real is found
//! in lanes: where the point stands, where the real ends, and which of its digits count.
//!
//! The crates of the shorter way, `p21_shorter_tokens` and `p21_shorter_instances`, stand apart from the lexer and the
//! check of records, because they may give up on any token, value or instance, and so owe nothing for what they leave.
//! Each has one relation that says what a call owes: `specs/LeadingToken` for a token, `specs/Steps` for a step of a
//! plan, `specs/TakenValues` for a value, and `specs/Instance` for an instance. A function for a value that isn't
//! inlined answers how many bytes the value has (`TakesFront`), and its caller cuts them off: a count comes back in
//! registers, while a slice that may be missing goes through memory, and again at each `match` around the call. A real
//! whose digits end within 32 bytes is found in lanes (`masks` and `places` of `p21_shorter_tokens`): two masks of 16
//! or 32 bytes, which bytes are no digits and which are zeros, give the point, the end, and the first and the last
//! digit that counts (`specs/Places`), and its significand is written by whole rows of 16 bytes, or of 32 where it is
//! longer (`significand` of `p21_shorter_tokens`; `proofs/LanePlaces` leads to the words in which runs of digits are
//! spoken of). Where it has no exponent, it is appended in place (`append_plain_real`), or nothing is, so that what
//! refuses it may try the next way with the draft as it was (`append_other_real`). Every other real is cut by the
//! scanner (`append_far`). Elements that are reals and aren't compared have a loop of their own (`reals` of
//! `p21_shorter_instances`), whose promise speaks of no schema (`specs/Reals`); it looks for separators before a real
//! only where a blank stands first or no plain real does. There a real is taken together with the `,` or `)` right
//! behind it (`append_marked_real`): that byte says by itself that no exponent follows, and the room for it is known. A
//! call that is rare on the way of usual instances is marked `cold`, so that LLVM lays it out apart and keeps the
//! registers for what is usual. A string that isn't its own canonical spelling is taken unit by unit (`respelled_text`
//! of `p21_shorter_tokens`). A directive of groups of four digits is taken group by group,
//! and everything else by the steps of the automaton; `proofs/TextSound` of `p21_tokens_automaton` says what these lead
//! to.
#![tactic(auto)]

mod bits;
mod character;
mod digits;
mod directive;
mod draft;
mod exponent;
mod gap;
mod groups;
mod item;
mod keyword;
mod masks;
mod name;
mod number;
mod places;
mod real;
mod respelled_text;
mod significand;
mod text;

pub use bits::append_bits;
pub use draft::Draft;
pub use gap::behind_separators;
pub use item::{append_item, append_logical};
pub use keyword::{append_keyword, leading_keyword};
pub use name::append_name;
pub use number::append_whole;
pub use real::{append_marked_real, append_real};
pub use text::append_text;
