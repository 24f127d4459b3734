//! The tokens of an exchange structure (ISO 10303-21, tokens), read from bytes that come in pieces of any size, and the
//! canonical spelling of one scalar parameter.
//!
//! `Lexer::next` (`p21_tokens`) is offered a piece, and takes bytes until a token is known:
//!
//! 1. Between tokens `scan` asks `leading_token` for a token that stands whole in the piece with the byte behind it,
//! and then passes blanks. Most tokens are read this way, where they lie. All others take the next steps, in pieces of
//! any size.
//! 2. `walk` takes a run of like bytes at once, or gives one byte and the state to `advance` of the automaton.
//! 3. The answer says what to do: pass over a separator, keep a byte, add a character to a string, close a token, end
//! it before this byte, or refuse.
//! 4. At the end of a token `read_token` has `p21_values` read the pending bytes, and a `Token` comes out.
//!
//! Where whole statements are read elsewhere, `lexer/passing` passes over their bytes (`specs/Passing`): behind a `;`
//! the lexer holds what it holds at the start of a statement, and only the count of the file's bytes grows. Since all that
//! it holds there is this count, it can be taken back to there (`lexer/reopening`, `specs/Reopening`).
#![tactic(auto)]

mod fault;
mod laying;
mod lexer;
mod param;
mod places;
mod prefix;
mod read_token;
mod step;
mod token;
mod within;

pub use fault::TokenFault;
pub use laying::one_laying;
pub use lexer::Lexer;
pub use p21_tokens_automaton::Absent;
pub use p21_values::{
    Bits, Canonical, Decimal, Limits, Name, NoMemory, Text, ValueFault, Whole, Word,
};
pub use param::canonical_param;
pub use places::Places;
pub use token::Token;
