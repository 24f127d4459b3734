//! The lexical elements of EXPRESS (ISO 10303-11), here lexemes, read from a text one by one, and the runs of them that
//! are read over.
#![tactic(auto)]

mod bytes;
mod fault;
mod lexeme;
mod lexemes;
mod reserved;
mod runs;
mod skip;

pub use fault::{SyntaxFault, Wanted};
pub use lexeme::{FirstLexeme, Lexeme, one_laying, read_first_lexeme};
pub use lexemes::{Lexemes, lexemes_are_laid};
pub use reserved::upper;
pub use runs::{Mark, read_over};
