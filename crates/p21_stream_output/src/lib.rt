//! An accepted file: how it is made of what a session keeps, its canonical lines in their order, how they are written
//! and read piece by piece, whether a text is theirs, and in which section an instance stands.
#![tactic(auto)]

mod accepted;
mod compare;
mod cursor;
mod ending;
mod filing;
mod named_sections;
mod output;
mod search;

pub use accepted::Accepted;
pub use cursor::Cursor;
pub use ending::accepted_file;
pub use named_sections::NamedSection;
