//! What is said of a file that is read by itself: its header in words, and how many records have which keyword.
//!
//! `header_words` writes a line for each value of the three records that each file has. A further record has a line with its
//! keyword alone: nothing here knows what its values are. `KeywordCounts` takes instances one by one, and holds what it
//! counts by distinct keywords.
#![tactic(auto)]

mod counts;
mod header;
mod keys;
mod lines;
mod values;

pub use counts::KeywordCounts;
pub use header::header_words;
