//! The examples of callers, over files in memory: tables of files with the answers of each. Beside them callers of p21_express,
//! p21_mapping and p21_canon, each of which names no other library.
#![tactic(auto)]

mod canon;
mod express;
mod mapping;
#[cfg(test)]
mod tests;

pub use canon::{are_same, header_text};
pub use express::{attribute_count_of, count_entities};
pub use mapping::{count_references, lacked_memory, may_stand_for};
