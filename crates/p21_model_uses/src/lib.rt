//! A table of who refers to whom, by the names that are used.
//!
//! `p21_model_uses` knows no file: a use is four numbers, and `UseRows` (`specs/UseRows`) says in which order uses stand. A
//! reference takes two numbers of 32 bits in the table: those of its user and of its attribute, each in a table of its own
//! (`specs/Tables`). The references to one name stand side by side, and a third table has each name that is used with where
//! they begin and end. `proofs/UseOrder` shows that rows that are sorted stand in order, each once, and `proofs/Grouped` that
//! the rows of one name stand side by side, and that those of a name are found.
#![tactic(auto)]

mod fault;
mod groups;
mod references;
mod rows;
mod table;

pub use fault::UsersFault;
pub use table::{UseTable, UsesLeft};
