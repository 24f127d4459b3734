//! The lines of a file's instances under other names, and of the numbered file: under the numbers that the model gives them.
//!
//! `numbered_lines` takes the instances of a file (`p21_numbering`), finds their order, and writes each record under the numbers of
//! this order (`src/lines`), by `write_record` of `p21_canon`. For that the record has to be meant under its new names, and so it is
//! in each file that reads (`proofs/Numbering`).
//!
//! A caller has the header and the data sections of the file as they stand in its canonical file. `numbered_laws` says that these
//! and the lines, put together as a store keeps them (`specs/Kept`), are the numbered file, where it is within the limits; and so it is
//! with the lines under whatever names differ (`lines_under`). `proofs/NumberedFile` shows it: the source with other names reads too, and has a canonical file by the laws of files, of which
//! the lines are those that stand here.
#![tactic(auto)]

mod laws;
mod lines;
mod numbered_line;

pub use laws::numbered_laws;
pub use lines::{lines_under, new_name, numbered_lines};
pub use numbered_line::NumberedLine;
pub use p21_numbering::{Instance, Unordered};
