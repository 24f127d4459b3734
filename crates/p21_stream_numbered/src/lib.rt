//! Whole files under the numbers that their models give to their instances: written, and compared but for their names.
//!
//! A file is read and accepted as by `accept` of `p21_stream`, and its canonical text is numbered by `p21_numbered_file`: so each
//! record is read once more by its tokens. What is said of the canonical text is said of the file, since both mean the same
//! (`proofs/Sources`).
#![tactic(auto)]

mod comparing;
mod counting;
mod numbering;
mod refusal;

pub use comparing::same_but_for_names;
pub use counting::count_numbered;
pub use numbering::numbered;
pub use p21_stream::{Accepted, At, Counted, Fault, Limits, Name, Refusal, Schema, Watched, Which};
pub use refusal::NumberingRefusal;
