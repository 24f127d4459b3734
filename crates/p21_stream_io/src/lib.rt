//! Readers and writers of whole files: their calls are counted, their bytes are read in pieces and written whole.
//!
//! Readers and writers are watched (`p21_stream_io`): `AnswersReads` and `AnswersWrites` are a reader and a writer with
//! a relation that their calls keep, which every reader and writer has.
#![tactic(auto)]

mod answering;
mod fault;
mod transfer;
mod waiting;
mod watched;

pub use answering::{AnswersReads, AnswersWrites};
pub use fault::{ReadFault, WriteFault};
pub use transfer::{read_piece, write_whole};
pub use waiting::Waiting;
pub use watched::Watched;
