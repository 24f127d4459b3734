//! Where the reading of a file goes on behind a statement that is refused: the first signpost in bytes that come in pieces (`Landmark` of
//! `p21_spec_survey`).
//!
//! No byte is read twice. Of what is passed over the bytes of the signpost that is open are kept and no others, so that a reader of
//! statements takes a landmark that pieces cut from its own bytes. A reader that ran along from each `#` would do the same work at every `#`
//! of the bytes that are passed over, and would have to be set anew there. The digits of a name are told as a number besides, as far as it is
//! below 2^64 (`Numeral`).
//!
//! Of a refused statement the bytes are kept, and `signpost_in_string` looks through them once for the first signpost in a string
//! (`proofs/Statements` says what that is of a whole statement): where a lexer stands says whether a string is open (`in-string`,
//! `string-in` in `proofs/Lexed`), and a signpost at the front of bytes is read by the same steps (`proofs/Standing`). Where a file ends in a
//! remark that nothing ends, `signpost_in_remark` looks through this in the same way (`proofs/OpenRemarks`); and where no remark of many ends, `signpost_in_unended`
//! looks no further than to the signpost (`proofs/EndlessRemarks`).
//!
//! `specs/Reading` says what a whole byte list is read as, by `step` alone; `proofs/Finding` joins that to the definitions: behind bytes
//! in which no signpost is whole the state says whether one may begin (`Runs`), there each one is read to its end (`signpost-run`), and
//! what is read to its end is one (`Shapes`).
#![tactic(auto)]

mod behind;
mod class;
mod front;
mod mode;
mod remarks;
mod seeker;
mod signpost;
mod step;
mod strings;
mod unended;

pub use behind::is_opened_behind;
pub use remarks::signpost_in_remark;
pub use seeker::Seeker;
pub use signpost::{Numeral, Signpost};
pub use strings::signpost_in_string;
pub use unended::signpost_in_unended;
