//! A log of the reading of a file whose refused statements are passed over: which of its bytes are kept, statement by statement (`IsRead` of
//! `p21_spec_survey`).
//!
//! A `Log` feeds a reader of statements, and keeps the bytes of the statement that is open. Where this one ends the caller judges it, and
//! says what is done with it. The clauses speak of each reading that the log stands for (`Logs`): the reader stands for a history in which
//! the kept bytes stand, with separators in the place of those that are passed over (`specs/Log`).
//!
//! Where a step is refused, `bytes_with` has the statement and what stands behind it, `opening_of` says whether it begins with ENDSEC,
//! `refused_at` and `broken_front` which bytes stand in front of what is refused, and `pass` passes it over, with `pass_on` for the pieces that come. So
//! it is done too with an instance that `leave_out` leaves as it is, and where the file ends inside a statement with a refusal that
//! `ends_within` tells. `log_laws` says that all three are broken as `pass` wants it, and where the reading ends. A clause speaks of each file that begins with known bytes, and so of whatever pieces come: a caller that goes from piece to piece says of all
//! bytes to come that the log stands for the reading, with these ahead.
#![tactic(auto)]

mod front;
mod laws;
mod log;
mod offering;
mod opening;
mod passage;
mod remark;
mod within;

pub use front::is_front;
pub use laws::log_laws;
pub use log::Log;
pub use opening::{Opening, opening_of};
pub use passage::Passage;
pub use remark::{begins_unended, ends_no_remark};
pub use within::ends_within;
