//! Whole files: read in pieces, accepted or refused, written in their canonical form, and compared. A session reads a file
//! piece by piece: its statements are checked as they come, and what they leave is kept. A survey (p21_stream_survey) goes on
//! behind what is refused, and lists it: `src/listing` feeds it what a reader gives, and `specs/Survey` says what its list is.
//!
//! A session is a `StatementReader` (`p21_stream_statements`), a `Kept` (`p21_stream_kept`) and a refusal.
//! `StatementReader::step` speaks of bytes and statements alone, `Kept::take_*` of statements alone; neither knows the
//! other. A `Walk` (`src/walk`) reads a file piece by piece with both: `specs/Walk` says what a token, an instance and a
//! piece give, and `proofs/Walking` has a lemma for each branch. `IsLive` (`specs/Session`) joins the statement reader and
//! what is kept. `Progress` is a walk with the refusal that is answered again.
//!
//! A session keeps to its limits (`IsBounded`) by an invariant of its type: while it has refused nothing, it stands for
//! some bytes, and these have no fewer bytes than references. So `Kept` is asked to take an instance only where it
//! stands in a tree behind the statements that are kept, with fewer than 2^64 tokens (`Follows`), and the count of
//! references can't overflow.
//!
//! `p21_stream` has the calls on whole files. `accept` feeds a session piece by piece: `feed_all` is the loop,
//! `feed_piece` does one read and feeds what it gave, and `proofs/Feeding` has a lemma for each branch. `same_meaning`
//! reads both files by `read_whole`: what is kept of the first goes into the session of the second
//! (`AnySession::beside`), and neither is put into order.
#![tactic(auto)]

mod alone;
mod any_session;
mod claim;
mod comparing;
mod counting;
mod held;
mod laws;
mod listing;
mod located;
mod progress;
mod read;
mod session;
mod shared;
mod taking;
mod text;
mod walk;
mod writing;

pub use alone::{LocatedAlone, SurveyedAlone, survey_alone, survey_alone_located};
pub use claim::headline;
pub use comparing::{Which, same_meaning, same_meaning_located};
pub use counting::{Counted, count, count_located};
pub use held::Held;
pub use laws::session_laws;
pub use listing::{LocatedSurvey, Refusals, Surveyed, survey, survey_located};
pub use located::Located;
pub use p21_express::{Schema, SchemaFault, read_schema};
pub use p21_grammar::GrammarFault;
pub use p21_grammar_tree::CheckFault;
pub use p21_mapping_values::Need;
pub use p21_stream_io::{ReadFault, Watched, WriteFault};
pub use p21_stream_output::{Accepted, Cursor};
pub use p21_stream_sieve::{Indices, PassedOver};
pub use p21_stream_statements::{
    At, Expected, Fault, KINDS, Kind, Place, Places, Refusal, StatementReader,
};
pub use p21_stream_survey::Extent;
pub use p21_tokens::{Absent, TokenFault};
pub use p21_values::{Limits, Name, NoMemory};
pub use read::{accept, accept_located};
pub use session::Session;
pub use shared::SharedSession;
pub use text::{canonical, canonical_located};
pub use writing::{rewrite, rewrite_located};
