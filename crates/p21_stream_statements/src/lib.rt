//! The statements of a file that comes in pieces, by a lexer and a parser behind it; and why a file is refused, and where.
//!
//! Where a refusal stands in the file is found without a second reading. The lexer counts the bytes that it has taken,
//! and notes where the open token and the statement begin (`Starts`, p21_tokens), which its view leaves out: `Places`
//! says both, and `Place::of` (p21_stream_statements) which of them a fault has. Of a byte that no token goes on with
//! it is proved that it is the refused one (`RefusesByteAt`, carried through the walk by `StepPlaces` and `places` of
//! `IsRest`); the other places are held against `FAULTS` of `tests/tools_where.py` by rows in any cut (`places` of
//! `p21_test_stream`). What stands inside a header record, the line of a section or the record of an instance is found
//! by reading that statement alone once more, from its bytes: of a statement that is open at the end of a piece these are
//! kept (`Source`), of an instance 65,536 at most, and given up with its `;`. Where in a record it is, the check of the
//! record says (`Trail`, p21_mapping), and no clause speaks of it. An instance that is taken straight from its bytes notes where it begins only where it is
//! refused (`note_statement`).
//!
//! What could stand in place of a token that is refused as unexpected is asked of the parser behind the refusal (`Expected`).
//!
//! Behind a statement that is passed over the reading goes on where `StatementReader::reopen` says (`specs/Reopening`). What is
//! held at the beginning of a statement follows from the stage of the file, the limits and the place, so nothing is kept for it:
//! the bytes that are passed over become separators in the history, which count for places and for the limit of the file, and
//! are of no statement.
#![tactic(auto)]

mod expected;
mod fault;
mod header_places;
mod laws;
mod marks;
mod open;
mod parameters;
mod place;
mod record_places;
mod refusal;
mod source;
mod statement_reader;

pub use expected::Expected;
pub use fault::Fault;
pub use header_places::{Form, HeaderRecord, header_record};
pub use laws::reader_laws;
pub use open::is_open;
pub use p21_grammar::{KINDS, Kind};
pub use p21_tokens::Places;
pub use place::Place;
pub use refusal::{At, Refusal};
pub use source::{Source, place_inside};
pub use statement_reader::StatementReader;
