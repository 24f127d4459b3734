//! Files read by themselves, without a schema: in pieces, well formed or refused.
//!
//! `syntax` (`p21_stream_syntax`) reads a file without a schema, from a reader in pieces, and `syntax_of` one that lies in
//! memory. What the `StatementReader` of `p21_stream_statements` says of a refusal speaks of no schema: no file in the grammar within
//! the limits begins with the bytes, or they are none. `Given` keeps the records of the header, the name of the schema (`KnownSchema`),
//! the data sections, the names of the instances in a `NamedMemberships`, how many records have which keyword (`KeywordCounts`), and the
//! references to names that have not come (`Waiting`); these are looked at again whenever twice as many wait as were left the time before,
//! and 1,024 at least.
//! `specs/Given` has what is kept as lists (`Kept`), and how these stand to the statements (`Keeps`): `proofs/Taking`
//! has a lemma for each statement that is taken or refused, and `proofs/Walking` those for a token, the rest of a piece
//! and the end. Instances are taken by their tokens, one at a time.
//!
//! `syntax_located` and `syntax_of_located` answer where a refusal stands too, as a session does: by where the lexer stands, and
//! inside a header record or the line of a section by its bytes (`Source` of `p21_stream_statements`). No clause says that; it
//! is held against the places of a session by `located` of `p21_test_syntax`.
#![tactic(auto)]

mod given;
mod ill_formed;
mod known_schema;
mod reading;
mod references;
mod schema_name;
mod sections;
mod shape;
mod walk;
mod well_formed;

pub use given::Given;
pub use ill_formed::IllFormed;
pub use p21_syntax_words::KeywordCounts;
pub use reading::{syntax, syntax_located, syntax_of, syntax_of_located};
pub use references::Reference;
pub use well_formed::WellFormed;
