//! What follows from the definitions alone, up to the claim that each meaning has one canonical file: the laws of values and
//! records, of files, and of a session that takes statement by statement. It holds no code beside them.
//!
//! The laws that lead to the claim stand in `p21_spec_laws`, in three modules: records and their printing cite those of
//! `records`, sessions those of `files`, and what a session keeps, statement by statement, those of `sessions`. The
//! statement of each law stands in `specs/*Laws`. docs/CLAIM.md has the order of the argument.
#![tactic(auto)]

mod files;
mod records;
mod sessions;

pub use files::{
    canonical_laws, dead_laws, end_laws, headline, reading_laws, size_laws, taken_laws,
};
pub use records::{header_laws, line_laws, need_laws, record_laws, schema_laws, value_laws};
pub use sessions::{
    among_laws, counting_laws, fitting_laws, held_laws, keeping_laws, offender_laws, output_laws,
    stored_laws, unrefused_laws, waiting_laws, whole_laws,
};
