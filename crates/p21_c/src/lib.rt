//! The library for C: checks, canonical files and comparisons of files in memory, the same where names of instances don't count, all
//! refusals of one and what one says of itself without a schema, and sessions that are kept between calls.
//! `p21.h` beside the sources declares the calls.
//!
//! In `p21_c` the calls of C stand over functions that know no handle; the statuses and reports that both answer are
//! made in `src/answers`. `Handle` is a pointer that is null, or that points to a content in a block of its own; a call
//! that changes it takes the content out, and puts it back (`src/handles`). A call that only reads takes a `Lent`, the
//! same pointer, and reads the content where it lies (`src/lent`). The fields of a handle, and of a box that is taken
//! apart, are in sight in `src/components` alone, and neither type may be let go: so no other function can lose a
//! block. `proofs/components` are proofs by hand over `proofs/Owning`, as `proofs/lent` is over `proofs/Lending` and `proofs/spans` of
//! where bytes lie, and all else is proved over what they promise.
//!
//! The calls over an accepted file (`src/model_instances`, `src/model_values`, `src/model_users`) and over its schema (`src/model_schema`,
//! `src/model_types`) hand out bytes where they lie (`src/spans`), and lists in room that C gives, one element after the other
//! (`AreFirst` of `specs/Filled`, `proofs/Filling`).
#![tactic(auto)]

mod accepting;
mod answers;
mod components;
mod contents;
mod files;
mod handles;
mod lent;
mod lists;
mod model_instances;
mod model_schema;
mod model_types;
mod model_users;
mod model_values;
mod names;
mod numbered;
mod places;
mod schemas;
mod sessions;
mod spans;
mod syntax;
mod texts;
mod versions;
