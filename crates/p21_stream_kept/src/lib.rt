//! What a session keeps of the statements of a file that it has taken, and what it tests of header records.
//!
//! What is kept stands in crates of its own: `p21_stream_store` has the instances with their lines (`Instances`:
//! `NamedLines`, and the memberships that are noted of names), or their names and memberships alone
//! (`NamedMemberships`: what is noted of names, `NamedLines` with empty texts for the others, and a bit for each small
//! name that has come; `noted_in` of `specs/NamedMemberships` says which instances the bytes stand for), entity sets by
//! number (`EntitySets`), and memberships by number, each of which is a section and the number of a set;
//! `proofs/Numbering` shows for both what a tree of numbers finds, and `proofs/LaneLemmas` that rows of 16 entities are
//! the same where all their lanes are. `p21_stream_output` puts their positions into order at the end, and writes and
//! compares lines that are looked up together (`Lines` of `p21_stream_store`; `further_put` and `further_behind` in
//! `proofs` say that some more stand behind those before); `src/cursor` reads the file that they make line by line.
//! There a file is a list of parts, and a part a list of lines (`specs/Reading`): a step goes to the next line or the
//! next part, and what stands behind the cursor stays the same (`next-line` and `next-part` in `proofs/Reading`). The
//! references of an instance wait without a look until 1,024 have come (`Waiting` of `p21_stream_kept`); then those
//! that are served are dropped. All that wait are looked at again whenever more references have come than were left
//! waiting the time before, and more than 1,024. What is left moves to the front (`drop_served`, whose loop keeps
//! `AreLooked` of `proofs/Dropping`), and room is given back where less than half of it is used. For sets of more than
//! 16 entities `Servers` remembers which entity serves what, and for all others it guesses where the entity stands;
//! what such a set doesn't serve is known for one look (`Judgements`, whose answers are right for the schema of that
//! look: `AreRight`), and why references that wait at the end are refused is found by `refusals_of` (`src/judgements`).
//! A `Kept` keeps lines, counts them, or holds them against those of an earlier file (`KeptInstances`; `lines` of
//! `Keeping.Kept`): where it keeps none, the text of each `StoredEntry` is empty (`Stored.kept_text`), and the numbers
//! that refusals rest on are the same. Beside an earlier file (`Beside`, over `Earlier`) it keeps one flag for all
//! lines, which stays up exactly while each is a line of that file (`equal_is` of `Keeps`); `KeptTellSame`
//! (p21_spec_laws) shows that this flag, two counts, the header lines, the headings of sections and the section of each
//! instance tell whether both have one canonical file; sections are told apart by their numbers (`HaveNumbers` of
//! `specs/Sections`). That what is counted is of a canonical file follows from the definitions alone:
//! `Rising.rising-exists` (p21_spec_laws) shows that its blocks are there, and `Counts.end-counted` (p21_stream) makes
//! the output of them that `check` speaks of. An instance is taken only where a section stands (`Follows`), and a file
//! is ended only where its statements are whole (`IsKeptOfFile`); its size is then the one that was counted while its
//! lines were kept. A position is found by name in a run of numbers that rise by equal steps (`place_in` of
//! `specs/Runs`), or else in pages or a tree (`position_in` of `specs/Positions`). Both tables by name are `Pages`:
//! `number_of` (`specs/Tables`) is the number of a name, and `GrowsWithin` says how much room a table gets. No list has
//! the names: `NamesOf` (`specs/Positions`) is the list at whose positions they are found, of which there is one at
//! most, so that it is a fact of `NameTable` and its view reads it. `NamedLines::order` walks along the names (`Walked`
//! in `proofs/OrderLemmas`). What is seen of texts has the room for a further one beside them (`HeldTexts`,
//! `HeldLines`), so that a text for which there is room is added without a refusal.
#![tactic(auto)]

mod beside;
mod canonical_limits;
mod earlier;
mod end;
mod found;
mod judgements;
mod kept;
mod kept_instances;
mod schema_name;
mod sections;
mod served;
mod servers;
mod shape;
mod stored;
mod waiting;
mod workspace;

pub use found::FoundInstance;
pub use kept::{Kept, Reference};
pub use schema_name::names_schema;
pub use shape::line_size;
pub use workspace::Workspace;
