//! Pairs of instances of two files, whatever their names are.
//!
//! `partners` takes the instances of two files and answers for each of the first which one of the second is its partner. Both files are
//! ranked as one population, each with references to its own instances (`src/population`): the nodes of `p21_numbering` get positions
//! for names, and since names don't count for ranks, these are the ranks of the joined file of `p21_spec_pairing`
//! (`proofs/JointNodes`).
//!
//! Partners have one set of entities; `src/kinds` has a number for each set. First those are paired that are alone in their last rank
//! in both files (`src/alone`), then those that are alone in what they say and in what is around them, round by round
//! (`src/around`), and at last what is left in the order of the files (`src/left`), until no two of one set are. How many are paired by
//! this order alone, where it could have been another (`src/choices`), and differ, no clause says.
//!
//! Each pair is made by one step that refuses what has a partner already, or is of another set (`with_pair` of `src/pairs`). So keys
//! that say who is alike need no proof, and any choice of them meets the contract (`LeadToPairing` of `specs/Partners`): names that
//! follow the partners are a pairing, of which `pairing_laws` says what is known where nothing differs. `names_by` gives such names
//! (`src/names`).
#![tactic(auto)]

mod alone;
mod around;
mod choices;
mod kinds;
mod left;
mod matching;
mod names;
mod pairs;
mod population;
mod whole;

pub use matching::{FoundPartners, MOST_CHOICES, partners};
pub use names::names_by;
pub use p21_numbering::Instance;
