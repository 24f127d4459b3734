//! What differs in two files whose instances are paired, whatever their names are.
//!
//! Both files are accepted as by `accept` of `p21_stream`. `paired_file` of `p21_numbered_file` then writes the first one anew, under the
//! names of its partners in the second, and `list_differences` of `p21_difference_rows` lists what differs in these two, with both names
//! in each row, behind the pairs where these are asked for. So what is listed is what differs by the pairs (`ListsByPairs` of
//! `specs/ByPairs`), and `pairing_laws` says what an empty list means.
//!
//! Where files differ, and so do more pairs than `MOST_CHOICES` that were chosen among several, no list is made: others could be shorter.
#![tactic(auto)]

mod by_pairs;
mod reading;

pub use by_pairs::PairRows;
pub use p21_difference_rows::{AttributeName, DifferenceList, GivenTolerance, LeftOut, RowForm};
pub use reading::paired_differences;
