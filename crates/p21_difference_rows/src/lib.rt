//! What differs from one accepted file to another one, as rows: lines for people, or JSON objects (RFC 8259).
//!
//! `list_differences` writes a row for each difference that isn't left out. The beginning of each row says what it is about, and is
//! proved (`front`, in `specs/Fronts`); so is that the rows about instances are of exactly what differs in these and isn't left out
//! (`IsToList` of `p21_spec_differences`, `specs/Listed`), and that there is none about a header that is left out. What stands behind that
//! beginning, the values before and after with the index of the element that differs, is tested, and so are the rows about header
//! sections, data sections and the sections of instances, and what the first line and the last one say; but a row holds no line feed, so
//! none can pass for two.
//!
//! `pair_rows` writes a row for each name that both files have, for a first file that stands under the names of partners.
//!
//! `instances` walks the names of both files, `values` the attributes of two instances, and `outlines` all else. `proofs/Walk` says
//! what is listed so far, name by name, and `proofs/Beside` does so attribute by attribute. `left_out` says what is to be left out, and
//! `said` what the first and the last line say of it.
#![tactic(auto)]

mod fronts;
mod instances;
mod keywords;
mod left_out;
mod list;
mod names;
mod narrowing;
mod outlines;
mod pairs;
mod pushing;
mod references;
mod row;
mod rows;
mod said;
mod texts;
mod values;

pub use left_out::{AttributeName, GivenTolerance, LeftOut, first_unknown};
pub use list::{DifferenceList, list_differences};
pub use pairs::pair_rows;
pub use row::{Happening, RowForm, Subject};
