//! What the attributes of an instance mean: values of attributes, the typed record of an instance, and its references
//! (ISO 10303-21, mapping of EXPRESS data types). The canonical text of a value, its small pieces, and texts put in order.
//!
//! `Value` and `Values` (`p21_mapping_values`) contain each other, and contracts see them by `specs/View` and
//! `specs/TypedView`, through the generated fold, so that what these compare holds no address and no capacity.
//! `proofs/Views` has the fold's equations as the ruleset `view_equations`.
//!
//! `p21_mapping_values` sorts the texts of sets and bags: `specs/SplitTexts` says which texts a buffer with lengths
//! holds, and `proofs/Rising` joins the toolchain's sort to `sort_texts` of the definitions. `p21_canon/src/sameness`
//! has one function for each relation of the definition of sameness. It pairs the elements of bags without memory, by
//! counting: `specs/Occurrences` counts how often a value is among others, and `proofs/Pairing` shows that this is the
//! pairing of the definition.
#![tactic(auto)]

mod need;
mod texts;
mod tokens;
mod typed;
mod value;
mod value_text;

pub use need::Need;
pub use p21_schema::Ids;
pub use texts::{append_rising, are_distinct};
pub use tokens::{append_byte, append_item, append_separator};
pub use typed::{Rows, Typed};
pub use value::{Value, Values};
pub use value_text::write_value;
