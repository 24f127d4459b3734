//! Canonical statements: of instances and of header records; and the plain comparison of two values.
#![tactic(auto)]

mod header;
mod leaf;
mod parts;
mod position;
mod sameness;
mod statement;

pub use header::write_header;
pub use p21_express_graph::{EntityId, TypeId};
pub use p21_grammar_tree::{Key, Param, Params, Part};
pub use p21_mapping_values::{Ids, Rows, Typed, Value, Values};
pub use p21_schema::Schema;
pub use p21_values::{Bits, Decimal, Name, NoMemory, Text, Whole, Word};
pub use sameness::same;
pub use statement::write_record;
