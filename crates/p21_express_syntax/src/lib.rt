//! The declarations of a schema text (ISO 10303-11), read from its bytes in one pass.
//!
//! The digest of a text has names (`Word`, upper case), numbers of widths and bounds, OPTIONAL, UNIQUE, FIXED,
//! ABSTRACT, a list that stands behind ONEOF alone, supertypes, and names of derived attributes, but neither runs nor
//! the version nor the precision of REAL. So one law says that a text has one digest, and another (`one_tree`) that it
//! has one tree, runs included.
//!
//! The limits are part of the pure reading, so that refusals compose. S9 comes for the 33rd aggregate at its word, and
//! for declaration 65,536 at ENTITY or TYPE, in front of its name.
//!
//! For the lexemes and the grammar of EXPRESS (`p21_express_lexemes`, `p21_express_syntax`) `specs` has a plain
//! function for each function of the code, and each contract is an equation between the two. `specs/Views` leads from
//! the code to the digest of a declaration (`specs/Digest`), and `specs/Digesting` leads there from the definitions; a
//! reader of the contract has to believe `specs/ReadDeclarations` alone. In `proofs`, the files named `*Sound` show
//! that what was read is written so, and those named `*Read` that what is written is read. `OneTree`, which shows that
//! a declaration is fixed by its lexemes, compares two parts from their beginnings, or reads a part back by a reader of
//! its own.
#![tactic(auto)]

mod attributes;
mod defined_type;
mod entity;
mod names;
mod numbers;
mod schema;
mod types;

pub use attributes::{AttributeName, ExplicitAttributes};
pub use defined_type::{Body, DefinedType};
pub use entity::{Constraint, Entity};
pub use schema::{Declarations, one_text, one_tree, read_declarations};
pub use types::{Aggregate, DataType, Range, SimpleType, Width};
