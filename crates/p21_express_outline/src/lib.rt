//! Schema declarations with the names of their entities and types resolved (ISO 10303-11, Scope and visibility): all but
//! what is redeclared. Chains of supertypes, of renamed types and of selects in selects may not come back.
//!
//! In `p21_express_outline` definitions come first, and with them the law `one_schema`. `IsOutline k s` is all that
//! follows from the names of entities and types alone, `RedeclarationsAre` what an entity redeclares in a schema whose
//! order and places are known, and `DeclaredBy k s` the whole. `proofs/SchemaDigests` joins this to `DeclaresSchema`
//! both ways, so that nothing above it speaks of trees of declarations. `proofs/Agreeing` shows that schemas with the
//! same names, supertypes and attributes resolve redeclarations alike; a schema with and without its redeclarations are
//! two such schemas.
//!
//! Each step of `p21_express_outline` owes a relation of `specs/Finding`: `Finds view Is result` (what was found has
//! the property; where it refuses, memory apart, nothing has it), `FindsEach` and `AddsEach` (lists, element by
//! element), `DecidesClaim claim`, or `KeepsNames` (the names that are listed, which are different, or one of them is
//! listed twice). `proofs/Finding` and `proofs/Adding` have one lemma for each way in which a loop goes on or refuses;
//! an answer is one line that cites it.
#![tactic(auto)]

mod attributes;
mod chains;
mod choices;
mod defined;
mod direct_renaming;
mod entity;
mod fault;
mod laws;
mod lists;
mod names;
mod outlines;
mod selects;
mod supertypes;
mod types;

pub use choices::check_selects;
pub use direct_renaming::check_renaming;
pub use fault::SchemaFault;
pub use laws::one_schema;
pub use names::known_names;
pub use outlines::outline;
pub use selects::check_no_select;
pub use supertypes::check_supertypes;
pub use types::resolve_type;
