//! Where a schema text is refused: the byte at which what is refused begins.
//!
//! The reader of schemas keeps no places, so that a text that is accepted pays nothing for them. Behind a refusal the
//! place is found by reading parts of the text: what is refused stands at the end of the shortest part that is refused
//! alike. For what one lexeme shows the parts are the text cut behind a lexeme, with a byte behind it that begins none;
//! such a part is refused alike where the text is refused by then, and else for that byte. For what several declarations
//! show the later declarations of a part are empty, or the later redeclarations blank. The parts are searched by
//! bisection, so that a text is read some twenty times.
//!
//! It is proved that the place stands within the text, and that each call returns. Where it stands is tested.
#![tactic(auto)]

mod bisection;
mod declarations;
mod names;
mod parts;
mod place;
mod separators;
mod statements;
mod words;

pub use place::{SchemaPlace, schema_place};
