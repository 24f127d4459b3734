//! The statements of an exchange structure (ISO 10303-21, formal definition of the exchange structure), read from tokens
//! that come one by one: each statement is answered with its `;`. `Machine` is what a parser does with one token: the stack
//! of what is open, and how far the statements of the file have come. Its contracts are exact; those of `Parser` say what
//! they mean.
//!
//! `p21_grammar_tree` is a crate of its own because the layers above share its trees. `specs/View` leads from each tree
//! to that of the definitions, and `proofs/Views` has the equations of `view` as the ruleset `view_rules` for the
//! proofs of callers. The contracts of `Machine` (`p21_grammar`) are exact, refusals among them, and `specs/Machine`
//! has the same steps over trees of the definitions. The clauses of `Parser` speak of files.
//!
//! Where a parameter may begin or has just ended, as before most tokens, `next` or `behind` act on the open row at
//! once. Elsewhere `other` takes what was taken last (`At`), and goes on from there. `(` puts the open row on the
//! stack, and `)` takes the one around it back with the list or typed parameter added. At a `;`, which ends a
//! statement, `Stage` says whether a file has this statement there. The steps stand by the place of the token in the
//! folder `machine`: inside parameters (`parameters`, with `room` for the room that they keep), elsewhere in a
//! statement (`statements`), and where none is open (`between`); `faults` says as what a token is refused that goes on
//! with none of these.
//!
//! The proofs of `p21_grammar` build on one another: a run over the tokens of a tree takes the tree (`RunsParams`,
//! `RunsStatements`); the tests decide the definitions (`Shapes`); what was taken is the statements given and what is
//! held (`Follows`, `Led`); a file leads to its end, and what leads somewhere begins a file (`Walks`). From these,
//! `Theorems` and `Holding` give the clauses of `Parser`. `Between` shows that a parser passes over whole instances
//! without a change: behind one it holds what it held before. `Reopening` shows that a parser that is taken back to its
//! last statement holds what it held there, which the stage says.
//!
//! What could stand in place of a token that is refused is asked of the parser behind the refusal, kind by kind (`could_take`). So the
//! machine stays where it stood: a step that refuses a token as unexpected puts back what it has moved out, and what is
//! accepted costs nothing more.
#![tactic(auto)]

mod event;
mod fault;
mod kind;
mod laws;
mod machine;
mod parser;
mod shape;
mod stage;

pub use event::{Event, Line};
pub use fault::GrammarFault;
pub use kind::{KINDS, Kind};
pub use laws::one_tree;
pub use p21_grammar_tree::{Key, Param, Params, Part, Parts, Record};
pub use p21_tokens::{Absent, Lexer, Token, TokenFault};
pub use p21_values::{Bits, Canonical, Decimal, Limits, Name, NoMemory, Text, Whole, Word};
pub use parser::Parser;
