//! What a survey keeps of a file: the statements that aren't refused, the refusals of the others, and where these stand.
#![tactic(auto)]

mod indices;
mod placing;
mod sieve;
mod spots;
mod unserved;

pub use indices::Indices;
pub use placing::{attribute_of, elements_of, inside, place_of};
pub use sieve::Sieve;
pub use spots::{PassedOver, RefusedStatement, Spots};
