//! Callers of p21_stream: the canonical file of a file, two files that are compared, and a file that comes over a connection.
#![tactic(auto)]

mod canonical;
mod same;
mod session;

pub use canonical::{Problem, canonical_under};
pub use same::hold_the_same;
pub use session::{Budget, Stopped, receive};
