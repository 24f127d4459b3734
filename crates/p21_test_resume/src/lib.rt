//! Where the reading of a file goes on behind a refused statement: tables of texts with the first signpost in each, however they are cut
//! into pieces. It has tests alone.
#![tactic(auto)]

#[cfg(test)]
mod tests;
