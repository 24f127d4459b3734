//! A log of the reading of a file: what is taken of it, and where what is left out begins, however the file is cut into pieces. It has tests
//! alone.
#![tactic(auto)]

#[cfg(test)]
mod tests;
