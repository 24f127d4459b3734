//! Statements, read from the tokens of texts: tables of texts with the statements or the refusal of each. It has tests
//! alone.
#![tactic(auto)]

#[cfg(test)]
mod tests;
