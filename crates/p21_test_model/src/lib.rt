//! The model in hand: a table of instances, each with all that it hands out.
#![tactic(auto)]

#[cfg(test)]
mod tests;
