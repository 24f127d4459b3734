//! Ranks of the nodes of small graphs, as the definition gives them. It has tests alone.
#![tactic(auto)]

#[cfg(test)]
mod tests;
