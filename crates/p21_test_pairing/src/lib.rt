//! Partners of the instances of small files, found by hand. It has tests alone.
#![tactic(auto)]

#[cfg(test)]
mod tests;
