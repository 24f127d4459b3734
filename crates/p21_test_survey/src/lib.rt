//! What is listed of files with broken statements. It has tests alone.
#![tactic(auto)]

#[cfg(test)]
mod tests;
