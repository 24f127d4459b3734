//! What a session is made of, each component by itself: statements in pieces, faults and their locations, the names of schemas,
//! memberships and texts that are stored, counted readers and writers. It has tests alone.
#![tactic(auto)]

#[cfg(test)]
mod tests;
