//! Whole files by the calls of p21_stream, and by no other library: what a session holds, files cut into pieces, readers and
//! writers that fail, and files that are compared. It has tests alone.
#![tactic(auto)]

#[cfg(test)]
mod tests;
