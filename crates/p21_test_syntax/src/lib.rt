//! Files by themselves, read by p21_stream_syntax. It has tests alone.
#![tactic(auto)]

#[cfg(test)]
mod tests;
