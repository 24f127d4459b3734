//! Files under the numbers of their models, and files compared but for the names of their instances, by the calls of
//! p21_stream_numbered; and files under the names of others, by p21_numbered_file. It has tests alone.
#![tactic(auto)]

#[cfg(test)]
mod tests;
