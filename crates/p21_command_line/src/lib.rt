//! What the command line of `p21` may say, and the texts of its help.
//!
//! `--version` names the version of the canonical form in parentheses, so that the second word of the line stays the
//! version of the program, which other programs look for.
//!
//! `--version` doesn't name the toolchain. A program can't know whether it was proved before it was built: a trial
//! build has the same text. README names the toolchain, and a test compares it with the installed one.
//!
//! A refused allocation goes unseen in one place, where less is asked for and found (docs/ROBUSTNESS.md names it).
//! `clap` looks for words like a mistaken one by `collect`, and that can't be turned off; the answer is the same usage
//! message.
#![tactic(auto)]

mod commands;
mod help;
mod refusals;

pub use commands::command_line;
pub use refusals::LIST;
