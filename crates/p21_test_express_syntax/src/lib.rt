//! Schema texts read as lexemes and as declarations, and the names that these declare, each with what comes of it, as tests.
#![tactic(auto)]

#[cfg(test)]
mod declarations;
#[cfg(test)]
mod lexemes;
#[cfg(test)]
mod names;
