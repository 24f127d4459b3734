//! Schema texts, each with what is read of it, as tests.
#![tactic(auto)]

#[cfg(test)]
mod lookups;
#[cfg(test)]
mod meeting;
#[cfg(test)]
mod places;
#[cfg(test)]
mod refusals;
