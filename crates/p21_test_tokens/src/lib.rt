//! Tokens, read from bytes in pieces of any size: tables of texts with the tokens or the refusal of each. Below them the states of
//! their reader between two bytes: what each byte does there, and how many of a kind stand at the front. Beside them tokens
//! taken straight from their bytes. It has tests alone.
#![tactic(auto)]

#[cfg(test)]
mod tests;
