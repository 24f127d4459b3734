//! What an exchange structure of ISO 10303-21 is, from bytes by tokens to the tree of its records: definitions
//! and the laws about them. It holds no code.
#![tactic(auto)]
