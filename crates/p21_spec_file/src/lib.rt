//! What the records of an exchange structure mean under a schema, when two files mean the same, and what a
//! canonical file is: definitions and the laws about them. It holds no code.
#![tactic(auto)]
