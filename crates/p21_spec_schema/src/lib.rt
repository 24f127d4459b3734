//! What a schema of ISO 10303-11 is, from the bytes of its text to entities, types and places: definitions and
//! the laws about them. It holds no code.
#![tactic(auto)]
