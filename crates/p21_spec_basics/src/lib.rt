//! What all definitions share: bytes and digits, limits, histories. It holds no code.
//!
//! A lemma that several crates cite stands beside the definition that it is about, in the `proofs` of
//! `p21_spec_basics`, `p21_spec_exchange`, `p21_spec_schema` or `p21_spec_file`. The most cited ones are about lists
//! (`Members`, `Shuffles` and `RisingLists` of `p21_spec_basics`), say that a tree is fixed by its tokens (`OneTree` of
//! `p21_spec_exchange`) and that each declared schema is well formed (`DeclaredSchemas` of `p21_spec_schema`), and show
//! that what breaks a rule means nothing (`BrokenValues` and `BrokenRules` of `p21_spec_file`).
#![tactic(auto)]
