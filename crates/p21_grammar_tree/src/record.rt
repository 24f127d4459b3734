//! External mapping has one simple record at least. The grammar gives no empty one. A check that is called on its own
//! with an empty one refuses it, since it means nothing.
//!
//! `Parts::from_vec` answers `None` for no records, so that the type of a record of external mapping says that it has
//! at least one.
ghost use Rattle.std.specs.Prelude.{◌≡◌, ◌<◌, [], length, IfSome, IfNone};

use crate::param::{Key, Params};
use std::marker::Model;

/// A simple record (ISO 10303-21, formal definition of the exchange structure: simple record): a keyword and its parameters.
#[derive(Debug, Drop)]
pub struct Part {
    pub key: Key,
    pub params: Params,
}

/// Simple records in a row, one at least.
#[derive(Debug, Drop)]
pub struct Parts {
    all: Vec<Part>,
}

impl Model for Parts {
    ghost use Rattle.std.specs.Prelude.{List, ◌<◌, length};
    ghost use Rattle.std.specs.Coded.{codes};
    ghost use Rattle.p21_grammar_tree.specs.contracts.record.Part as part;
    ghost use Rattle.p21_grammar_tree.specs.declared.record.Part.{Part};

    ghost Value = { List Part };

    ghost coded = { Prim.hlevel (codes, part.the_row.coded) };

    ghost view = { λ parts. parts.all.items };

    ghost invariant = { λ parts. 0 < length parts.all.items };
}

impl Parts {
    /// These records, in this order; `None` where there are none. It takes no memory.
    pub fn from_vec(all: Vec<Part>) -> Option<Parts>
        ensures some { IfSome result (λ parts. parts ≡ all.items) }
        ensures none { IfNone result (all.items ≡ []) }
    {
        if all.is_empty() {
            return None;
        }
        Some(Parts { all })
    }

    /// The records, first to last. It takes no memory.
    pub fn items(&self) -> &[Part]
        ensures are { result.now ≡ self.now }
        ensures some { 0 < length result.now }
    {
        &self.all
    }

    /// The records, moved out. It takes no memory.
    pub fn into_items(self) -> Vec<Part>
        ensures are { result.items ≡ self }
        ensures some { 0 < length result.items }
    {
        self.all
    }
}

/// The record of an instance (ISO 10303-21, formal definition of the exchange structure: records of internal and external
/// mapping).
#[derive(Debug, Drop)]
pub enum Record {
    /// A simple record: internal mapping.
    Simple(Part),
    /// Simple records in parentheses: external mapping.
    Complex(Parts),
}
