//! The typed record rises by keyword, so the external form is written without sorting.
ghost use Rattle.std.specs.Prelude.{◌≡◌};

use crate::value::Values;
use p21_schema::Ids;
use std::marker::Model;

/// What the record of an instance means: its set of entities, rising by keyword, and for each of them the values of the
/// places that it declares.
#[derive(Debug, Drop)]
pub struct Typed<'a> {
    pub parts: Ids<'a>,
    pub values: Rows,
}

/// Rows of values, one behind the other.
#[derive(Debug, Drop)]
pub struct Rows {
    rows: Vec<Values>,
}

impl Model for Rows {
    ghost use Rattle.std.specs.Coded.{codes};
    ghost use Rattle.std.specs.Prelude.{List};
    ghost use Rattle.p21_mapping_values.specs.contracts.value.Values as values;
    ghost use Rattle.p21_mapping_values.specs.declared.value.Values.{Values};

    ghost Value = { List Values };

    ghost coded = { Prim.hlevel (codes, values.the_row.coded) };

    ghost view = { λ rows. rows.rows.items };
}

impl Rows {
    /// These rows in this order. It takes no memory.
    pub fn from_vec(all: Vec<Values>) -> Rows
        ensures { result ≡ all.items }
    {
        Rows { rows: all }
    }

    /// The rows, first to last. It takes no memory.
    pub fn items(&self) -> &[Values]
        ensures { result.now ≡ self.now }
    {
        &self.rows
    }

    /// The rows, first to last. It takes no memory.
    pub fn into_items(self) -> Vec<Values>
        ensures { result.items ≡ self }
    {
        let Rows { rows } = self;
        rows
    }
}
