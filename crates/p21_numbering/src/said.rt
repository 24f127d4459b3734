//! What an instance says under other names, as a row.
ghost use Rattle.std.specs.Prelude.{◌≡◌, ◌++◌, ◌∷◌, [], map, suc, IfOk};
ghost use Rattle.p21_spec_file.specs.ValueText.{value_texts};
ghost use Rattle.p21_spec_numbering.specs.Renamed.{renamed_typed, renamed_values};
ghost use Rattle.p21_mapping_values.specs.KnownTypes.{HaveKnownTypes};
ghost use Rattle.p21_mapping_values.specs.TypedView.{ids_view, typed_view};
ghost use Rattle.p21_mapping_values.specs.View.{views};
ghost use Rattle.p21_numbering.specs.NewNames.{new_name};
ghost use Rattle.p21_numbering.specs.NodesOf.{HasKnownParts, row_of_texts};
ghost use Rattle.p21_numbering.specs.Rows.{lent_rows};
ghost use Rattle.p21_numbering.specs.Said.{said_in};

use crate::renamed_text::write_renamed;
use crate::text_rows::{with_text, with_texts};
use p21_express_graph::EntityId;
use p21_mapping_values::{Typed, Value};
use p21_schema::Schema;
use p21_values::NoMemory;
use std::alloc::{AllocError, Global};
use std::collections::BTreeMap;

/// The entities, the text of each value under the new names, and the texts of the heading.
pub fn said(
    alloc: Global,
    schema: &Schema,
    heading: &[&[char]],
    typed: &Typed<'_>,
    names: &BTreeMap<u64, u64>,
) -> Result<Vec<u64>, NoMemory>
    requires { HasKnownParts schema.now (typed_view typed.now) }
    ensures { IfOk result (λ row. row.items ≡ row_of_texts
        (said_in schema.now (lent_rows heading.now) (renamed_typed (new_name names.now) (typed_view typed.now)))) }
{
    let mut row = entity_row(alloc, typed.parts.items())?;
    for values in typed.values.items() {
        row = with_values(schema, values.items(), names, row)?;
    }
    Ok(with_texts(row, heading)?)
}

/// The numbers of entities as a row, as if they were the bytes of a text.
fn entity_row(alloc: Global, entities: &[EntityId]) -> Result<Vec<u64>, AllocError>
    ensures { IfOk result (λ row. row.items ≡ map suc (ids_view entities.now) ++ (0 ∷ [])) }
{
    let mut row = Vec::new(alloc);
    for entity in entities {
        row.push(u64::from(entity.0) + 1)?;
    }
    row.push(0)?;
    Ok(row)
}

/// The row, and behind it the texts of values.
fn with_values(
    schema: &Schema,
    values: &[Value],
    names: &BTreeMap<u64, u64>,
    row: Vec<u64>,
) -> Result<Vec<u64>, NoMemory>
    requires { HaveKnownTypes schema.now (views values.now) }
    ensures { IfOk result (λ more. more.items ≡ row.items
        ++ row_of_texts (value_texts schema.now (renamed_values (new_name names.now) (views values.now)))) }
{
    let mut more = row;
    for value in values {
        let mut text = Vec::new(*more.allocator());
        write_renamed(schema, value, names, &mut text)?;
        more = with_text(more, &text)?;
    }
    Ok(more)
}
