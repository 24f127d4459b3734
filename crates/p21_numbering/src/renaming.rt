//! Records whose references lead to other names.
ghost use Rattle.std.specs.Prelude.{◌≡◌, map, IfOk};
ghost use Rattle.p21_spec_numbering.specs.Renamed.{renamed_typed, renamed_value, renamed_values};
ghost use Rattle.p21_mapping_values.specs.TypedView.{rows_view, typed_view};
ghost use Rattle.p21_mapping_values.specs.View.{list_of, view, views};
ghost use Rattle.p21_numbering.specs.NewNames.{new_name};

use crate::renamed_text::new_name;
use p21_mapping_values::{Rows, Typed, Value, Values};
use std::alloc::{AllocError, Global};
use std::collections::BTreeMap;

/// The record where each reference leads to the new name, by a map from old names to new ones; to 0 where it has none.
///
/// # Errors
///
/// Where memory runs out.
pub fn renamed_record<'a>(
    alloc: Global,
    typed: Typed<'a>,
    names: &BTreeMap<u64, u64>,
) -> Result<Typed<'a>, AllocError>
    ensures { IfOk result (λ renamed. typed_view renamed ≡ renamed_typed (new_name names.now) (typed_view typed.entry)) }
{
    let Typed { parts, values } = typed;
    let rows = renamed_rows(alloc, values.into_items(), names)?;
    Ok(Typed {
        parts,
        values: Rows::from_vec(rows),
    })
}

/// The rows with the new names.
fn renamed_rows(
    alloc: Global,
    rows: Vec<Values>,
    names: &BTreeMap<u64, u64>,
) -> Result<Vec<Values>, AllocError>
    ensures { IfOk result (λ renamed. rows_view renamed.items ≡ map (renamed_values (new_name names.now)) (rows_view rows.items)) }
{
    let mut all = Vec::with_capacity(alloc, rows.len())?;
    let mut left = rows;
    left.reverse();
    while let Some(row) = left.pop() {
        let row = renamed_all(alloc, row, names)?;
        all.push(row)?;
    }
    Ok(all)
}

/// The value with the new names.
#[cycle(rename)]
fn renamed(alloc: Global, value: Value, names: &BTreeMap<u64, u64>) -> Result<Value, AllocError>
    ensures { IfOk result (λ renamed. view renamed ≡ renamed_value (new_name names.now) (view value)) }
{
    match value {
        Value::Whole(whole) => Ok(Value::Whole(whole)),
        Value::Real(real) => Ok(Value::Real(real)),
        Value::Number(number) => Ok(Value::Number(number)),
        Value::Text(text) => Ok(Value::Text(text)),
        Value::Bits(bits) => Ok(Value::Bits(bits)),
        Value::Item(word) => Ok(Value::Item(word)),
        Value::Reference(name) => Ok(Value::Reference(new_name(names, name))),
        Value::Derived => Ok(Value::Derived),
        Value::Missing => Ok(Value::Missing),
        Value::List(values) => Ok(Value::List(renamed_all(alloc, values, names)?)),
        Value::Array(values) => Ok(Value::Array(renamed_all(alloc, values, names)?)),
        Value::Set(values) => Ok(Value::Set(renamed_all(alloc, values, names)?)),
        Value::Bag(values) => Ok(Value::Bag(renamed_all(alloc, values, names)?)),
        Value::Tagged(tag, inner) => {
            let inner = renamed(alloc, Box::into_inner(inner), names)?;
            Ok(Value::Tagged(tag, Box::new(alloc, inner)?))
        }
    }
}

/// The values with the new names.
#[cycle(rename)]
fn renamed_all(
    alloc: Global,
    values: Values,
    names: &BTreeMap<u64, u64>,
) -> Result<Values, AllocError>
    ensures { IfOk result (λ renamed. views (list_of renamed) ≡ renamed_values (new_name names.now) (views (list_of values))) }
{
    let items = renamed_items(alloc, values.into_items(), names)?;
    Ok(Values::from_vec(items))
}

/// The values of a row with the new names.
#[cycle(rename)]
fn renamed_items(
    alloc: Global,
    values: Vec<Value>,
    names: &BTreeMap<u64, u64>,
) -> Result<Vec<Value>, AllocError>
    ensures { IfOk result (λ renamed. map view renamed.items ≡ map (λ v. renamed_value (new_name names.now) (view v)) values.items) }
{
    let mut all = Vec::with_capacity(alloc, values.len())?;
    let mut left = values;
    left.reverse();
    while let Some(value) = left.pop() {
        let value = renamed(alloc, value, names)?;
        all.push(value)?;
    }
    Ok(all)
}
