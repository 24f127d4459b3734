ghost use Rattle.std.specs.Prelude.{◌≡◌, ◌↔◌, ◌++◌, IfOk, IsTrue, OnOk};
ghost use Rattle.p21_spec_file.specs.SameValue.{AreDistinct};
ghost use Rattle.p21_mapping_values.specs.KnownTypes.{HasKnownTypes, HaveKnownTypes};
ghost use Rattle.p21_mapping_values.specs.View.{view, views};
ghost use Rattle.p21_mapping.specs.Outcome.{AreTyped, KeepsUnique};
ghost use Rattle.p21_express_graph.specs.Meaning.{type_use};
ghost use Rattle.p21_mapping_values.specs.SplitTexts.{joined, lengths_of};
ghost use Rattle.p21_mapping.specs.PresentTexts.{one, present_texts};

use crate::aggregate::is_unique;
use crate::trail::Trail;
use p21_express_graph::TypeUse;
use p21_mapping_values::{Value, are_distinct, write_value};
use p21_schema::Schema;
use p21_values::NoMemory;
use std::alloc::Global;
use std::collections::BTreeSet;

/// Whether no two elements of an aggregate are the same, where no two may be the same.
///
/// # Errors
///
/// `NoMemory`.
pub(crate) fn keeps_unique(
    alloc: Global,
    schema: &Schema,
    of: &TypeUse,
    values: &[Value],
) -> Result<bool, NoMemory>
    requires typed { AreTyped schema.now (views values.now) }
    requires known { HaveKnownTypes schema.now (views values.now) }
    ensures { IfOk result (λ kept. IsTrue kept ↔ KeepsUnique (type_use of.now) (views values.now)) }
{
    if !is_unique(of) {
        return Ok(true);
    }
    are_different(alloc, schema, values)
}

/// Whether no two of the values are the same (ISO 10303-11, Value comparison operators), empty places apart. Two values of
/// one type are the same exactly if their canonical texts are equal.
///
/// # Errors
///
/// `NoMemory`.
fn are_different(alloc: Global, schema: &Schema, values: &[Value]) -> Result<bool, NoMemory>
    requires typed { AreTyped schema.now (views values.now) }
    requires known { HaveKnownTypes schema.now (views values.now) }
    ensures { IfOk result (λ different. IsTrue different ↔ AreDistinct (views values.now)) }
{
    if values.len() < 2 {
        return Ok(true);
    }
    schema.well_formed();
    let mut bytes = Vec::new(alloc);
    let mut lengths = Vec::with_capacity(alloc, values.len())?;
    for value in values {
        append_present(schema, value, &mut bytes, &mut lengths)?;
    }
    are_distinct(alloc, &bytes, &lengths)
}

/// Notes the first element that is the same as one before it. Where memory is refused, none is noted.
pub(crate) fn note_equal(alloc: Global, schema: &Schema, values: &[Value], trail: &mut Trail)
    requires { HaveKnownTypes schema.now (views values.now) }
{
    if let Ok(Some(element)) = second_of_two(alloc, schema, values) {
        trail.note_element(element);
    }
}

/// The first element that is the same as one before it, by their texts.
fn second_of_two(
    alloc: Global,
    schema: &Schema,
    values: &[Value],
) -> Result<Option<usize>, NoMemory>
    requires { HaveKnownTypes schema.now (views values.now) }
{
    let mut seen = BTreeSet::new(alloc);
    let mut element: usize = 0;
    for value in values {
        let (mut text, mut lengths) = (Vec::new(alloc), Vec::new(alloc));
        append_present(schema, value, &mut text, &mut lengths)?;
        if !lengths.is_empty() && !seen.insert(text)? {
            return Ok(Some(element));
        }
        element = element.saturating_add(1);
    }
    Ok(None)
}

/// Appends the text of a value behind other texts, where there is a value.
fn append_present(
    schema: &Schema,
    value: &Value,
    bytes: &mut Vec<u8>,
    lengths: &mut Vec<usize>,
) -> Result<(), NoMemory>
    requires { HasKnownTypes schema.now (view value.now) }
    ensures bytes { OnOk result (bytes.new.items ≡ bytes.old.items ++ joined (present_texts schema.now (one (view value.now)))) }
    ensures lengths { OnOk result (lengths.new.items ≡ lengths.old.items ++ lengths_of (present_texts schema.now (one (view value.now)))) }
{
    if matches!(value, Value::Missing) {
        return Ok(());
    }
    let before = bytes.len();
    write_value(schema, value, bytes)?;
    lengths.push(bytes.len() - before)?;
    Ok(())
}
