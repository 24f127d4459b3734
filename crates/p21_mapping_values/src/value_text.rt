//! `write_value` asks less than that the value fits a type: only that the types that its keywords name are of the
//! schema. Each value that fits meets this, so no proof of fit has to be carried to the printer.
ghost use Rattle.std.specs.Prelude.{◌≡◌, ◌++◌, OnErr, OnOk};
ghost use Rattle.p21_spec_file.specs.Sorting.{sort_texts};
ghost use Rattle.p21_spec_file.specs.ValueText.{list_text, value_text, value_texts};
ghost use Rattle.p21_values.specs.Canonical.{Continues};
ghost use Rattle.p21_mapping_values.specs.View.{view, views};
ghost use Rattle.p21_mapping_values.specs.KnownTypes.{HasKnownTypes, HaveKnownTypes};
ghost use Rattle.p21_mapping_values.specs.SplitTexts.{element_text};
ghost use Rattle.p21_mapping_values.specs.Spelled.{AreSpelled, IsSpelledValue};

use crate::texts::append_rising;
use crate::tokens::{append_byte, append_item};
use crate::value::Value;
use p21_schema::Schema;
use p21_values::{Canonical, NoMemory};

/// Appends the canonical text of a value: the texts of a set's or a bag's elements rise, and a NUMBER is written as a
/// real. A refusal leaves `out` as it was.
///
/// # Errors
///
/// `NoMemory`.
pub fn write_value(schema: &Schema, value: &Value, out: &mut Vec<u8>) -> Result<(), NoMemory>
    requires { HasKnownTypes schema.now (view value.now) }
    ensures ok { OnOk result (out.new.items ≡ out.old.items ++ value_text schema.now (view value.now)) }
    ensures spelled { OnOk result (IsSpelledValue schema.now (view value.now)) }
    ensures err { OnErr result (out.new.items ≡ out.old.items) }
{
    let before = out.len();
    let written = append_value(schema, value, out);
    if written.is_err() {
        out.truncate(before);
    }
    written
}

/// Appends the text of a value, or a part of it where memory runs out.
#[cycle(append)]
fn append_value(schema: &Schema, value: &Value, out: &mut Vec<u8>) -> Result<(), NoMemory>
    requires { HasKnownTypes schema.now (view value.now) }
    ensures ok { OnOk result (out.new.items ≡ out.old.items ++ value_text schema.now (view value.now)) }
    ensures spelled { OnOk result (IsSpelledValue schema.now (view value.now)) }
    ensures err { OnErr result (Continues out.old.items out.new.items) }
{
    match value {
        Value::Whole(whole) => whole.write_canonical(out),
        Value::Real(real) => real.write_canonical(out),
        Value::Number(number) => number.write_canonical(out),
        Value::Text(text) => text.write_canonical(out),
        Value::Bits(bits) => bits.write_canonical(out),
        Value::Item(word) => append_item(word, out),
        Value::Reference(name) => name.write_canonical(out),
        Value::Derived => append_byte(b'*', out),
        Value::Missing => append_byte(b'$', out),
        Value::List(values) => append_list(schema, values.items(), out),
        Value::Array(values) => append_list(schema, values.items(), out),
        Value::Set(values) => append_unordered(schema, values.items(), out),
        Value::Bag(values) => append_unordered(schema, values.items(), out),
        Value::Tagged(tag, inner) => {
            schema.type_word(*tag).write_canonical(out)?;
            out.push(b'(')?;
            append_value(schema, inner, out)?;
            out.push(b')')?;
            Ok(())
        }
    }
}

/// Appends the texts of values as a list, or a part of it where memory runs out.
#[cycle(append)]
fn append_list(schema: &Schema, values: &[Value], out: &mut Vec<u8>) -> Result<(), NoMemory>
    requires { HaveKnownTypes schema.now (views values.now) }
    ensures ok { OnOk result (out.new.items ≡ out.old.items ++ list_text (value_texts schema.now (views values.now))) }
    ensures spelled { OnOk result (AreSpelled schema.now (views values.now)) }
    ensures err { OnErr result (Continues out.old.items out.new.items) }
{
    out.push(b'(')?;
    for i in 0..values.len() {
        append_element(schema, &values[i], i == 0, out)?;
    }
    out.push(b')')?;
    Ok(())
}

/// Appends the text of an element, behind a comma where it isn't the first, or a part of it where memory runs out.
#[cycle(append)]
fn append_element(
    schema: &Schema,
    value: &Value,
    first: bool,
    out: &mut Vec<u8>,
) -> Result<(), NoMemory>
    requires { HasKnownTypes schema.now (view value.now) }
    ensures ok { OnOk result (out.new.items ≡ out.old.items ++ element_text first (value_text schema.now (view value.now))) }
    ensures spelled { OnOk result (IsSpelledValue schema.now (view value.now)) }
    ensures err { OnErr result (Continues out.old.items out.new.items) }
{
    if !first {
        out.push(b',')?;
    }
    append_value(schema, value, out)
}

/// Appends the texts of values as a list in rising order, or a part of it where memory runs out. A single one is in order.
#[cycle(append)]
fn append_unordered(schema: &Schema, values: &[Value], out: &mut Vec<u8>) -> Result<(), NoMemory>
    requires { HaveKnownTypes schema.now (views values.now) }
    ensures ok { OnOk result (out.new.items ≡ out.old.items ++ list_text (sort_texts (value_texts schema.now (views values.now)))) }
    ensures spelled { OnOk result (AreSpelled schema.now (views values.now)) }
    ensures err { OnErr result (Continues out.old.items out.new.items) }
{
    if values.len() < 2 {
        return append_list(schema, values, out);
    }
    let alloc = *out.allocator();
    let mut bytes = Vec::new(alloc);
    let mut lengths = Vec::with_capacity(alloc, values.len())?;
    for value in values {
        let before = bytes.len();
        append_value(schema, value, &mut bytes)?;
        lengths.push(bytes.len() - before)?;
    }
    append_rising(&bytes, &lengths, out)
}
