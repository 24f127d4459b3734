//! The canonical text of values whose references lead to other names.
ghost use Rattle.std.specs.Prelude.{◌≡◌, ◌++◌, OnOk};
ghost use Rattle.p21_spec_file.specs.Sorting.{sort_texts};
ghost use Rattle.p21_spec_file.specs.ValueText.{list_text, value_text, value_texts};
ghost use Rattle.p21_spec_numbering.specs.Renamed.{renamed_value, renamed_values};
ghost use Rattle.p21_mapping_values.specs.KnownTypes.{HasKnownTypes, HaveKnownTypes};
ghost use Rattle.p21_mapping_values.specs.SplitTexts.{element_text};
ghost use Rattle.p21_mapping_values.specs.View.{view, views};
ghost use Rattle.p21_numbering.specs.NewNames.{new_name};

use p21_mapping_values::{Value, append_byte, append_rising, write_value};
use p21_schema::Schema;
use p21_values::{Canonical, Name, NoMemory};
use std::collections::BTreeMap;

/// The new name for a name, by a map from old ones to new ones; 0 where it has none.
pub fn new_name(names: &BTreeMap<u64, u64>, name: Name) -> Name
    ensures { result ≡ new_name names.now name }
{
    match names.get(&name.0) {
        Some(new) => Name(*new),
        None => Name(0),
    }
}

/// Appends the text of a value under the new names, or a part of it where memory runs out.
#[cycle(write)]
pub fn write_renamed(
    schema: &Schema,
    value: &Value,
    names: &BTreeMap<u64, u64>,
    out: &mut Vec<u8>,
) -> Result<(), NoMemory>
    requires { HasKnownTypes schema.now (view value.now) }
    ensures { OnOk result (out.new.items ≡ out.old.items ++ value_text schema.now (renamed_value (new_name names.now) (view value.now))) }
{
    match value {
        Value::Reference(name) => new_name(names, *name).write_canonical(out),
        Value::List(values) => write_list(schema, values.items(), names, out),
        Value::Array(values) => write_list(schema, values.items(), names, out),
        Value::Set(values) => write_unordered(schema, values.items(), names, out),
        Value::Bag(values) => write_unordered(schema, values.items(), names, out),
        Value::Tagged(tag, inner) => {
            schema.type_word(*tag).write_canonical(out)?;
            append_byte(b'(', out)?;
            write_renamed(schema, inner, names, out)?;
            append_byte(b')', out)
        }
        _ => write_value(schema, value, out),
    }
}

/// Appends the texts of values as a list, or a part of it where memory runs out.
#[cycle(write)]
pub fn write_list(
    schema: &Schema,
    values: &[Value],
    names: &BTreeMap<u64, u64>,
    out: &mut Vec<u8>,
) -> Result<(), NoMemory>
    requires { HaveKnownTypes schema.now (views values.now) }
    ensures { OnOk result (out.new.items ≡ out.old.items
        ++ list_text (value_texts schema.now (renamed_values (new_name names.now) (views values.now)))) }
{
    out.push(b'(')?;
    for i in 0..values.len() {
        write_element(schema, &values[i], i == 0, names, out)?;
    }
    out.push(b')')?;
    Ok(())
}

/// Appends the text of an element, behind a comma where it isn't the first, or a part of it where memory runs out.
#[cycle(write)]
fn write_element(
    schema: &Schema,
    value: &Value,
    first: bool,
    names: &BTreeMap<u64, u64>,
    out: &mut Vec<u8>,
) -> Result<(), NoMemory>
    requires { HasKnownTypes schema.now (view value.now) }
    ensures { OnOk result (out.new.items ≡ out.old.items
        ++ element_text first (value_text schema.now (renamed_value (new_name names.now) (view value.now)))) }
{
    if !first {
        out.push(b',')?;
    }
    write_renamed(schema, value, names, out)
}

/// Appends the texts of values as a list in rising order, or a part of it where memory runs out.
#[cycle(write)]
fn write_unordered(
    schema: &Schema,
    values: &[Value],
    names: &BTreeMap<u64, u64>,
    out: &mut Vec<u8>,
) -> Result<(), NoMemory>
    requires { HaveKnownTypes schema.now (views values.now) }
    ensures { OnOk result (out.new.items ≡ out.old.items
        ++ list_text (sort_texts (value_texts schema.now (renamed_values (new_name names.now) (views values.now))))) }
{
    let alloc = *out.allocator();
    let mut bytes = Vec::new(alloc);
    let mut lengths = Vec::with_capacity(alloc, values.len())?;
    for value in values {
        let before = bytes.len();
        write_renamed(schema, value, names, &mut bytes)?;
        lengths.push(bytes.len() - before)?;
    }
    append_rising(&bytes, &lengths, out)
}
