//! The attributes at which two instances of one set of entities have different values.
ghost use Rattle.std.specs.Prelude.{◌≡◌, OnOk};
ghost use Rattle.p21_difference_rows.specs.Asked.{left_out_of};
ghost use Rattle.p21_difference_rows.specs.Steps.{Puts, TellsIfStays, TellsValues};
ghost use Rattle.p21_express_graph.specs.Meaning.{place as place_of};
ghost use Rattle.p21_express_graph.specs.Resolved.{IsPlace};
ghost use Rattle.p21_model_values.specs.Written.{IsTextOf};
ghost use Rattle.p21_spec_differences.specs.Near.{IsOneParamAt};
ghost use Rattle.p21_spec_exchange.specs.Parameter.{Param};
ghost use Rattle.p21_spec_exchange.specs.Record.{Record};
ghost use Rattle.p21_spec_file.specs.CanonicalTexts.{IsInstanceText};
ghost use Rattle.p21_spec_file.specs.Meaning.{Typed};

use crate::keywords::push_keywords;
use crate::left_out::{is_ignored, is_near};
use crate::references::push_instance_values;
use crate::row::{RowForm, Style, Subject};
use crate::rows::{Rows, put};
use p21_differences::{OtherValue, OtherValues};
use p21_model::Instance;
use p21_values::{Name, NoMemory};

/// Puts a row for each attribute at which two instances of one name and one set of entities have different values, by their canonical
/// lines, if it isn't left out.
pub(crate) fn list_values(
    style: &Style<'_>,
    name: Name,
    line: &[u8],
    other_line: &[u8],
    rows: &mut Rows,
) -> Result<(), NoMemory>
    ensures { (record_ other : Record) (stated : IsInstanceText style.now.schema.now name record_ line.now)
        (others : IsInstanceText style.now.schema.now name other other_line.now) →
        stated.canonical_meaning.entities ≡ others.canonical_meaning.entities →
        OnOk result (Puts style.now
        (TellsValues style.now.schema.now (left_out_of style.now.left_out) stated.canonical_meaning others.canonical_meaning name)
        rows.old.text.items rows.new.text.items) }
{
    let schema = style.schema;
    let first = Instance { schema, name, line };
    let second = Instance {
        schema,
        name,
        line: other_line,
    };
    let mut values = OtherValues::new(&first, &second);
    while let Some(found) = values.next() {
        list_value(style, name, line, found, rows)?;
    }
    Ok(())
}

/// Puts a row for an attribute of an instance, by its line in the first file, if it isn't left out.
fn list_value(
    style: &Style<'_>,
    name: Name,
    line: &[u8],
    found: OtherValue<'_>,
    rows: &mut Rows,
) -> Result<(), NoMemory>
    requires { IsPlace style.now.schema.now (place_of found.place) }
    ensures { (record_ : Record) (stated : IsInstanceText style.now.schema.now name record_ line.now) (other : Typed) (p q : Param)
        → IsTextOf found.entry.before.text.now p → IsTextOf found.entry.after.text.now q →
        IsOneParamAt style.now.schema.now stated.canonical_meaning (place_of found.entry.place) p →
        IsOneParamAt style.now.schema.now other (place_of found.entry.place) q →
        OnOk result (Puts style.now
        (TellsIfStays style.now.schema.now (left_out_of style.now.left_out) stated.canonical_meaning other name
        (place_of found.entry.place))
        rows.old.text.items rows.new.text.items) }
{
    let schema = style.schema;
    let instance = Instance { schema, name, line };
    if is_ignored(style.left_out.attributes, &instance, found.place) {
        rows.ignored = rows.ignored.saturating_add(1);
        return Ok(());
    }
    if is_near(style.left_out, found.before, found.after) {
        rows.near = rows.near.saturating_add(1);
        return Ok(());
    }
    let mut rest = Vec::new(style.alloc);
    push_instance_keywords(style.form, line, &mut rest)?;
    push_instance_values(style, found.before, found.after, &mut rest)?;
    put(style, &Subject::Value(name, found.place), &rest, rows)
}

/// Appends the keywords of an instance to an object, since an attribute is named by the entity that declares it. What it appends is
/// tested.
fn push_instance_keywords(form: RowForm, line: &[u8], rest: &mut Vec<u8>) -> Result<(), NoMemory> {
    match form {
        RowForm::Text => Ok(()),
        RowForm::Json => {
            rest.extend_from_slice(b"\"keywords\":\"")?;
            push_keywords(line, rest)?;
            rest.extend_from_slice(b"\",")?;
            Ok(())
        }
    }
}
