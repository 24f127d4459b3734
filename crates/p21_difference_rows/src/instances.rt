//! What differs in the instances of two files, name by name.
ghost use Rattle.std.specs.Prelude.{◌≡◌, ◌≤◌, ◌<◌, ◌+◌, ◌^◌, IfSome, List, MatchOption, OnOk, ℕ};
ghost use Rattle.p21_difference_rows.specs.Asked.{left_out_of};
ghost use Rattle.p21_difference_rows.specs.Listed.{TellsInstances};
ghost use Rattle.p21_difference_rows.specs.Steps.{Puts, TellsOf};
ghost use Rattle.p21_differences.specs.Changes.{FindsChange, IsChange, IsOfFiles, changed_name};
ghost use Rattle.p21_differences.specs.Lines.{AreLinesOf};
ghost use Rattle.p21_spec_file.specs.File.{FileMeaning};
ghost use Rattle.p21_stream_store.specs.StoredInstance.{StoredInstance};

use crate::keywords::push_keywords;
use crate::references::line_of_first;
use crate::row::{RowForm, Style, Subject};
use crate::rows::{Rows, put};
use crate::texts::push_member;
use crate::values::list_values;
use p21_differences::{Change, TwoFiles};
use p21_schema::Schema;
use p21_stream_output::Accepted;
use p21_values::{Name, NoMemory};

/// Puts rows for what differs in the instances of two files.
pub(crate) fn list_instances<'a>(
    style: &Style<'a>,
    first: &'a Accepted,
    second: &'a Accepted,
    rows: &mut Rows,
) -> Result<(), NoMemory>
    ensures { (a b : FileMeaning) → AreLinesOf style.now.schema.now a first.now.kept → AreLinesOf style.now.schema.now b second.now.kept →
        OnOk result (Puts style.now (TellsInstances style.now.schema.now (left_out_of style.now.left_out) a b) rows.old.text.items
        rows.new.text.items) }
{
    style.schema.well_formed();
    let mut least = 0;
    while let Some(change) = change_from(style.schema, first, second, least) {
        list_change(style, &change, rows)?;
        let Some(next) = name_behind(&change, least) else {
            return Ok(());
        };
        least = next;
    }
    Ok(())
}

/// What changed about the first name, from this one on, about which something did.
fn change_from<'a>(
    schema: &'a Schema,
    first: &'a Accepted,
    second: &'a Accepted,
    least: u64,
) -> Option<Change<'a>>
    ensures found { (a b : FileMeaning) → AreLinesOf schema.now a first.now.kept → AreLinesOf schema.now b second.now.kept
        → FindsChange a b least result }
    ensures of_files { IfSome result (λ change. IsOfFiles first.now.kept second.now.kept change) }
{
    let files = TwoFiles {
        schema,
        first,
        second,
    };
    files.first_change_from(Name(least))
}

/// The number behind the name that a change is about, if it has 64 bits and lies above this one.
fn name_behind(change: &Change<'_>, least: u64) -> Option<u64>
    ensures { MatchOption result (least ≤ changed_name change.now → ¬ (changed_name change.now + 1 < 2 ^ 64))
        (λ next. (next ≡ changed_name change.now + 1) × (least < next)) }
{
    let name = name_of(change);
    if name < least {
        return None;
    }
    name.checked_add(1)
}

/// The name that a change is about.
fn name_of(change: &Change<'_>) -> u64
    ensures { result ≡ changed_name change.now }
{
    match *change {
        Change::Came(name, _) => name.0,
        Change::Went(name, _) => name.0,
        Change::Set(name, _, _) => name.0,
        Change::Values(name, _, _) => name.0,
    }
}

/// Puts the rows about a name.
fn list_change(style: &Style<'_>, change: &Change<'_>, rows: &mut Rows) -> Result<(), NoMemory>
    ensures { (a b : FileMeaning) (kept others : List StoredInstance) → AreLinesOf style.now.schema.now a kept
        → AreLinesOf style.now.schema.now b others →
        IsChange a b change.now → IsOfFiles kept others change.now →
        OnOk result (Puts style.now
        (TellsOf (λ (name : ℕ). name ≡ changed_name change.now) style.now.schema.now (left_out_of style.now.left_out) a b)
        rows.old.text.items rows.new.text.items) }
{
    style.schema.well_formed();
    let mut rest = Vec::new(style.alloc);
    match *change {
        Change::Came(name, line) => {
            push_instance(style.form, b"\"after\":\"", line, &mut rest)?;
            put(style, &Subject::Came(name), &rest, rows)
        }
        Change::Went(name, line) => {
            push_gone(style, line, &mut rest)?;
            put(style, &Subject::Went(name), &rest, rows)
        }
        Change::Set(name, first, second) => {
            push_sets(style, first, second, &mut rest)?;
            put(style, &Subject::Set(name), &rest, rows)
        }
        Change::Values(name, first, second) => list_values(style, name, first, second, rows),
    }
}

/// Appends the keywords of an instance of the first file; in an object also its line. What it appends is tested.
fn push_gone(style: &Style<'_>, line: &[u8], rest: &mut Vec<u8>) -> Result<(), NoMemory> {
    let own = line_of_first(style, line)?;
    push_instance(style.form, b"\"before\":\"", &own, rest)
}

/// Appends the keywords of an instance; in an object also its line. What it appends is tested.
fn push_instance(
    form: RowForm,
    front: &[u8],
    line: &[u8],
    rest: &mut Vec<u8>,
) -> Result<(), NoMemory> {
    match form {
        RowForm::Text => push_keywords(line, rest),
        RowForm::Json => {
            rest.extend_from_slice(b"\"entity\":\"")?;
            push_keywords(line, rest)?;
            rest.extend_from_slice(b"\",")?;
            push_member(front, line, rest)?;
            rest.push(b'}')?;
            Ok(())
        }
    }
}

/// Appends the keywords of two instances. What it appends is tested.
fn push_sets(
    style: &Style<'_>,
    first: &[u8],
    second: &[u8],
    rest: &mut Vec<u8>,
) -> Result<(), NoMemory> {
    let (front, between, behind) = match style.form {
        RowForm::Text => ("", " to ", ""),
        RowForm::Json => ("\"", "\",\"after\":\"", "\"}"),
    };
    rest.extend_from_slice(front.as_bytes())?;
    push_keywords(first, rest)?;
    rest.extend_from_slice(between.as_bytes())?;
    push_keywords(second, rest)?;
    rest.extend_from_slice(behind.as_bytes())?;
    Ok(())
}
