//! What differs in headers, in the data sections that there are, and in which of them instances stand. Which rows these functions put is
//! tested; none of them is about what an instance means.
ghost use Rattle.std.specs.Prelude.{OnOk};
ghost use Rattle.p21_difference_rows.specs.Steps.{Puts, TellsNone};

use crate::keywords::{header_attribute, keyword_of};
use crate::left_out::LeftOut;
use crate::row::{Happening, RowForm, Style, Subject};
use crate::rows::{Rows, put, put_header};
use crate::texts::{push_both, push_member, push_shown_both, push_values};
use p21_outlines::{
    OtherParameter, OtherParameters, Outline, RecordChange, SectionChange, first_moved_from,
};
use p21_stream_output::Accepted;
use p21_values::{Name, NoMemory};

/// Puts rows for all that differs but for what instances mean.
pub(crate) fn list_outlines(
    style: &Style<'_>,
    before: &Accepted,
    after: &Accepted,
    rows: &mut Rows,
) -> Result<(), NoMemory>
    ensures { OnOk result (Puts style.now TellsNone rows.old.text.items rows.new.text.items) }
{
    let first = Outline::new(style.alloc, before)?;
    let second = Outline::new(style.alloc, after)?;
    list_headers(style, &first, &second, rows)?;
    list_sections(style, &first, &second, rows)?;
    if first.has_one_section_as(&second) {
        return Ok(());
    }
    list_moved(style, before, after, rows)
}

/// Puts rows for what differs in headers.
fn list_headers(
    style: &Style<'_>,
    first: &Outline,
    second: &Outline,
    rows: &mut Rows,
) -> Result<(), NoMemory>
    ensures { OnOk result (Puts style.now TellsNone rows.old.text.items rows.new.text.items) }
{
    let mut changes = first.record_changes(second);
    for _ in 0..u64::MAX {
        let Some(change) = changes.next() else {
            break;
        };
        list_record(style, change, rows)?;
    }
    Ok(())
}

/// Puts rows for what changed about a header record.
fn list_record(style: &Style<'_>, change: RecordChange<'_>, rows: &mut Rows) -> Result<(), NoMemory>
    ensures { OnOk result (Puts style.now TellsNone rows.old.text.items rows.new.text.items) }
{
    let mut rest = Vec::new(style.alloc);
    match change {
        RecordChange::Came(line) => {
            push_record(style.form, None, Some(line), &mut rest)?;
            put_header(style, Happening::Came, &rest, rows)
        }
        RecordChange::Went(line) => {
            push_record(style.form, Some(line), None, &mut rest)?;
            put_header(style, Happening::Went, &rest, rows)
        }
        RecordChange::Record(line, other) => {
            push_record(style.form, Some(line), Some(other), &mut rest)?;
            put_header(style, Happening::Changed, &rest, rows)
        }
        RecordChange::Parameters(line, other) => list_parameters(style, line, other, rows),
    }
}

/// Appends a record that came, went, or has another keyword or count.
fn push_record(
    form: RowForm,
    before: Option<&[u8]>,
    after: Option<&[u8]>,
    rest: &mut Vec<u8>,
) -> Result<(), NoMemory> {
    let keyword = keyword_of(before.or(after).unwrap_or_default());
    match form {
        RowForm::Text => {
            rest.extend_from_slice(keyword)?;
            if before.is_some() && after.is_some() {
                rest.push(b' ')?;
                push_shown_both(before, after, b" ", rest)?;
            }
            Ok(())
        }
        RowForm::Json => {
            push_member(b"\"entity\":\"", keyword, rest)?;
            rest.push(b',')?;
            push_both(form, before, after, rest)
        }
    }
}

/// Puts rows for what differs in the parameters of header records.
fn list_parameters(
    style: &Style<'_>,
    line: &[u8],
    other: &[u8],
    rows: &mut Rows,
) -> Result<(), NoMemory>
    ensures { OnOk result (Puts style.now TellsNone rows.old.text.items rows.new.text.items) }
{
    let mut parameters = OtherParameters::new(line, other);
    for _ in 0..u64::MAX {
        let Some(found) = parameters.next() else {
            break;
        };
        list_parameter(style, parameters.keyword, found, rows)?;
    }
    Ok(())
}

/// Puts a row for a parameter that is another one, if it isn't left out.
fn list_parameter(
    style: &Style<'_>,
    keyword: &[u8],
    found: OtherParameter<'_>,
    rows: &mut Rows,
) -> Result<(), NoMemory>
    ensures { OnOk result (Puts style.now TellsNone rows.old.text.items rows.new.text.items) }
{
    let numbered = format!(in style.alloc; "{}", found.number.saturating_add(1))?;
    let attribute = match header_attribute(keyword, found.number) {
        Some(name) => name,
        None => numbered.as_bytes(),
    };
    if is_ignored(style.left_out, keyword, attribute) {
        rows.ignored = rows.ignored.saturating_add(1);
        rows.ignored_in_header = rows.ignored_in_header.saturating_add(1);
        return Ok(());
    }
    let mut rest = Vec::new(style.alloc);
    push_parameter(style, keyword, attribute, found, &mut rest)?;
    put_header(style, Happening::Changed, &rest, rows)
}

/// Whether a parameter of a header record is left out by its name, and not with the header. What it answers is tested.
fn is_ignored(left_out: LeftOut<'_>, keyword: &[u8], attribute: &[u8]) -> bool {
    if left_out.header {
        return false;
    }
    for name in left_out.attributes {
        if name.entity == keyword && name.attribute == attribute {
            return true;
        }
    }
    false
}

/// Appends a parameter that is another one.
fn push_parameter(
    style: &Style<'_>,
    keyword: &[u8],
    attribute: &[u8],
    found: OtherParameter<'_>,
    rest: &mut Vec<u8>,
) -> Result<(), NoMemory> {
    match style.form {
        RowForm::Text => {
            rest.extend_from_slice(keyword)?;
            rest.push(b'.')?;
            rest.extend_from_slice(attribute)?;
            rest.push(b' ')?;
        }
        RowForm::Json => {
            push_member(b"\"entity\":\"", keyword, rest)?;
            push_member(b",\"attribute\":\"", attribute, rest)?;
            rest.push(b',')?;
        }
    }
    push_values(style.alloc, style.form, found.before, found.after, rest)
}

/// Puts rows for data sections that came and went.
fn list_sections(
    style: &Style<'_>,
    first: &Outline,
    second: &Outline,
    rows: &mut Rows,
) -> Result<(), NoMemory>
    ensures { OnOk result (Puts style.now TellsNone rows.old.text.items rows.new.text.items) }
{
    let mut changes = first.section_changes(second);
    for _ in 0..u64::MAX {
        let Some(change) = changes.next() else {
            break;
        };
        let (happening, before, after) = match change {
            SectionChange::Came(line) => (Happening::Came, None, Some(line)),
            SectionChange::Went(line) => (Happening::Went, Some(line), None),
        };
        let mut rest = Vec::new(style.alloc);
        push_both(style.form, before, after, &mut rest)?;
        put(style, &Subject::Section(happening), &rest, rows)?;
    }
    Ok(())
}

/// Puts rows for instances that stand in another data section.
fn list_moved<'a>(
    style: &Style<'_>,
    first: &'a Accepted,
    second: &'a Accepted,
    rows: &mut Rows,
) -> Result<(), NoMemory>
    ensures { OnOk result (Puts style.now TellsNone rows.old.text.items rows.new.text.items) }
{
    let mut least = 0;
    for _ in 0..u64::MAX {
        let Some(found) = first_moved_from(first, second, Name(least)) else {
            break;
        };
        let mut rest = Vec::new(style.alloc);
        let (before, after) = (Some(found.before), Some(found.after));
        match style.form {
            RowForm::Text => push_shown_both(before, after, b" to ", &mut rest)?,
            RowForm::Json => push_both(style.form, before, after, &mut rest)?,
        }
        put(style, &Subject::Moved(found.name), &rest, rows)?;
        let Some(next) = found.name.0.checked_add(1) else {
            break;
        };
        least = next;
    }
    Ok(())
}
