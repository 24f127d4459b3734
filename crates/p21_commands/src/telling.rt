//! Refusals with their places, as lines: for people as compilers write them, or as JSON.
//!
//! What is told of each refusal is tested, and no clause says it: its line and column are counted over what was read, and
//! its attribute is a name of the schema.

use crate::lines::{LineStarts, Position};
use crate::listing::Listing;
use crate::second_reading::{Met, SecondReading};
use crate::wanted::push_expected;
use crate::wants::attribute_at;
use p21_express::SchemaFault;
use p21_express_graph::Place as AttributePlace;
use p21_express_places::SchemaPlace;
use p21_schema::Schema;
use p21_stream::{At, Extent, Fault, Located, PassedOver, Place};
use p21_stream_numbered::NumberingRefusal;
use p21_values::Name;
use std::alloc::{AllocError, Global};

/// In which form refusals are told.
#[derive(Clone, Copy, Debug, PartialEq, Eq)]
pub enum Form {
    /// `FILE:LINE:COLUMN: 45 Count in #3: ENTITY.ATTRIBUTE`.
    Text,
    /// A JSON object (RFC 8259).
    Json,
}

/// How the refusals of a file are told.
#[derive(Clone, Copy)]
pub struct Telling<'a> {
    /// The path of the file, and as it is shown to people.
    pub path: &'a str,
    pub shown: &'a str,
    /// Where the lines of the file begin.
    pub lines: &'a LineStarts,
    /// What a second reading of it met of its refusals.
    pub again: &'a SecondReading,
    pub form: Form,
    /// Whether it is one of several files, of which each line has the path in front.
    pub is_named: bool,
}

/// Of what a refusal is: an attribute by the entity that declares it, or an entity alone; and which element of the attribute's
/// value, where it is one.
#[derive(Clone, Copy)]
struct Subject<'s> {
    entity: &'s str,
    attribute: Option<&'s str>,
    indices: &'s [u32],
}

/// What is told of a refusal: where it stands, what a second reading met of it, and its statement where that was passed over.
#[derive(Clone, Copy)]
struct Told<'r> {
    located: &'r Located,
    met: Option<Met<'r>>,
    passed: Option<PassedOver>,
}

/// A line for each refusal of a list, and for a read that failed.
pub(crate) fn survey_lines(
    alloc: Global,
    listing: Listing<'_>,
    telling: &Telling<'_>,
) -> Result<String, AllocError> {
    let mut lines = String::new(alloc);
    let mut next: usize = 0;
    for number in 0..usize::MAX {
        let Some(located) = listing.located(number) else {
            return Ok(lines);
        };
        let passed = passed_over(listing, number, next);
        if passed.is_some() {
            next = next.saturating_add(1);
        }
        let told = Told {
            located: &located,
            met: telling.again.met(number),
            passed,
        };
        push_told(alloc, listing.schema(), &told, telling, &mut lines)?;
    }
    Ok(lines)
}

/// The next of the statements that were passed over, if the refusal of this number is of it.
fn passed_over(listing: Listing<'_>, number: usize, next: usize) -> Option<PassedOver> {
    let statement = listing.passed_over(next)?;
    if statement.begins == listing.begins(number)? {
        Some(statement)
    } else {
        None
    }
}

/// Appends the line of the first refusal of a file, or of a read that failed.
pub(crate) fn push_line(
    alloc: Global,
    schema: &Schema,
    located: &Located,
    telling: &Telling<'_>,
    lines: &mut String,
) -> Result<(), AllocError> {
    let told = Told {
        located,
        met: telling.again.met(0),
        passed: None,
    };
    push_told(alloc, Some(schema), &told, telling, lines)
}

/// Appends the line of a refusal, or of a read that failed.
fn push_told(
    alloc: Global,
    schema: Option<&Schema>,
    told: &Told<'_>,
    telling: &Telling<'_>,
    lines: &mut String,
) -> Result<(), AllocError> {
    if told.located.refusal.fault == Fault::Read {
        push_front(telling, lines)?;
        lines.push_str("read fault\n")?;
        return Ok(());
    }
    match telling.form {
        Form::Text => push_text(alloc, schema, told, telling, lines),
        Form::Json => push_object(alloc, schema, told, telling, lines),
    }
}

/// Appends the path in front of a line without a place, where it has one.
pub(crate) fn push_front(telling: &Telling<'_>, lines: &mut String) -> Result<(), AllocError> {
    if telling.is_named {
        lines.push_str(telling.shown)?;
        lines.push_str(": ")?;
    }
    Ok(())
}

/// Appends the line of a refusal for people.
fn push_text(
    alloc: Global,
    schema: Option<&Schema>,
    told: &Told<'_>,
    telling: &Telling<'_>,
    lines: &mut String,
) -> Result<(), AllocError> {
    let refusal = &told.located.refusal;
    match position_of(telling.lines, place_of(told.located, told.met)) {
        Some(Position { line, column }) => {
            lines.push_str(telling.shown)?;
            lines.push_str(&format!(in alloc; ":{line}:{column}: ")?)?;
        }
        None => {
            push_front(telling, lines)?;
            lines.push_str("refused ")?;
        }
    }
    let (number, name) = (refusal.number(), refusal.name());
    lines.push_str(&format!(in alloc; "{number} {name} {}", refusal.at)?)?;
    if let Some(subject) = subject_of(schema, told.located, told.met) {
        lines.push_str(": ")?;
        push_subject(subject, lines)?;
    }
    lines.push_str("\n")
}

/// Appends the object of a refusal, and a line feed.
fn push_object(
    alloc: Global,
    schema: Option<&Schema>,
    told: &Told<'_>,
    telling: &Telling<'_>,
    lines: &mut String,
) -> Result<(), AllocError> {
    let refusal = &told.located.refusal;
    lines.push_str("{\"file\":")?;
    push_json(alloc, telling.path, lines)?;
    let (number, name) = (refusal.number(), refusal.name());
    lines.push_str(&format!(in alloc; ",\"number\":{number},\"name\":\"{name}\"")?)?;
    push_location(alloc, refusal.at, lines)?;
    push_passed(alloc, told.passed, lines)?;
    push_place(
        alloc,
        telling.lines,
        place_of(told.located, told.met),
        lines,
    )?;
    if let Some(subject) = subject_of(schema, told.located, told.met) {
        push_members(alloc, subject, lines)?;
    }
    push_expected(told.located, lines)?;
    lines.push_str("}\n")
}

/// Appends the member of a statement that was passed over: where it begins, and where the reading goes on.
fn push_passed(
    alloc: Global,
    passed: Option<PassedOver>,
    lines: &mut String,
) -> Result<(), AllocError> {
    let Some(PassedOver { begins, ends }) = passed else {
        return Ok(());
    };
    lines.push_str(&format!(in alloc; ",\"passed\":[{begins},{ends}]")?)
}

/// Appends the member of the statement or the instance that a refusal names.
fn push_location(alloc: Global, at: At, lines: &mut String) -> Result<(), AllocError> {
    match at {
        At::Statement(statement) => {
            lines.push_str(&format!(in alloc; ",\"statement\":{statement}")?)
        }
        At::Instance(Name(instance)) => {
            lines.push_str(&format!(in alloc; ",\"instance\":{instance}")?)
        }
    }
}

/// Appends the object of a file that has no numbered file, and a line feed.
pub(crate) fn push_numbering(
    alloc: Global,
    refusal: &NumberingRefusal,
    telling: &Telling<'_>,
    lines: &mut String,
) -> Result<(), AllocError> {
    lines.push_str("{\"file\":")?;
    push_json(alloc, telling.path, lines)?;
    let (number, name) = (refusal.number(), refusal.name());
    lines.push_str(&format!(in alloc; ",\"number\":{number},\"name\":\"{name}\"")?)?;
    match refusal {
        NumberingRefusal::Refused(refusal) => push_location(alloc, refusal.at, lines)?,
        NumberingRefusal::Alike(one, other) => push_alike(alloc, *one, *other, lines)?,
    }
    lines.push_str("}\n")
}

/// Appends the members of two instances that a model doesn't tell apart.
fn push_alike(alloc: Global, one: Name, other: Name, lines: &mut String) -> Result<(), AllocError> {
    let Name(other) = other;
    push_location(alloc, At::Instance(one), lines)?;
    lines.push_str(&format!(in alloc; ",\"alike\":{other}")?)
}

/// The object of a schema text that is refused, and a line feed. The file is that of this path.
///
/// # Errors
///
/// Want of memory.
pub fn schema_object(
    alloc: Global,
    path: &str,
    refused: SchemaFault,
    place: Option<(SchemaPlace, Position)>,
) -> Result<String, AllocError> {
    let mut line = String::new(alloc);
    line.push_str("{\"file\":")?;
    push_json(alloc, path, &mut line)?;
    let (number, name) = (refused.number(), refused.name());
    line.push_str(&format!(in alloc; ",\"number\":\"S{number}\",\"name\":\"{name}\"")?)?;
    if let Some((SchemaPlace { byte }, Position { line: row, column })) = place {
        line.push_str(&format!(in alloc; ",\"byte\":{byte},\"line\":{row},\"column\":{column}")?)?;
    }
    line.push_str("}\n")?;
    Ok(line)
}

/// Appends the members that say where a refusal stands, if that is known.
fn push_place(
    alloc: Global,
    starts: &LineStarts,
    place: Option<Place>,
    lines: &mut String,
) -> Result<(), AllocError> {
    let Some(Place { byte }) = place else {
        return Ok(());
    };
    lines.push_str(&format!(in alloc; ",\"byte\":{byte}")?)?;
    let Some(Position { line, column }) = starts.position(byte) else {
        return Ok(());
    };
    lines.push_str(&format!(in alloc; ",\"line\":{line},\"column\":{column}")?)?;
    if let Some(column) = starts.column_in_characters(byte) {
        lines.push_str(&format!(in alloc; ",\"column_in_characters\":{column}")?)?;
    }
    Ok(())
}

/// Appends the members that say of what a refusal is.
fn push_members(alloc: Global, subject: Subject<'_>, lines: &mut String) -> Result<(), AllocError> {
    lines.push_str(",\"entity\":")?;
    push_json(alloc, subject.entity, lines)?;
    if let Some(attribute) = subject.attribute {
        lines.push_str(&format!(in alloc; ",\"attribute\":\"{attribute}\"")?)?;
    }
    push_indices(alloc, subject.indices, lines)
}

/// Appends the member of the indices of an element, if there are some.
fn push_indices(alloc: Global, indices: &[u32], lines: &mut String) -> Result<(), AllocError> {
    let mut sign = ",\"indices\":[";
    for number in indices {
        lines.push_str(&format!(in alloc; "{sign}{number}")?)?;
        sign = ",";
    }
    if sign == "," {
        lines.push_str("]")?;
    }
    Ok(())
}

/// Appends the object of the end of a list, and a line feed.
pub(crate) fn push_end(
    alloc: Global,
    count: u64,
    extent: Extent,
    telling: &Telling<'_>,
    lines: &mut String,
) -> Result<(), AllocError> {
    lines.push_str("{")?;
    if telling.is_named {
        lines.push_str("\"file\":")?;
        push_json(alloc, telling.path, lines)?;
        lines.push_str(",")?;
    }
    lines.push_str(&format!(in alloc; "\"refusals\":{count},\"extent\":")?)?;
    match extent {
        Extent::Whole => lines.push_str("\"whole\"}\n"),
        Extent::ReadTo(bytes) => {
            lines.push_str(&format!(in alloc; "\"part\",\"read\":{bytes}}}\n")?)
        }
        Extent::Most => lines.push_str("\"most\"}\n"),
    }
}

/// Appends a text as a JSON string (RFC 8259, 7).
fn push_json(alloc: Global, text: &str, lines: &mut String) -> Result<(), AllocError> {
    lines.push_str("\"")?;
    for letter in text.chars() {
        match letter {
            '"' => lines.push_str("\\\"")?,
            '\\' => lines.push_str("\\\\")?,
            _ if (letter as u32) < 0x20 || letter as u32 == 0x7f => {
                let code = letter as u32;
                lines.push_str(&format!(in alloc; "\\u{code:04x}")?)?;
            }
            _ => lines.push(letter)?,
        }
    }
    lines.push_str("\"")
}

/// The line and the column of a place, where both are known.
fn position_of(starts: &LineStarts, place: Option<Place>) -> Option<Position> {
    starts.position(place?.byte)
}

/// The place of a refusal: its own one, or the one that was met.
fn place_of(located: &Located, met: Option<Met<'_>>) -> Option<Place> {
    match located.place {
        Some(place) => Some(place),
        None => Some(met?.place),
    }
}

/// Of what a refusal is, by its own attribute, or by what was met of it. Of nothing where there is no schema.
fn subject_of<'s>(
    schema: Option<&'s Schema>,
    located: &'s Located,
    met: Option<Met<'s>>,
) -> Option<Subject<'s>> {
    let schema = schema?;
    match located.attribute {
        Some(place) => subject_at(schema, place, located.indices.numbers()),
        None => subject_met(schema, met?),
    }
}

/// Of what a refusal is, by what was met of it: the attribute of a reference, or else the entity of the part.
fn subject_met<'s>(schema: &'s Schema, met: Met<'s>) -> Option<Subject<'s>> {
    if let Some((parameter, indices)) = met.steps.split_first() {
        let place = attribute_at(schema, met.keyword, met.is_alone, *parameter)?;
        return subject_at(schema, place, indices);
    }
    Some(Subject {
        entity: str::from_utf8(met.keyword).ok()?,
        attribute: None,
        indices: &[],
    })
}

/// An attribute and an element of its value, if it is one of the schema.
fn subject_at<'s>(
    schema: &'s Schema,
    place: AttributePlace,
    indices: &'s [u32],
) -> Option<Subject<'s>> {
    if place.entity.0 as usize >= schema.entities() {
        return None;
    }
    if place.index >= schema.attribute_count(place.entity) {
        return None;
    }
    Some(Subject {
        entity: str::from_utf8(schema.entity_name(place.entity)).ok()?,
        attribute: Some(str::from_utf8(schema.place_name(place)).ok()?),
        indices,
    })
}

/// Appends what a refusal is of: `ENTITY.ATTRIBUTE`, or `ENTITY` alone.
fn push_subject(subject: Subject<'_>, lines: &mut String) -> Result<(), AllocError> {
    lines.push_str(subject.entity)?;
    if let Some(attribute) = subject.attribute {
        lines.push_str(".")?;
        lines.push_str(attribute)?;
    }
    Ok(())
}

/// Of what a refusal is, as it is told to people: `ENTITY.ATTRIBUTE`, or `ENTITY` alone. None where it is of
/// neither, or memory is refused.
pub(crate) fn subject_text(
    alloc: Global,
    schema: &Schema,
    located: &Located,
    met: Option<Met<'_>>,
) -> Option<String> {
    let subject = subject_of(Some(schema), located, met)?;
    let mut text = String::new(alloc);
    push_subject(subject, &mut text).ok()?;
    Some(text)
}
