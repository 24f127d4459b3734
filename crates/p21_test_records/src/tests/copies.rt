use super::trees::part_of;
use super::*;
use p21_canon::write_header;
use p21_grammar::{NoMemory, Param, Part};
use p21_mapping::{copied_param, copied_record};

/// The statements of a header up to its schema.
const HEADER: &str =
    "ISO-10303-21;HEADER;FILE_DESCRIPTION($,$);FILE_NAME($,$,$,$,$,$,$);FILE_SCHEMA(('S'));";

/// A record `B` with this parameter.
fn part_with(alloc: Global, param: Param) -> Option<Part> {
    match Vec::from_array(alloc, [param]) {
        Ok(params) => part_of(alloc, params),
        Err(_) => None,
    }
}

/// A record `B` with the copy of the first parameter of another one.
fn part_with_copy(alloc: Global, part: &Part) -> Option<Part> {
    match copied_param(alloc, part.params.items().first()?) {
        Ok(copy) => part_with(alloc, copy),
        Err(_) => None,
    }
}

/// The record of a statement.
fn part_in(statement: &Event) -> Option<&Part> {
    match statement {
        Event::Header(part) => Some(part),
        Event::Instance(_, Record::Simple(part)) => Some(part),
        _ => None,
    }
}

/// A record `B` with the copy of the first parameter of the last statement.
fn copy_in(alloc: Global, reader: &Reader) -> Option<Part> {
    part_with_copy(alloc, part_in(reader.statement()?)?)
}

/// Whether the copy of a text's first parameter is written so behind `B`.
fn is_copied(alloc: Global, front: &str, text: &str, wanted: &str) -> bool {
    let mut reader = Reader::behind(alloc, front);
    reader.feed(text.as_bytes());
    match copy_in(alloc, &reader) {
        Some(part) => is_written(alloc, &part, wanted),
        None => false,
    }
}

fn is_written(alloc: Global, part: &Part, wanted: &str) -> bool {
    let mut out = Vec::new(alloc);
    write_header(part, &mut out).is_ok() && out.as_slice() == wanted.as_bytes()
}

/// The first parameter of which the copy is written otherwise.
fn first_uncopied(alloc: Global, front: &str, rows: Rows) -> &'static str {
    for (text, wanted) in rows {
        if !is_copied(alloc, front, text, wanted) {
            return text;
        }
    }
    "none"
}

const PARAMS: Rows = &[
    ("K($);", "B($);"),
    ("K(*);", "B(*);"),
    ("K(-0120);", "B(-120);"),
    ("K(-0.00250);", "B(-2.5E-3);"),
    (
        "K('\u{e9}'' of more than sixteen characters');",
        "B('\\X2\\00E9\\X0\\'' of more than sixteen characters');",
    ),
    ("K(.RED.);", "B(.RED.);"),
    ("K(\"23B\");", "B(\"23B\");"),
    ("K(());", "B(());"),
    ("K(!TALLY((*,$)));", "B(!TALLY((*,$)));"),
];

const NAMES: Rows = &[("#1=K(#7);", "B(#7);")];

#[test]
fn each_parameter(rt: HostRuntime) {
    passes(&rt, first_uncopied(rt.alloc(), HEADER, PARAMS));
    passes(&rt, first_uncopied(rt.alloc(), HEAD, NAMES));
}

/// Appends the simple records that a record has.
fn append_record(record: &Record, out: &mut Vec<u8>) -> Result<(), NoMemory> {
    match record {
        Record::Simple(part) => write_header(part, out),
        Record::Complex(parts) => append_parts(parts.items(), out),
    }
}

fn append_parts(parts: &[Part], out: &mut Vec<u8>) -> Result<(), NoMemory> {
    for part in parts {
        write_header(part, out)?;
    }
    Ok(())
}

/// Whether the simple records of the copy are written so.
fn is_copied_whole(alloc: Global, record: &Record, wanted: &str) -> bool {
    let mut out = Vec::new(alloc);
    match copied_record(alloc, record) {
        Ok(copy) => append_record(&copy, &mut out).is_ok() && out.as_slice() == wanted.as_bytes(),
        Err(_) => false,
    }
}

/// The first instance of which the copy's simple records are written otherwise.
fn first_uncopied_whole(alloc: Global, rows: Rows) -> &'static str {
    for (text, wanted) in rows {
        match read_instance(alloc, text.as_bytes()) {
            Some(instance) => {
                if !is_copied_whole(alloc, &instance.record, wanted) {
                    return text;
                }
            }
            None => return text,
        }
    }
    "none"
}

const RECORDS: Rows = &[
    (
        "#1=A($,*,-0120,-0.00250,'\u{e9}'' of more than sixteen characters',#7,.RED.,\"23B\",(),TALLY((*,$)));",
        "A($,*,-120,-2.5E-3,'\\X2\\00E9\\X0\\'' of more than sixteen characters',#7,.RED.,\"23B\",(),TALLY((*,$)));",
    ),
    (
        "#1=(A($,*,-0120,-0.00250,'',#7)B(.RED.,\"23B\",(),TALLY((*,$))));",
        "A($,*,-120,-2.5E-3,'',#7);B(.RED.,\"23B\",(),TALLY((*,$)));",
    ),
];

#[test]
fn copies_records(rt: HostRuntime) {
    passes(&rt, first_uncopied_whole(rt.alloc(), RECORDS));
}
