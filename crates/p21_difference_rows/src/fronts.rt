//! The beginnings of rows.
ghost use Rattle.std.specs.Prelude.{◌≡◌, ◌++◌, OnOk, codes};
ghost use Rattle.p21_difference_rows.specs.Fronts.{entity_name, attribute_name, front, happening_word};
ghost use Rattle.p21_difference_rows.specs.Fronts.{line_front, object_front, value_object_front};
ghost use Rattle.p21_difference_rows.specs.Listed.{IsOfSchema};
ghost use Rattle.p21_difference_rows.specs.RealNames.{real_name};
ghost use Rattle.p21_express_graph.specs.Meaning.{place as place_of};
ghost use Rattle.p21_express_graph.specs.Resolved.{IsPlace};

use crate::names::{push_both_named, real_name};
use crate::pushing::{push, push_in_both, push_named};
use crate::row::{Happening, RowForm, Style, Subject};
use p21_express_graph::Place;
use p21_schema::Schema;
use p21_values::{Name, NoMemory};

/// Appends the beginning of a row.
pub(crate) fn push_front(
    style: &Style<'_>,
    subject: &Subject,
    text: &mut Vec<u8>,
) -> Result<(), NoMemory>
    requires { IsOfSchema style.now.schema.now subject.now }
    ensures { OnOk result (text.new.items ≡ text.old.items
        ++ front style.now.form style.now.schema.now (real_name style.now.names) subject.now) }
{
    match style.form {
        RowForm::Text => push_line_front(style, subject, text),
        RowForm::Json => push_object_front(style, subject, text),
    }
}

/// The word for what happened.
pub(crate) fn word_of(happening: Happening) -> &'static [u8]
    ensures { result.now ≡ happening_word happening }
{
    match happening {
        Happening::Changed => b"changed",
        Happening::Came => b"came",
        Happening::Went => b"went",
    }
}

/// Appends the beginning of a line.
fn push_line_front(style: &Style<'_>, subject: &Subject, text: &mut Vec<u8>) -> Result<(), NoMemory>
    requires { IsOfSchema style.now.schema.now subject.now }
    ensures { OnOk result (text.new.items ≡ text.old.items ++ line_front style.now.schema.now (real_name style.now.names) subject.now) }
{
    let (alloc, names) = (style.alloc, style.names);
    match *subject {
        Subject::Header(happening) => {
            push(word_of(happening), text)?;
            push(b" header ", text)
        }
        Subject::Section(happening) => {
            push(word_of(happening), text)?;
            push(b" section ", text)
        }
        Subject::Moved(Name(name)) => {
            let real = real_name(names, name);
            push_both_named(alloc, b"moved #", real, name, b" from ", text)
        }
        Subject::Came(Name(name)) => push_named(alloc, b"came #", name, b" ", text),
        Subject::Went(Name(name)) => {
            push_named(alloc, b"went #", real_name(names, name), b" ", text)
        }
        Subject::Set(Name(name)) => {
            let real = real_name(names, name);
            push_both_named(alloc, b"changed #", real, name, b" from ", text)
        }
        Subject::Value(Name(name), place) => {
            let real = real_name(names, name);
            push_both_named(alloc, b"changed #", real, name, b" ", text)?;
            push_attribute(style.schema, place, b".", b" ", text)
        }
    }
}

/// Appends the beginning of an object.
fn push_object_front(
    style: &Style<'_>,
    subject: &Subject,
    text: &mut Vec<u8>,
) -> Result<(), NoMemory>
    requires { IsOfSchema style.now.schema.now subject.now }
    ensures { OnOk result (text.new.items ≡ text.old.items ++ object_front style.now.schema.now (real_name style.now.names) subject.now) }
{
    let (alloc, names) = (style.alloc, style.names);
    match *subject {
        Subject::Header(happening) => { push_kind(happening, b"\",\"what\":\"header\",", text) }
        Subject::Section(happening) => { push_kind(happening, b"\",\"what\":\"section\",", text) }
        Subject::Moved(Name(name)) => {
            push_in_both(
                alloc,
                b"{\"kind\":\"changed\",\"what\":\"section of\",",
                real_name(names, name),
                name,
                b",",
                text,
            )
        }
        Subject::Came(Name(name)) => {
            push_named(
                alloc,
                b"{\"kind\":\"came\",\"what\":\"instance\",\"b\":",
                name,
                b",",
                text,
            )
        }
        Subject::Went(Name(name)) => {
            push_named(
                alloc,
                b"{\"kind\":\"went\",\"what\":\"instance\",\"a\":",
                real_name(names, name),
                b",",
                text,
            )
        }
        Subject::Set(Name(name)) => {
            push_in_both(
                alloc,
                b"{\"kind\":\"changed\",\"what\":\"instance\",",
                real_name(names, name),
                name,
                b",\"before\":",
                text,
            )
        }
        Subject::Value(Name(name), place) => {
            push_value_front(style, real_name(names, name), name, place, text)
        }
    }
}

/// Appends the beginning of an object about a value.
fn push_value_front(
    style: &Style<'_>,
    real: u64,
    name: u64,
    place: Place,
    text: &mut Vec<u8>,
) -> Result<(), NoMemory>
    requires { IsPlace style.now.schema.now (place_of place) }
    ensures { OnOk result (text.new.items ≡ text.old.items ++ value_object_front style.now.schema.now real name (place_of place)) }
{
    push_in_both(
        style.alloc,
        b"{\"kind\":\"changed\",\"what\":\"instance\",",
        real,
        name,
        b",\"entity\":\"",
        text,
    )?;
    push_attribute(style.schema, place, b"\",\"attribute\":\"", b"\",", text)
}

/// Appends the beginning of an object that has no name.
fn push_kind(happening: Happening, behind: &[u8], text: &mut Vec<u8>) -> Result<(), NoMemory>
    ensures { OnOk result (text.new.items ≡ text.old.items ++ (codes "{\"kind\":\"" ++ (happening_word happening ++ behind.now))) }
{
    push(b"{\"kind\":\"", text)?;
    push(word_of(happening), text)?;
    push(behind, text)
}

/// Appends the entity that declares an attribute and the name of the attribute, each with a text behind it.
fn push_attribute(
    schema: &Schema,
    place: Place,
    between: &[u8],
    behind: &[u8],
    text: &mut Vec<u8>,
) -> Result<(), NoMemory>
    requires { IsPlace schema.now (place_of place) }
    ensures { OnOk result (text.new.items ≡ text.old.items
        ++ (entity_name schema.now (place_of place).entity
        ++ (between.now ++ (attribute_name schema.now (place_of place) ++ behind.now)))) }
{
    push(schema.entity_name(place.entity), text)?;
    push(between, text)?;
    push(schema.place_name(place), text)?;
    push(behind, text)
}
