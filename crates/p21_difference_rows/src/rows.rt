//! Rows one behind the other.
ghost use Rattle.std.specs.Prelude.{◌≡◌, [], OnOk};
ghost use Rattle.p21_difference_rows.specs.Asked.{left_out_of};
ghost use Rattle.p21_difference_rows.specs.Listed.{IsOfSchema, MayStand, told};
ghost use Rattle.p21_difference_rows.specs.Steps.{Puts, TellsAlone, TellsNone};

use crate::fronts::push_front;
use crate::pushing::push_rest;
use crate::row::{Happening, Style, Subject};
use p21_values::NoMemory;
use std::alloc::Global;

/// Rows, each a line, and how many there are of each kind; and how many differences were left out: of the header as a whole, of
/// attributes that are named, those of header records among them, and of values within a tolerance.
#[derive(Drop)]
pub(crate) struct Rows {
    pub text: Vec<u8>,
    pub changed: u64,
    pub came: u64,
    pub went: u64,
    pub in_header: u64,
    pub ignored: u64,
    pub ignored_in_header: u64,
    pub near: u64,
}

impl Rows {
    /// No rows.
    pub(crate) fn new(alloc: Global) -> Rows
        ensures { result.text.items ≡ [] }
    {
        Rows {
            text: Vec::new(alloc),
            changed: 0,
            came: 0,
            went: 0,
            in_header: 0,
            ignored: 0,
            ignored_in_header: 0,
            near: 0,
        }
    }
}

/// Puts a row behind the others.
pub(crate) fn put(
    style: &Style<'_>,
    subject: &Subject,
    rest: &[u8],
    rows: &mut Rows,
) -> Result<(), NoMemory>
    requires of_schema { IsOfSchema style.now.schema.now subject.now }
    requires may_stand { MayStand (left_out_of style.now.left_out) subject.now }
    ensures { OnOk result (Puts style.now (TellsAlone (told subject.now)) rows.old.text.items rows.new.text.items) }
{
    count(happening_of(subject), rows);
    push_front(style, subject, &mut rows.text)?;
    push_rest(rest, &mut rows.text)
}

/// Puts a row about the header behind the others, where the header isn't left out.
pub(crate) fn put_header(
    style: &Style<'_>,
    happening: Happening,
    rest: &[u8],
    rows: &mut Rows,
) -> Result<(), NoMemory>
    ensures { OnOk result (Puts style.now TellsNone rows.old.text.items rows.new.text.items) }
{
    if style.left_out.header {
        rows.in_header = rows.in_header.saturating_add(1);
        return Ok(());
    }
    put(style, &Subject::Header(happening), rest, rows)
}

/// Counts a row.
fn count(happening: Happening, rows: &mut Rows)
    ensures { rows.new.text.items ≡ rows.old.text.items }
{
    match happening {
        Happening::Changed => rows.changed = rows.changed.saturating_add(1),
        Happening::Came => rows.came = rows.came.saturating_add(1),
        Happening::Went => rows.went = rows.went.saturating_add(1),
    }
}

/// What happened to what a row is about.
fn happening_of(subject: &Subject) -> Happening {
    match *subject {
        Subject::Header(happening) => happening,
        Subject::Section(happening) => happening,
        Subject::Moved(_) => Happening::Changed,
        Subject::Came(_) => Happening::Came,
        Subject::Went(_) => Happening::Went,
        Subject::Set(_) => Happening::Changed,
        Subject::Value(_, _) => Happening::Changed,
    }
}
