//! Where the refusals stand that a survey lists, one behind the other: 24 bytes for each, and 4 for each index. Where a reference
//! stands isn't kept while the file is read, but which instance is wanted there: 16 bytes for each that is refused. What could stand in place of a
//! token is kept of those refusals alone that are of one.
//!
//! A refusal is listed when its statement ends, and then its place is found: the bytes of the statement are read once
//! more. A session, and a survey that isn't asked for places, keep none and look for none. Of a record that is refused by what is known of an
//! entity with a large set the value is looked for by the walk of the whole set, as long as fewer than 4,096 refusals are listed: behind them it
//! has the place of its instance.

use crate::indices::Indices;
use crate::placing::{attribute_of, elements_of, inside, place_of};
use p21_express_graph::Place as AttributePlace;
use p21_mapping::Trail;
use p21_mapping_values::Need;
use p21_stream_statements::{
    Expected, Fault, Place, Places, Refusal, Source, StatementReader, place_inside,
};
use std::alloc::Global;

/// Where a refusal stands.
#[derive(Clone, Copy)]
struct Spot {
    place: Place,
    attribute: Option<AttributePlace>,
    // So many indices are kept up to the last one of this refusal.
    indices: u32,
}

/// A statement of which something is refused: its bytes as far as they are read, how many bytes of the file stand in front of it, where its
/// reader stands, and what could stand in place of a token that is refused.
#[derive(Clone, Copy)]
pub struct RefusedStatement<'a> {
    pub bytes: &'a [u8],
    pub begins: u64,
    pub places: Places,
    pub expected: Expected,
}

/// A statement that is passed over: how many bytes of the file stand in front of it, and in front of what is read behind it.
#[derive(Clone, Copy, Debug, PartialEq, Eq)]
pub struct PassedOver {
    pub begins: u64,
    pub ends: u64,
}

/// What could stand in place of the token that a refusal is of.
#[derive(Clone, Copy)]
struct Awaited {
    // The number of the refusal.
    number: usize,
    expected: Expected,
}

/// Where the refusals of a list stand, as far as that is known.
pub struct Spots {
    alloc: Global,
    is_asked: bool,
    // Of the refusals of a list, those that have a place come first.
    all: Vec<Spot>,
    indices: Vec<u32>,
    // By rising numbers.
    awaited: Vec<Awaited>,
    // What is wanted at the references whose refusals stand behind these.
    needs: Vec<Need>,
    // The statements that are passed over, in the order of the file.
    passed_over: Vec<PassedOver>,
}

// Written out: crates above call it, where they would prove a derived one field by field.
impl Drop for Spots {
    fn drop(self) {
        let Spots {
            alloc: _,
            is_asked: _,
            all: _,
            indices: _,
            awaited: _,
            needs: _,
            passed_over: _,
        } = self;
    }
}

impl Spots {
    /// No place is known; those that come are noted where that is asked for. It takes no memory.
    pub fn new(alloc: Global, is_asked: bool) -> Spots {
        Spots {
            alloc,
            is_asked,
            all: Vec::new(alloc),
            indices: Vec::new(alloc),
            awaited: Vec::new(alloc),
            needs: Vec::new(alloc),
            passed_over: Vec::new(alloc),
        }
    }

    /// Whether places are asked for.
    pub fn is_asked(&self) -> bool {
        self.is_asked
    }

    /// The number in the list of the refusal whose place is to be noted next; one that no list has where none is asked for.
    pub fn next(&self) -> usize {
        if self.is_asked {
            self.all.len()
        } else {
            usize::MAX
        }
    }

    /// The place of the refusal of this number.
    pub fn place(&self, number: usize) -> Option<Place> {
        Some(self.all.get(number)?.place)
    }

    /// The attribute whose value is refused by the refusal of this number.
    pub fn attribute(&self, number: usize) -> Option<AttributePlace> {
        self.all.get(number)?.attribute
    }

    /// What could stand in place of the token that is refused by the refusal of this number.
    pub fn expected(&self, number: usize) -> Expected {
        let first = self
            .awaited
            .partition_point(|awaited| awaited.number < number);
        match self.awaited.get(first) {
            Some(awaited) if awaited.number == number => awaited.expected,
            _ => Expected::none(),
        }
    }

    /// The indices of the refusal of this number.
    pub fn indices(&self, number: usize) -> Indices {
        Indices::of_numbers(self.numbers(number).unwrap_or(&[]))
    }

    /// What is wanted at the reference that the refusal of this number is of.
    pub fn need(&self, number: usize) -> Option<Need> {
        let behind = number.checked_sub(self.all.len())?;
        self.needs.get(behind).copied()
    }

    /// The statement of this number, counted from 0, of those that are passed over.
    pub fn passed_over(&self, number: usize) -> Option<PassedOver> {
        self.passed_over.get(number).copied()
    }

    fn numbers(&self, number: usize) -> Option<&[u32]> {
        let start = match number.checked_sub(1) {
            Some(before) => self.all.get(before)?.indices,
            None => 0,
        };
        let end = self.all.get(number)?.indices;
        self.indices.get(start as usize..end as usize)
    }

    /// Notes where a refusal stands that is the next of the list. Where memory is refused no further places are noted.
    #[inline(never)]
    pub fn note(
        &mut self,
        refusal: Refusal,
        statements: &StatementReader,
        statement: &Source,
        trail: &Trail,
    ) {
        if !self.is_asked {
            return;
        }
        let noted = inside(
            self.alloc,
            statement,
            refusal.fault,
            refusal.at,
            trail.steps(),
        );
        let place = place_of(refusal.fault, statements.places(), noted);
        let expected = Expected::of(refusal.fault, statements);
        self.note_at(refusal.fault, place, expected, trail);
    }

    /// Notes where a refusal of this statement stands, which is the next of the list. Where memory is refused no further places are noted.
    #[inline(never)]
    pub fn note_refused(
        &mut self,
        refusal: Refusal,
        statement: RefusedStatement<'_>,
        trail: &Trail,
    ) {
        if !self.is_asked {
            return;
        }
        let RefusedStatement {
            bytes,
            begins,
            places,
            expected,
        } = statement;
        let fault = refusal.fault;
        let noted = place_inside(self.alloc, refusal, begins, bytes, trail.steps());
        let places = Places {
            statement: begins,
            ..places
        };
        let place = place_of(fault, places, noted);
        self.note_at(fault, place, expected, trail);
    }

    fn note_at(&mut self, fault: Fault, place: Option<Place>, expected: Expected, trail: &Trail) {
        let attribute = attribute_of(fault, trail);
        let elements = Indices::of(elements_of(fault, trail));
        self.is_asked = self.await_tokens(expected).is_some()
            && self.add(place, attribute, elements.numbers()).is_some();
    }

    /// Notes a refusal with its place alone.
    pub fn note_place(&mut self, place: Option<Place>) {
        if self.is_asked {
            self.is_asked = self.add(place, None, &[]).is_some();
        }
    }

    /// Notes what is wanted at a reference, whose refusal is the next of the list.
    pub fn note_need(&mut self, need: Need) {
        if !self.is_asked {
            return;
        }
        if self.needs.push(need).is_err() {
            self.is_asked = false;
        }
    }

    /// Notes that a statement is passed over, which is the next one of these.
    pub fn note_passed_over(&mut self, statement: PassedOver) {
        if self.is_asked {
            self.is_asked = self.passed_over.push(statement).is_ok();
        }
    }

    /// Notes what could stand in place of the token that the next refusal is of. None where there is no room for it.
    fn await_tokens(&mut self, expected: Expected) -> Option<()> {
        if expected == Expected::none() {
            return Some(());
        }
        let number = self.all.len();
        self.awaited.push(Awaited { number, expected }).ok()
    }

    /// Notes a refusal. One that has no place, as it is not of the file's bytes, ends the list or stands behind all that have one. None
    /// where there is no room for it.
    fn add(
        &mut self,
        place: Option<Place>,
        attribute: Option<AttributePlace>,
        numbers: &[u32],
    ) -> Option<()> {
        let Some(place) = place else {
            return Some(());
        };
        self.indices.extend_from_slice(numbers).ok()?;
        let indices = u32::try_from(self.indices.len()).ok()?;
        self.all
            .push(Spot {
                place,
                attribute,
                indices,
            })
            .ok()
    }
}
