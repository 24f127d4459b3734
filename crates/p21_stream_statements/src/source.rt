//! The bytes of the statement that is open, for the place of a refusal that is one of the whole statement. Of an instance that is open behind a
//! piece 65,536 bytes are kept at most; one that is longer and spans pieces has the place where it begins.
ghost use Rattle.std.specs.Prelude.{◌≤◌, length};

use crate::fault::Fault;
use crate::header_places::{header_place, schema_place, section_place};
use crate::place::Place;
use crate::record_places::record_place;
use crate::refusal::{At, Refusal};
use p21_grammar::GrammarFault;
use p21_tokens::Places;
use p21_values::NoMemory;
use std::alloc::{AllocError, Global};

/// The most bytes of an instance that are kept behind a piece: more are given up, and then a refusal has the place of the
/// instance alone.
const MOST_OF_AN_INSTANCE: usize = 65_536;

/// The bytes of a statement that is open behind a piece, or of the one that is refused.
#[derive(Drop)]
pub struct Source {
    bytes: Vec<u8>,
    // Where in the file they begin: none where no statement is open, or where memory was refused for it.
    start: Option<u64>,
    // How many bytes of the file were taken before the next piece.
    taken: u64,
}

impl Source {
    /// At the beginning of a file. It takes no memory.
    pub fn new(alloc: Global) -> Source {
        Source {
            bytes: Vec::new(alloc),
            start: None,
            taken: 0,
        }
    }

    /// Behind a piece: of the statement that is open there, if one is, what the piece has of it is kept.
    pub fn pass(&mut self, piece: &[u8], places: Places, is_open: bool) {
        if is_open {
            self.gather(piece, places, MOST_OF_AN_INSTANCE);
        } else {
            self.give_up();
            self.taken = places.byte;
        }
    }

    /// Takes what the bytes of a piece up to a place have of the last statement.
    pub fn take(&mut self, piece: &[u8], places: Places) {
        self.gather(piece, places, usize::MAX);
    }

    /// Takes what the bytes of a piece up to a place have of the last statement, unless it is an instance of more bytes than these.
    #[inline(never)]
    fn gather(&mut self, piece: &[u8], places: Places, most: usize) {
        let before = self.taken;
        self.taken = places.byte;
        let count = offset_in(piece, before, places.byte);
        let front = &piece[..count];
        let bytes = if places.statement < before {
            front
        } else {
            self.bytes.clear();
            self.start = Some(places.statement);
            &front[offset_in(front, before, places.statement)..]
        };
        if self.start.is_none() {
            return;
        }
        if let Err(AllocError) = self.bytes.extend_from_slice(bytes) {
            self.start = None;
        }
        if is_of_instance(&self.bytes) && self.bytes.len() > most {
            self.give_up();
        }
    }

    /// Keeps nothing of the statement.
    fn give_up(&mut self) {
        self.bytes.clear();
        self.bytes.shrink_to_fit();
        self.start = None;
    }

    /// The place of a refusal of the statement whose bytes these are, if it is one that stands inside: none where memory is
    /// refused. In the record of an instance these steps lead from what is refused up to the record: the numbers of the elements
    /// around it, where the value of a typed parameter is its element 0, that of its parameter, and that of its part.
    pub fn place_of(&self, alloc: Global, refusal: Refusal, steps: &[usize]) -> Option<Place> {
        place_inside(alloc, refusal, self.start?, &self.bytes, steps)
    }
}

/// The place of a refusal of a statement with these bytes, which begins behind so many bytes of the file, if it is one that stands inside:
/// none where memory is refused. In the record of an instance these steps lead there, as `Source::place_of` has them.
pub fn place_inside(
    alloc: Global,
    refusal: Refusal,
    begins: u64,
    statement: &[u8],
    steps: &[usize],
) -> Option<Place> {
    let found = match refusal.at {
        At::Statement(number) => offset_of(alloc, refusal.fault, number, statement)?,
        At::Instance(_) => offset_in_record(alloc, refusal.fault, statement, steps)?,
    };
    match found {
        Ok(offset) => Some(Place {
            byte: begins.saturating_add(offset),
        }),
        Err(NoMemory) => None,
    }
}

/// Whether these bytes begin an instance.
fn is_of_instance(statement: &[u8]) -> bool {
    match statement.first() {
        Some(first) => *first == b'#',
        None => false,
    }
}

/// How many bytes of a piece stand in front of a place in the file, where so many bytes stand in front of the piece.
fn offset_in(piece: &[u8], before: u64, place: u64) -> usize
    ensures { result ≤ length piece.now }
{
    place.saturating_sub(before).min(piece.len() as u64) as usize
}

/// How many bytes of a statement of this number stand in front of what is refused in it.
fn offset_of(
    alloc: Global,
    fault: Fault,
    number: u64,
    statement: &[u8],
) -> Option<Result<u64, NoMemory>> {
    match fault {
        Fault::Grammar(GrammarFault::HeaderShape) => Some(header_place(alloc, statement, number)),
        Fault::SchemaName => Some(schema_place(alloc, statement)),
        Fault::SectionTwice => Some(section_place(alloc, statement)),
        _ => None,
    }
}

/// How many bytes of an instance stand in front of what its record is refused for.
fn offset_in_record(
    alloc: Global,
    fault: Fault,
    instance: &[u8],
    steps: &[usize],
) -> Option<Result<u64, NoMemory>> {
    match fault {
        Fault::Check(_) => match record_place(alloc, instance, steps) {
            Ok(found) => Some(Ok(found?)),
            Err(NoMemory) => Some(Err(NoMemory)),
        },
        _ => None,
    }
}
