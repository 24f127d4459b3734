//! What a canonical file has beside its instances.
use crate::headers::RecordChanges;
use crate::lines::Lines;
use crate::sections::SectionChanges;
use crate::taking::Taking;
use p21_stream_output::{Accepted, Cursor};
use p21_values::NoMemory;
use std::alloc::Global;

/// The bytes that are read at once.
const PIECE: usize = 65_536;

/// The canonical lines of the header records of a file, and those with which its data sections begin.
#[derive(Drop)]
pub struct Outline {
    header: Vec<u8>,
    sections: Vec<u8>,
}

impl Outline {
    /// The outline of an accepted file: a walk through its canonical text.
    ///
    /// # Errors
    ///
    /// Want of memory.
    pub fn new(alloc: Global, accepted: &Accepted) -> Result<Outline, NoMemory> {
        let mut taking = Taking::new(alloc);
        let mut cursor = Cursor::start();
        let mut piece = [0; PIECE];
        for _ in 0..u64::MAX {
            let count = accepted.read(&mut cursor, &mut piece);
            if count == 0 {
                break;
            }
            taking.take(&piece[..count.min(PIECE)])?;
        }
        let Taking {
            header,
            sections,
            ..
        } = taking;
        Ok(Outline { header, sections })
    }

    /// The header records.
    fn header(&self) -> Lines<'_> {
        Lines { rest: &self.header }
    }

    /// The lines with which data sections begin.
    fn sections(&self) -> Lines<'_> {
        Lines {
            rest: &self.sections,
        }
    }

    /// Whether it has one data section alone, and another outline has the same.
    pub fn has_one_section_as(&self, other: &Outline) -> bool {
        let mut lines = self.sections();
        let _first = lines.next();
        lines.rest.is_empty() && self.sections.as_slice() == other.sections.as_slice()
    }

    /// What changed in the header from this outline to another one.
    pub fn record_changes<'a>(&'a self, other: &'a Outline) -> RecordChanges<'a> {
        RecordChanges {
            first: self.header(),
            second: other.header(),
        }
    }

    /// What changed in the data sections that there are.
    pub fn section_changes<'a>(&'a self, other: &'a Outline) -> SectionChanges<'a> {
        SectionChanges {
            first: self.sections(),
            second: other.sections(),
        }
    }
}
