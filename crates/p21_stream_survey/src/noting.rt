//! Where a refusal stands: what tells it is looked up before the log goes on behind the statement, leaves it out or passes over it, since
//! it is gone then. No clause speaks of places.

use p21_grammar::GrammarFault;
use p21_mapping::Trail;
use p21_stream_log::Log;
use p21_stream_sieve::{RefusedStatement, Spots};
use p21_stream_statements::{Expected, Fault, Places, Refusal};

/// What tells where a refusal of a statement stands: the bytes from the separators in front of it on, and how many bytes of the file stand
/// in front of them; where the reader stands, and what it could have taken in place of a token that it refused; and in a record that is
/// refused, the way to what is refused there.
#[derive(Clone, Copy)]
pub(crate) struct Noted<'a> {
    bytes: &'a [u8],
    start: u64,
    places: Places,
    expected: Expected,
    trail: Option<&'a Trail>,
}

impl<'a> Noted<'a> {
    /// What tells where a refusal of the statement stands that is behind the last one of a log. It takes no memory.
    pub(crate) fn of(log: &Log, fault: Fault, bytes: &'a [u8]) -> Noted<'a> {
        Noted {
            bytes,
            start: log.start(),
            places: log.places(),
            expected: log.expected(fault),
            trail: None,
        }
    }

    /// The same where the refusal may be one of a record: then the trail, if there is one, leads to what is refused there. It takes no
    /// memory.
    pub(crate) fn with_trail(self, trail: Option<&'a Trail>) -> Noted<'a> {
        Noted { trail, ..self }
    }

    /// The byte of the file behind so many of the statement, with the separators in front of it. It takes no memory.
    pub(crate) fn behind(self, count: usize) -> u64 {
        self.start.saturating_add(count as u64)
    }

    /// The bytes of the statement that its reader has taken, where so many bytes of the file stand in front of it. It takes no memory.
    fn statement(self, begins: u64) -> &'a [u8] {
        let separators = begins.saturating_sub(self.start) as usize;
        let count = self.places.byte.saturating_sub(self.start) as usize;
        let taken = self.bytes.get(..count).unwrap_or(self.bytes);
        taken.get(separators..).unwrap_or(&[])
    }

    /// What its reader could have taken in place of what is refused. It takes no memory.
    fn awaited(self, fault: Fault) -> Expected {
        match fault {
            Fault::Grammar(GrammarFault::Unexpected) => self.expected,
            _ => Expected::none(),
        }
    }
}

/// Notes where the refusal stands that is listed next, whose statement begins behind so many bytes of the file.
pub(crate) fn note(spots: &mut Spots, refusal: Refusal, begins: u64, noted: Noted<'_>) {
    if !spots.is_asked() {
        return;
    }
    let statement = RefusedStatement {
        bytes: noted.statement(begins),
        begins,
        places: noted.places,
        expected: noted.awaited(refusal.fault),
    };
    match noted.trail {
        Some(trail) => spots.note_refused(refusal, statement, trail),
        None => spots.note_refused(refusal, statement, &Trail::new()),
    }
}
