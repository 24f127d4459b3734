//! A file that is read by itself, piece by piece.
ghost use Rattle.std.specs.Prelude.{◌≡◌, ◌<◌, ◌^◌, IfErr};
ghost use Rattle.p21_stream_statements.specs.Source.{IsOfBytes};
ghost use Rattle.p21_stream_statements.specs.StatementReader.{IsLive, limits_of, nothing_read};
ghost use Rattle.p21_stream_syntax.specs.Given.{kept_of, nothing_kept};
ghost use Rattle.p21_stream_syntax.specs.Walk.{FinishGives, IsUnderWay, ReadGives, StepGives, TakesWithinPiece};
ghost use Rattle.p21_spec_basics.specs.Limits.{Limits as MeantLimits};

use crate::given::Given;
use crate::well_formed::WellFormed;
use p21_grammar::Event;
use p21_stream_statements::{At, Fault, Place, Places, Refusal, Source, StatementReader};
use p21_values::{Limits, Name};
use std::alloc::Global;

/// How far a file is read, and what is kept of it.
#[derive(Drop)]
pub(crate) struct Walk {
    pub(crate) statements: StatementReader,
    pub(crate) given: Given,
    // The number of the open statement, counted from 1.
    pub(crate) statement: u64,
    // The bytes of the open statement that stand in front of the next piece, or those of the refused one.
    source: Source,
}

impl Walk {
    /// A walk that has read nothing. It takes no memory.
    pub(crate) fn new(alloc: Global, limits: Limits) -> Walk
        ensures live { IsLive result.statements nothing_read }
        ensures limits { limits_of result.statements ≡ (limits.record_source, limits.file_source) }
        ensures counted { limits.file_source < 2 ^ 64 }
        ensures kept { kept_of result.given ≡ nothing_kept }
    {
        // Looked at, so that the proof knows that it is a number of 64 bits.
        let _most = limits.file_source();
        Walk {
            statements: StatementReader::new(alloc, limits),
            given: Given::new(alloc),
            statement: 1,
            source: Source::new(alloc),
        }
    }

    /// Reads a piece whole.
    ///
    /// # Errors
    ///
    /// The refusal of its first byte, token or statement that is wrong.
    pub(crate) fn read(&mut self, piece: &[u8]) -> Result<(), Refusal>
        requires way { (limits : MeantLimits) × IsUnderWay limits self.old.statements (kept_of self.old.given) piece.now }
        ensures gives { (limits : MeantLimits) → ReadGives limits self.old.statements (kept_of self.old.given) piece.now result
            self.new.statements (kept_of self.new.given) }
        ensures kind { IfErr result (λ refusal. IsOfBytes refusal.fault) }
    {
        let mut rest = piece;
        // Each round takes a token, and a file has no more tokens than bytes.
        let mut rounds: u64 = 0;
        loop {
            let taken = match self.step(rest) {
                Ok(taken) => taken,
                Err(refusal) => {
                    self.source.take(piece, self.statements.places());
                    return Err(refusal);
                }
            };
            let Some(count) = taken else {
                let is_open = self.statements.pending() > 0;
                self.source.pass(piece, self.statements.places(), is_open);
                return Ok(());
            };
            rest = &rest[count..];
            rounds += 1;
        }
    }

    /// Where a refusal stands that `read` answered last, if it has a place.
    pub(crate) fn place(&self, alloc: Global, fault: Fault, at: At) -> Option<Place> {
        match self.source.place_of(alloc, Refusal { fault, at }, &[]) {
            Some(inside) => Some(inside),
            None => Place::of(fault, self.statements.places()),
        }
    }

    /// Where it stands in the file: by `Place::of` it says where a refusal of `finish` stands. It takes no memory.
    pub(crate) fn places(&self) -> Places {
        self.statements.places()
    }

    /// Reads the bytes of one token, or the rest of a piece in which none is whole; says how many bytes where it was a
    /// token.
    ///
    /// # Errors
    ///
    /// The refusal of a byte, of the token, or of the statement that it ends.
    fn step(&mut self, piece: &[u8]) -> Result<Option<usize>, Refusal>
        ensures takes { TakesWithinPiece piece.now result }
        ensures gives { (limits : MeantLimits) → StepGives limits self.old.statements (kept_of self.old.given) piece.now result
            self.new.statements (kept_of self.new.given) }
        ensures kind { IfErr result (λ refusal. IsOfBytes refusal.fault) }
    {
        let answer = match self.statements.step(piece) {
            Ok(answer) => answer,
            Err(fault) => return Err(refused(fault, None, self.statement)),
        };
        let Some((count, event)) = answer else {
            return Ok(None);
        };
        let Some(event) = event else {
            return Ok(Some(count));
        };
        let name = name_of(&event);
        match self.given.take(event) {
            Ok(()) => {
                self.statement = self.statement.saturating_add(1);
                Ok(Some(count))
            }
            Err(fault) => Err(refused(fault, name, self.statement)),
        }
    }

    /// The end of the bytes.
    ///
    /// # Errors
    ///
    /// That of the reader of statements; then the first reference in the file to a name that no instance has.
    pub(crate) fn finish(self) -> Result<WellFormed, Refusal>
        ensures gives { FinishGives self.statements (kept_of self.given) result }
        ensures kind { IfErr result (λ refusal. IsOfBytes refusal.fault) }
    {
        let Walk {
            statements,
            given,
            statement,
            source: _,
        } = self;
        match statements.finish() {
            Ok(()) => {}
            Err(fault) => return Err(refused(fault, None, statement)),
        }
        match given.first_missing() {
            Some(holder) => Err(refused(Fault::Dangling, Some(holder), statement)),
            None => Ok(given.into_well_formed()),
        }
    }
}

/// The name of an instance.
fn name_of(event: &Event) -> Option<Name> {
    match event {
        Event::Instance(name, _) => Some(*name),
        _ => None,
    }
}

/// A refusal of the open statement, or of an instance.
pub(crate) fn refused(fault: Fault, name: Option<Name>, statement: u64) -> Refusal
    ensures { result.fault ≡ fault }
{
    let at = match name {
        Some(name) => At::of(fault, name, statement),
        None => At::Statement(statement),
    };
    Refusal { fault, at }
}
