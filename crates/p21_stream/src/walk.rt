//! A file that is read piece by piece.
//!
//! `Walk::read` is proved by what the rest of a piece gives: what the rest gives, the piece gives (`IsRest` in
//! `proofs/Walking`). Its loop over `advance` counts its rounds, since a token that waited is given without a further
//! byte: each round gives a token or more, and a file has no more tokens than bytes, which 64 bits count. `advance`
//! first has `take_instances` (`src/taking`) take whole instances straight from their bytes, each by `take_instance`. They give as
//! much as their tokens would (`AreTaken` in `proofs/TakenInstances`), and where there is none nothing changes
//! (`TakeGives` in `specs/Walk`); then `step` takes one token. What is found of such an instance (`IsInstance` of
//! p21_shorter_instances) is what `Kept::take_found` asks for.
ghost use Rattle.std.specs.Prelude.{◌≡◌, ◌<◌, ◌^◌, IfErr};
ghost use Rattle.p21_grammar.specs.Statements.{statement_of};
ghost use Rattle.p21_shorter_instances.specs.Taker.{IsTakerOf};
ghost use Rattle.p21_spec_schema.specs.Schema.{Schema as Meant};
ghost use Rattle.p21_stream.specs.Bounds.{StaysWithin};
ghost use Rattle.p21_stream.specs.Walk.{EndsNoToken, IsUnderWay, NeedsNoMemory, PlacesByte, ReadGives, StepGives, TakesWithinPiece};
ghost use Rattle.p21_stream_kept.specs.Steps as steps;
ghost use Rattle.p21_stream_kept.specs.Steps.{StepKeepsBound};
ghost use Rattle.p21_stream_kept.specs.Taking.{Follows};
ghost use Rattle.p21_stream_statements.specs.Source.{IsOfBytes, IsOfStatement};
ghost use Rattle.p21_stream_statements.specs.StatementReader.{IsLive, limits_of, nothing_read};

use p21_grammar::Event;
use p21_schema::Schema;
use p21_shorter_instances::{Taken, Taker};
use p21_stream_kept::{Kept, Workspace};
use p21_stream_statements::{At, Fault, Refusal, Source, StatementReader};
use p21_values::{Limits, Name};
use std::alloc::Global;

/// How far a file is read, and what is kept of it.
#[derive(Drop)]
pub(crate) struct Walk {
    // The statement reader, and what is kept of the statements that it gave.
    pub statements: StatementReader,
    pub kept: Kept,
    // What takes instances straight from their bytes, and the room for the line and the references of one.
    pub taker: Taker,
    pub taken: Taken,
    // Where instances are checked that are taken by their tokens.
    pub workspace: Workspace,
    // The number of the open statement, counted from 1.
    pub statement: u64,
    // The bytes of the open statement that stand in front of the next piece, or those of the refused one.
    pub source: Source,
}

impl Walk {
    /// A walk that has read nothing, with what keeps the statements. It takes no memory.
    pub(crate) fn new(alloc: Global, limits: Limits, kept: Kept) -> Walk
        ensures live { IsLive result.statements nothing_read }
        ensures limits { limits_of result.statements ≡ (limits.record_source, limits.file_source) }
        ensures counted { limits.file_source < 2 ^ 64 }
        ensures kept { result.kept ≡ kept }
        ensures taker { (s : Meant) → IsTakerOf s result.taker }
    {
        // Looked at, so that the proof knows that it is a number of 64 bits.
        let _most = limits.file_source();
        Walk {
            statements: StatementReader::new(alloc, limits),
            kept,
            taker: Taker::new(alloc),
            taken: Taken::new(alloc),
            workspace: Workspace::new(alloc),
            statement: 1,
            source: Source::new(alloc),
        }
    }

    /// Reads a piece whole.
    ///
    /// # Errors
    ///
    /// The refusal of its first byte, token or statement that is refused.
    pub(crate) fn read(
        &mut self,
        schema: &Schema,
        limits: Limits,
        piece: &[u8],
    ) -> Result<(), Refusal>
        requires way { IsUnderWay schema.now limits self.old.statements self.old.kept piece.now }
        requires taker { IsTakerOf schema.now self.old.taker }
        ensures gives { ReadGives schema.now limits self.old.statements self.old.kept piece.now result self.new.statements self.new.kept }
        ensures no_memory { IfErr result (NeedsNoMemory schema.now limits self.old.statements self.old.kept piece.now) }
        ensures kind { IfErr result (λ refusal. IsOfBytes refusal.fault) }
        ensures place { IfErr result (PlacesByte schema.now limits self.old.statements self.old.kept piece.now self.new.statements) }
        ensures stays { StaysWithin limits self.old.kept self.new.kept }
        ensures limits { limits_of self.new.statements ≡ limits_of self.old.statements }
        ensures taker { IsTakerOf schema.now self.new.taker }
    {
        let mut rest = piece;
        // Each round takes a token or more, and a file has no more tokens than bytes.
        let mut rounds: u64 = 0;
        loop {
            let taken = match self.advance(schema, limits, rest) {
                Ok(taken) => taken,
                Err(refusal) => {
                    self.source.take(piece, self.statements.places());
                    return Err(refusal);
                }
            };
            let Some(count) = taken else {
                let is_open = self.statements.pending() > 0;
                self.source.pass(piece, self.statements.places(), is_open);
                return Ok(());
            };
            rest = &rest[count..];
            rounds += 1;
        }
    }

    /// Reads the bytes of whole instances or of one token, or the rest of a piece in which none is whole; says how many bytes
    /// where it was instances or a token.
    ///
    /// # Errors
    ///
    /// The refusal of a byte, of the token, or of the statement that ends.
    fn advance(
        &mut self,
        schema: &Schema,
        limits: Limits,
        piece: &[u8],
    ) -> Result<Option<usize>, Refusal>
        requires way { IsUnderWay schema.now limits self.old.statements self.old.kept piece.now }
        requires taker { IsTakerOf schema.now self.old.taker }
        ensures takes { TakesWithinPiece piece.now result }
        ensures gives { StepGives schema.now limits self.old.statements self.old.kept piece.now result self.new.statements self.new.kept }
        ensures no_memory { IfErr result (NeedsNoMemory schema.now limits self.old.statements self.old.kept piece.now) }
        ensures no_token { EndsNoToken schema.now limits self.old.statements self.old.kept piece.now result }
        ensures kind { IfErr result (λ refusal. IsOfBytes refusal.fault) }
        ensures place { IfErr result (PlacesByte schema.now limits self.old.statements self.old.kept piece.now self.new.statements) }
        ensures stays { StaysWithin limits self.old.kept self.new.kept }
        ensures limits { limits_of self.new.statements ≡ limits_of self.old.statements }
        ensures taker { IsTakerOf schema.now self.new.taker }
    {
        let taken = match self.take_instances(schema, limits, piece) {
            Ok(taken) => taken,
            Err(refusal) => return Err(refusal),
        };
        if let Some(count) = taken {
            return Ok(Some(count));
        }
        self.step(schema, limits, piece)
    }

    /// Reads the bytes of one token, or the rest of a piece in which none is whole; says how many bytes where it was a
    /// token.
    ///
    /// # Errors
    ///
    /// The refusal of a byte, of the token, or of the statement that it ends.
    fn step(
        &mut self,
        schema: &Schema,
        limits: Limits,
        piece: &[u8],
    ) -> Result<Option<usize>, Refusal>
        requires way { IsUnderWay schema.now limits self.old.statements self.old.kept piece.now }
        ensures takes { TakesWithinPiece piece.now result }
        ensures gives { StepGives schema.now limits self.old.statements self.old.kept piece.now result self.new.statements self.new.kept }
        ensures no_memory { IfErr result (NeedsNoMemory schema.now limits self.old.statements self.old.kept piece.now) }
        ensures no_token { EndsNoToken schema.now limits self.old.statements self.old.kept piece.now result }
        ensures kind { IfErr result (λ refusal. IsOfBytes refusal.fault) }
        ensures place { IfErr result (PlacesByte schema.now limits self.old.statements self.old.kept piece.now self.new.statements) }
        ensures stays { StaysWithin limits self.old.kept self.new.kept }
        ensures limits { limits_of self.new.statements ≡ limits_of self.old.statements }
        ensures taker { self.new.taker ≡ self.old.taker }
    {
        let answer = match self.statements.step(piece) {
            Ok(answer) => answer,
            Err(fault) => return Err(refused(fault, None, self.statement)),
        };
        let Some((count, event)) = answer else {
            return Ok(None);
        };
        let Some(event) = event else {
            return Ok(Some(count));
        };
        schema.well_formed();
        let name = name_of(&event);
        match take_statement(&mut self.kept, schema, limits, event, &mut self.workspace) {
            Ok(()) => {
                self.statement = self.statement.saturating_add(1);
                Ok(Some(count))
            }
            Err(fault) => Err(refused(fault, name, self.statement)),
        }
    }
}

/// Takes a statement. The record of an instance is checked in a workspace, which keeps no long line.
fn take_statement(
    kept: &mut Kept,
    schema: &Schema,
    limits: Limits,
    event: Event,
    workspace: &mut Workspace,
) -> Result<(), Fault>
    requires { Follows schema.now limits kept.old (statement_of event) }
    ensures gives { steps.StepGives schema.now limits kept.old (statement_of event) result kept.new }
    ensures kind { IfErr result (λ fault. IsOfStatement fault) }
    ensures bound { StepKeepsBound limits kept.old kept.new }
    ensures lines { kept.new.lines ≡ kept.old.lines }
{
    match event {
        Event::Section(line) => kept.take_line(limits, line),
        Event::Named(part) => kept.take_heading(schema, limits, part),
        Event::Header(part) => kept.take_header(schema, limits, &part),
        Event::Instance(name, record) => {
            kept.take_instance(schema, limits, name, record, workspace)
        }
    }
}

/// The name of an instance.
fn name_of(event: &Event) -> Option<Name> {
    match event {
        Event::Instance(name, _) => Some(*name),
        _ => None,
    }
}

/// A refusal of the open statement, or of an instance.
pub(crate) fn refused(fault: Fault, name: Option<Name>, statement: u64) -> Refusal
    ensures { result.fault ≡ fault }
{
    let at = match name {
        Some(name) => At::of(fault, name, statement),
        None => At::Statement(statement),
    };
    Refusal { fault, at }
}
