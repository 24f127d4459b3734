ghost use Rattle.std.specs.Prelude.{◌≡◌, ◌≤◌, ◌<◌, ◌^◌, IfErr, IfOk, None, OnOk, Some, Err};
ghost use Rattle.p21_spec_basics.specs.Limits.{Limits as MeantLimits};
ghost use Rattle.p21_spec_laws.specs.Stored.{with_lines};
ghost use Rattle.p21_spec_schema.specs.Schema.{Schema as Meant};
ghost use Rattle.p21_stream_statements.specs.StatementReader.{IsLive, limits_of, nothing_read};
ghost use Rattle.p21_stream_statements.specs.Place.{IsPlaceOf, place_behind};
ghost use Rattle.p21_stream_statements.specs.Source.{IsOfBytes};
ghost use Rattle.p21_stream_statements.specs.declared.refusal.Refusal.{Refusal};
ghost use Rattle.p21_stream.specs.Bounds.{IsBounded, KeepsLines, StaysKept};
ghost use Rattle.p21_stream.specs.Histories.{CountGives, FeedChecks, FeedGives, FeedNeedsNoMemory, FeedPlaces, FinishGives, HasPlaceOf, HoldsFor, RefusesAgain, RefusesAtEnd, WholeGives};
ghost use Rattle.p21_stream.specs.Inside.{held_in, held_of};
ghost use Rattle.p21_stream.specs.Ending.{CountsEnd, EndGives, EndsServed, EndsWhole, IsBetweenPieces};
ghost use Rattle.p21_shorter_instances.specs.Taker.{IsTakerOf};

use crate::counting::Counted;
use crate::held::Held;
use crate::walk::{Walk, refused};
use p21_express_graph::Place as AttributePlace;
use p21_schema::Schema;
use p21_stream_kept::Kept;
use p21_stream_output::Accepted;
use p21_stream_sieve::{Indices, attribute_of, elements_of, inside, place_of};
use p21_stream_statements::{Expected, Fault, Place, Places, Refusal, StatementReader};
use p21_values::{Limits, Name};
use std::alloc::Global;

/// How far a file is read, and the refusal that ended the reading.
#[derive(Drop)]
pub(crate) struct Progress {
    alloc: Global,
    pub walk: Walk,
    // The refusal that was answered, and is answered again.
    pub refused: Option<Refusal>,
    // Where it stands in its statement, where that is known.
    noted: Option<Place>,
}

impl Progress {
    /// The progress of a file of which nothing is read, with what keeps its statements. It takes no memory.
    pub(crate) fn new(alloc: Global, limits: Limits, kept: Kept) -> Progress
        ensures live { IsLive result.walk.statements nothing_read }
        ensures limits { limits_of result.walk.statements ≡ (limits.record_source, limits.file_source) }
        ensures kept { result.walk.kept ≡ kept }
        ensures refused { result.refused ≡ None }
        ensures counted { limits.file_source < 2 ^ 64 }
        ensures taker { (s : Meant) → IsTakerOf s result.walk.taker }
    {
        Progress {
            alloc,
            walk: Walk::new(alloc, limits, kept),
            refused: None,
            noted: None,
        }
    }

    /// Takes a piece. Where it is refused, what is kept is given up, and each later call answers the same.
    ///
    /// # Errors
    ///
    /// The first refusal, in the order of the bytes.
    pub(crate) fn feed(
        &mut self,
        schema: &Schema,
        limits: Limits,
        piece: &[u8],
    ) -> Result<(), Refusal>
        requires bounded { IsBounded (held_in schema.now limits self.old) }
        requires taker { IsTakerOf schema.now self.old.walk.taker }
        ensures gives { FeedGives (held_in schema.now limits self.old) piece.now result (held_in schema.now limits self.new) }
        ensures checks { FeedChecks (held_in schema.now limits self.old) piece.now result }
        ensures no_memory { FeedNeedsNoMemory (held_in schema.now limits self.old) piece.now result }
        ensures again { RefusesAgain (held_in schema.now limits self.old) result (held_in schema.now limits self.new) }
        ensures refused { IfErr result (λ refusal. self.new.refused ≡ Some refusal) }
        ensures kind { IfErr result (λ refusal. IsOfBytes refusal.fault) }
        ensures place { FeedPlaces (held_in schema.now limits self.old) piece.now result (held_in schema.now limits self.new) }
        ensures bounded { IsBounded (held_in schema.now limits self.new) }
        ensures lines { StaysKept self.old.refused self.old.walk.kept self.new.refused self.new.walk.kept }
        ensures taker { IsTakerOf schema.now self.new.walk.taker }
    {
        if let Some(refusal) = self.refused {
            return Err(refusal);
        }
        match self.walk.read(schema, limits, piece) {
            Ok(()) => Ok(()),
            Err(refusal) => {
                self.noted = inside(
                    self.alloc,
                    &self.walk.source,
                    refusal.fault,
                    refusal.at,
                    self.walk.workspace.trail.steps(),
                );
                self.walk.kept = Kept::new(self.alloc);
                self.refused = Some(refusal);
                self.answered()
            }
        }
    }

    /// Where in the file the refusal stands that was answered, if one was and it has a place. It takes no memory.
    pub(crate) fn place(&self) -> Option<Place>
        ensures { (s : Meant) (limits : MeantLimits) → HasPlaceOf (held_in s limits self.now) result }
    {
        match self.refused {
            Some(refusal) => place_of(refusal.fault, self.walk.statements.places(), self.noted),
            None => None,
        }
    }

    /// The attribute whose value is refused, if a call was refused for one. It takes no memory.
    pub(crate) fn attribute(&self) -> Option<AttributePlace> {
        match self.refused {
            Some(refusal) => attribute_of(refusal.fault, &self.walk.workspace.trail),
            None => None,
        }
    }

    /// Which element of this value is refused, if one is. It takes no memory.
    pub(crate) fn indices(&self) -> Indices {
        match self.refused {
            Some(refusal) => Indices::of(elements_of(refusal.fault, &self.walk.workspace.trail)),
            None => Indices::none(),
        }
    }

    /// What could stand in place of the token that was refused, if a call was refused for one with which no statement goes on. It
    /// takes no memory.
    pub(crate) fn expected(&self) -> Expected {
        match self.refused {
            Some(refusal) => Expected::of(refusal.fault, &self.walk.statements),
            None => Expected::none(),
        }
    }

    /// Where it stands in the file. It takes no memory.
    pub(crate) fn places(&self) -> Places
        ensures byte { result.byte ≡ place_behind self.now.walk.statements }
    {
        self.walk.statements.places()
    }

    /// What is held of the bytes taken. It takes no memory.
    pub(crate) fn held(&self) -> Held
        ensures held { (s : Meant) (limits : MeantLimits) → HoldsFor (held_in s limits self.now) (held_of result) }
        ensures pending { result.pending ≤ (limits_of self.now.walk.statements).0 }
        ensures depth { result.depth ≤ 64 }
        ensures kept { result.kept ≡ self.now.walk.kept.bytes }
        ensures needs { result.needs ≡ self.now.walk.kept.references }
    {
        Held {
            pending: self.walk.statements.pending(),
            depth: self.walk.statements.depth(),
            kept: self.walk.kept.size(),
            needs: self.walk.kept.references(),
        }
    }

    /// A refusal at the open statement, for what is no fault of a byte. It takes no memory.
    pub(crate) fn refusal(&self, fault: Fault) -> Refusal
        ensures { result.fault ≡ fault }
    {
        refused(fault, None, self.walk.statement)
    }

    /// The end of the bytes, where lines are kept.
    ///
    /// # Errors
    ///
    /// The refusal of an earlier call; else those of `end`.
    pub(crate) fn finish(self, schema: &Schema) -> Result<Accepted, Refusal>
        requires bounded { (limits : MeantLimits) × IsBounded (held_in schema.now limits self) }
        requires lines { KeepsLines with_lines self.refused self.walk.kept }
        ensures gives { (limits : MeantLimits) → FinishGives (held_in schema.now limits self) result }
        ensures again { (limits : MeantLimits) → RefusesAtEnd (held_in schema.now limits self) result }
        ensures kind { (limits : MeantLimits) → IsBounded (held_in schema.now limits self)
            → IfErr result (λ refusal. IsOfBytes refusal.fault) }
    {
        let Progress { walk, refused, .. } = self;
        if let Some(refusal) = refused {
            return Err(refusal);
        }
        let Walk {
            statements,
            kept,
            statement,
            ..
        } = walk;
        end(statements, kept, statement, schema)
    }

    /// What is counted at the end of the bytes, whether lines are kept or not. It takes no memory for them.
    ///
    /// # Errors
    ///
    /// The refusal of an earlier call; else those of `check_end`.
    pub(crate) fn count(self, schema: &Schema) -> Result<Counted, Refusal>
        requires { (limits : MeantLimits) × IsBounded (held_in schema.now limits self) }
        ensures gives { (limits : MeantLimits) → CountGives (held_in schema.now limits self) result }
        ensures kind { (limits : MeantLimits) → IsBounded (held_in schema.now limits self)
            → IfErr result (λ refusal. IsOfBytes refusal.fault) }
    {
        let Progress { walk, refused, .. } = self;
        if let Some(refusal) = refused {
            return Err(refusal);
        }
        let Walk {
            statements,
            kept,
            statement,
            ..
        } = walk;
        count_end(statements, kept, statement, schema)
    }

    /// What is kept at the end of the bytes, of a whole file whose references are served.
    ///
    /// # Errors
    ///
    /// The refusal of an earlier call; else those of `check_end`.
    pub(crate) fn whole(self, schema: &Schema) -> Result<Kept, Refusal>
        requires { (limits : MeantLimits) × IsBounded (held_in schema.now limits self) }
        ensures gives { (limits : MeantLimits) → WholeGives (held_in schema.now limits self) result }
        ensures lines { IfOk result (λ kept. (self.refused ≡ None) × (kept.lines ≡ self.walk.kept.lines)) }
        ensures kind { (limits : MeantLimits) → IsBounded (held_in schema.now limits self)
            → IfErr result (λ refusal. IsOfBytes refusal.fault) }
    {
        let Progress { walk, refused, .. } = self;
        if let Some(refusal) = refused {
            return Err(refusal);
        }
        let Walk {
            statements,
            kept,
            statement,
            ..
        } = walk;
        whole_end(statements, kept, statement, schema)
    }

    /// The refusal that was answered, if there is one.
    fn answered(&self) -> Result<(), Refusal>
        ensures { (refusal : Refusal) → self.now.refused ≡ Some refusal → result ≡ Err refusal }
    {
        match self.refused {
            Some(refusal) => Err(refusal),
            None => Ok(()),
        }
    }
}

/// The end of the bytes, where no call was refused, and lines are kept.
///
/// # Errors
///
/// Those of `check_end`; `NoMemory`.
fn end(
    statements: StatementReader,
    mut kept: Kept,
    statement: u64,
    schema: &Schema,
) -> Result<Accepted, Refusal>
    requires between { IsBetweenPieces schema.now statements kept }
    requires lines { kept.lines ≡ with_lines }
    ensures gives { EndGives schema.now statements kept result }
    ensures kind { IfErr result (λ refusal. IsOfBytes refusal.fault) }
{
    schema.well_formed();
    match check_end(statements, &mut kept, statement, schema) {
        Ok(()) => {}
        Err(refusal) => return Err(refusal),
    }
    let Ok(accepted) = kept.into_accepted(statement) else {
        return Err(refused(Fault::NoMemory, None, statement));
    };
    Ok(accepted)
}

/// What is counted at the end of the bytes, where no call was refused.
///
/// # Errors
///
/// Those of `check_end`.
fn count_end(
    statements: StatementReader,
    mut kept: Kept,
    statement: u64,
    schema: &Schema,
) -> Result<Counted, Refusal>
    requires { IsBetweenPieces schema.now statements kept }
    ensures gives { CountsEnd schema.now statements kept result }
    ensures kind { IfErr result (λ refusal. IsOfBytes refusal.fault) }
{
    schema.well_formed();
    match check_end(statements, &mut kept, statement, schema) {
        Ok(()) => {}
        Err(refusal) => return Err(refusal),
    }
    Ok(Counted {
        instances: kept.count(),
        bytes: kept.len(),
    })
}

/// What is kept at the end of the bytes, where no call was refused.
///
/// # Errors
///
/// Those of `check_end`.
fn whole_end(
    statements: StatementReader,
    mut kept: Kept,
    statement: u64,
    schema: &Schema,
) -> Result<Kept, Refusal>
    requires { IsBetweenPieces schema.now statements kept }
    ensures gives { EndsWhole schema.now statements kept result }
    ensures lines { IfOk result (λ whole. whole.lines ≡ kept.lines) }
    ensures kind { IfErr result (λ refusal. IsOfBytes refusal.fault) }
{
    match check_end(statements, &mut kept, statement, schema) {
        Ok(()) => Ok(kept),
        Err(refusal) => Err(refusal),
    }
}

/// Whether the bytes end with a whole file whose references are served, where no call was refused.
///
/// # Errors
///
/// That of the reader; then the first reference in the file that no instance serves; `NoMemory`.
fn check_end(
    statements: StatementReader,
    kept: &mut Kept,
    statement: u64,
    schema: &Schema,
) -> Result<(), Refusal>
    requires { IsBetweenPieces schema.now statements kept.old }
    ensures ok { OnOk result (EndsServed schema.now statements kept.old) }
    ensures err { IfErr result (λ refusal. EndGives schema.now statements kept.old (Err refusal)) }
    ensures kept { kept.new ≡ kept.old }
    ensures kind { IfErr result (λ refusal. IsOfBytes refusal.fault) }
{
    schema.well_formed();
    match statements.finish() {
        Ok(()) => {}
        Err(fault) => return Err(refused(fault, None, statement)),
    }
    let Ok(()) = kept.prepare_unserved(schema) else {
        return Err(refused(Fault::NoMemory, None, statement));
    };
    if let Some(found) = kept.first_unserved(schema) {
        return Err(unserved(found, statement));
    }
    Ok(())
}

/// The refusal of a reference, by the instance that has it.
fn unserved(found: (Name, Fault), statement: u64) -> Refusal
    ensures { result.fault ≡ found.1 }
{
    let (holder, fault) = found;
    refused(fault, Some(holder), statement)
}
