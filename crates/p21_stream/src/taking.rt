//! Instances that stand whole at the beginning of a piece, taken straight from their bytes (ISO 10303-21, data sections).
ghost use Rattle.std.specs.Prelude.{◌≡◌, ◌<◌, IfErr, IfOk, IfSome};
ghost use Rattle.p21_shorter_instances.specs.Taker.{IsTakerOf};
ghost use Rattle.p21_stream.specs.Bounds.{StaysWithin};
ghost use Rattle.p21_stream.specs.Taking.{some_count};
ghost use Rattle.p21_stream.specs.Walk.{EndsNoToken, IsUnderWay, NeedsNoMemory, TakeGives, TakesWithinPiece};
ghost use Rattle.p21_stream_statements.specs.Source.{IsOfStatement};
ghost use Rattle.p21_stream_statements.specs.StatementReader.{limits_of};

use crate::walk::{Walk, refused};
use p21_schema::Schema;
use p21_shorter_instances::GivenUp;
use p21_shorter_tokens::behind_separators;
use p21_stream_kept::FoundInstance;
use p21_stream_statements::{Fault, Refusal};
use p21_values::{Limits, Name};

impl Walk {
    /// Takes the instances at the beginning of a piece straight from their bytes, one behind the other, and says how many these
    /// bytes are. Where none is taken so, as much is read and kept as before.
    ///
    /// # Errors
    ///
    /// The refusal of the first of their statements that is refused, or want of memory for it.
    pub(crate) fn take_instances(
        &mut self,
        schema: &Schema,
        limits: Limits,
        piece: &[u8],
    ) -> Result<Option<usize>, Refusal>
        requires way { IsUnderWay schema.now limits self.old.statements self.old.kept piece.now }
        requires taker { IsTakerOf schema.now self.old.taker }
        ensures takes { TakesWithinPiece piece.now result }
        ensures gives { TakeGives schema.now limits self.old.statements self.old.kept piece.now result self.new.statements self.new.kept }
        ensures no_memory { IfErr result (NeedsNoMemory schema.now limits self.old.statements self.old.kept piece.now) }
        ensures no_token { EndsNoToken schema.now limits self.old.statements self.old.kept piece.now result }
        ensures kind { IfErr result (λ refusal. IsOfStatement refusal.fault) }
        ensures stays { StaysWithin limits self.old.kept self.new.kept }
        ensures limits { limits_of self.new.statements ≡ limits_of self.old.statements }
        ensures taker { IsTakerOf schema.now self.new.taker }
    {
        if !self.statements.is_between_instances() {
            return Ok(None);
        }
        let mut count: usize = 0;
        loop {
            let taken = match self.take_instance(schema, limits, &piece[count..]) {
                Ok(taken) => taken,
                Err(refusal) => return Err(refusal),
            };
            let Some(more) = taken else {
                return Ok(some_bytes(count));
            };
            count += more;
        }
    }

    /// Takes the instance at the beginning of a piece straight from its bytes, and says how many these are. Where it isn't
    /// taken so, as much is read and kept as before.
    ///
    /// # Errors
    ///
    /// The refusal of its statement, or want of memory for it.
    #[inline(always)]
    fn take_instance(
        &mut self,
        schema: &Schema,
        limits: Limits,
        piece: &[u8],
    ) -> Result<Option<usize>, Refusal>
        requires way { IsUnderWay schema.now limits self.old.statements self.old.kept piece.now }
        requires taker { IsTakerOf schema.now self.old.taker }
        ensures takes { TakesWithinPiece piece.now result }
        ensures some { IfOk result (λ taken. IfSome taken (λ count. 0 < count)) }
        ensures gives { TakeGives schema.now limits self.old.statements self.old.kept piece.now result self.new.statements self.new.kept }
        ensures no_memory { IfErr result (NeedsNoMemory schema.now limits self.old.statements self.old.kept piece.now) }
        ensures no_token { EndsNoToken schema.now limits self.old.statements self.old.kept piece.now result }
        ensures kind { IfErr result (λ refusal. IsOfStatement refusal.fault) }
        ensures stays { StaysWithin limits self.old.kept self.new.kept }
        ensures limits { limits_of self.new.statements ≡ limits_of self.old.statements }
        ensures taker { IsTakerOf schema.now self.new.taker }
    {
        schema.well_formed();
        let found = match self.taker.take(schema, piece, &mut self.taken) {
            Ok(found) => found,
            Err(GivenUp::NotUsual) => return Ok(None),
            Err(GivenUp::NoMemory) => {
                return Err(refused(Fault::NoMemory, None, self.statement));
            }
        };
        let count = found.count;
        if !self.statements.pass_over(count) {
            return Ok(None);
        }
        let instance = FoundInstance {
            name: Name(found.number),
            entities: found.entities,
            line: found.line,
            needs: found.needs,
        };
        match self.kept.take_found(schema, limits, &instance) {
            Ok(()) => {
                self.statement = self.statement.saturating_add(1);
                Ok(Some(count))
            }
            Err(fault) => {
                self.statements
                    .note_statement(bytes_of_statement(piece, count));
                Err(refused(fault, Some(instance.name), self.statement))
            }
        }
    }
}

/// How many bytes were taken, where there are some.
#[inline(always)]
fn some_bytes(count: usize) -> Option<usize>
    ensures { result ≡ some_count count }
{
    if count == 0 { None } else { Some(count) }
}

/// How many of so many bytes stand behind separators.
fn bytes_of_statement(piece: &[u8], count: usize) -> u64 {
    let separators = piece.len().saturating_sub(behind_separators(piece).len());
    count.saturating_sub(separators) as u64
}
