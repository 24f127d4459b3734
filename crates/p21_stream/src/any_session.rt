ghost use Rattle.std.specs.Prelude.{◌≡◌, ◌≤◌, ℕ, List, IfErr, IfOk, Some};
ghost use Rattle.p21_spec_basics.specs.Limits.{Limits as MeantLimits};
ghost use Rattle.p21_spec_laws.specs.Beside.{IsKeptOfWhole, earlier_of};
ghost use Rattle.p21_spec_laws.specs.Stored.{KeptLines, beside, with_lines};
ghost use Rattle.p21_spec_schema.specs.Schema.{Schema as MeantSchema};
ghost use Rattle.p21_stream_statements.specs.Place.{place_behind};
ghost use Rattle.p21_stream_statements.specs.Source.{IsOfBytes};
ghost use Rattle.p21_stream.specs.Bounds.{IsNothing, KeepsLines, StaysKept};
ghost use Rattle.p21_stream.specs.Held.{limits_of, refusal_of, schema_of};
ghost use Rattle.p21_stream.specs.Histories.{CountGives, FeedChecks, FeedGives, FeedNeedsNoMemory, FeedPlaces, FinishGives, HasPlaceOf, HoldsFor, KeepsSchema, RefusesAgain, RefusesAtEnd, Stands, WholeGives, nothing_taken};
ghost use Rattle.p21_stream.specs.Inside.{held_of};

use crate::counting::Counted;
use crate::held::Held;
use crate::progress::Progress;
use p21_express_graph::Place as AttributePlace;
use p21_schema::Schema;
use p21_stream_kept::Kept;
use p21_stream_output::Accepted;
use p21_stream_sieve::Indices;
use p21_stream_statements::{Expected, Fault, Place, Places, Refusal};
use p21_values::Limits;
use std::alloc::Global;
use std::marker::Model;

/// Reads a file that comes in pieces of any size, checks it against a schema, and keeps its canonical lines, counts them alone, or
/// holds them against those of an earlier file.
pub(crate) struct AnySession<'s> {
    schema: &'s Schema,
    limits: Limits,
    progress: Progress,
}

// Written out: crates above call it, where they would prove a derived one field by field.
impl Drop for AnySession<'_> {
    fn drop(self) {
        let AnySession {
            schema: _,
            limits: _,
            progress: _,
        } = self;
    }
}

impl<'s> Model for AnySession<'s> {
    ghost use Rattle.p21_stream.specs.Held.{SessionHeld, held_code};

    ghost Value = { SessionHeld };

    ghost coded = { held_code };

    ghost use Rattle.p21_stream.specs.Bounds.{IsBounded};
    ghost use Rattle.p21_stream.specs.Inside.{held_in};
    ghost use Rattle.p21_shorter_instances.specs.Taker.{IsTakerOf};

    ghost view = { λ a. held_in a.schema.now a.limits a.progress };

    ghost invariant = { λ a. IsBounded (held_in a.schema.now a.limits a.progress) × IsTakerOf a.schema.now a.progress.walk.taker };
}

impl<'s> AnySession<'s> {
    /// A session that has taken nothing, and will keep lines. It takes no memory.
    pub(crate) fn keeping(alloc: Global, schema: &'s Schema, limits: Limits) -> AnySession<'s>
        ensures stands { Stands result nothing_taken }
        ensures schema { schema_of result ≡ schema.now }
        ensures limits { limits_of result ≡ limits }
        ensures lines { KeepsLines with_lines result.refused result.kept }
    {
        AnySession::start(alloc, schema, limits, Kept::new(alloc))
    }

    /// A session that has taken nothing, and will count lines. It takes no memory.
    pub(crate) fn counting(alloc: Global, schema: &'s Schema, limits: Limits) -> AnySession<'s>
        ensures stands { Stands result nothing_taken }
        ensures schema { schema_of result ≡ schema.now }
        ensures limits { limits_of result ≡ limits }
    {
        AnySession::start(alloc, schema, limits, Kept::counting(alloc))
    }

    /// A session that has taken nothing, and will hold lines against those of an earlier file, by what is kept of it. It takes no
    /// memory.
    pub(crate) fn beside(
        alloc: Global,
        schema: &'s Schema,
        limits: Limits,
        earlier: Kept,
    ) -> AnySession<'s>
        requires whole { (s : MeantSchema) × (limits : MeantLimits) × (bytes : List ℕ) × IsKeptOfWhole s limits bytes earlier }
        requires lines { earlier.lines ≡ with_lines }
        ensures stands { Stands result nothing_taken }
        ensures schema { schema_of result ≡ schema.now }
        ensures limits { limits_of result ≡ limits }
        ensures lines { KeepsLines (beside (earlier_of earlier)) result.refused result.kept }
    {
        AnySession::start(alloc, schema, limits, Kept::beside(alloc, earlier))
    }

    /// A session that has taken nothing, with what will keep or count lines.
    fn start(alloc: Global, schema: &'s Schema, limits: Limits, kept: Kept) -> AnySession<'s>
        requires { IsNothing kept }
        ensures stands { Stands result nothing_taken }
        ensures schema { schema_of result ≡ schema.now }
        ensures limits { limits_of result ≡ limits }
        ensures kept { result.kept ≡ kept }
    {
        AnySession {
            schema,
            limits,
            progress: Progress::new(alloc, limits, kept),
        }
    }

    /// Takes a piece. Where it is refused, the rest of it isn't read, and each later call answers the same.
    ///
    /// # Errors
    ///
    /// The first refusal, in the order of the bytes. What is kept is given up with it.
    pub(crate) fn feed(&mut self, piece: &[u8]) -> Result<(), Refusal>
        ensures gives { FeedGives self.old piece.now result self.new }
        ensures checks { FeedChecks self.old piece.now result }
        ensures no_memory { FeedNeedsNoMemory self.old piece.now result }
        ensures again { RefusesAgain self.old result self.new }
        ensures refused { IfErr result (λ refusal. refusal_of self.new ≡ Some refusal) }
        ensures kind { IfErr result (λ refusal. IsOfBytes refusal.fault) }
        ensures place { FeedPlaces self.old piece.now result self.new }
        ensures schema { KeepsSchema self.old self.new }
        ensures lines { StaysKept self.old.refused self.old.kept self.new.refused self.new.kept }
    {
        let schema = self.schema;
        let limits = self.limits;
        self.progress.feed(schema, limits, piece)
    }

    /// Where in the file the refusal stands that was answered, if one was and it has a place. It takes no memory.
    pub(crate) fn place(&self) -> Option<Place>
        ensures { HasPlaceOf self.now result }
    {
        self.progress.place()
    }

    /// The attribute whose value is refused, if a call was refused for one. It takes no memory.
    pub(crate) fn attribute(&self) -> Option<AttributePlace> {
        self.progress.attribute()
    }

    /// Which element of this value is refused, if one is. It takes no memory.
    pub(crate) fn indices(&self) -> Indices {
        self.progress.indices()
    }

    /// What could stand in place of the token that was refused, if a call was refused for one with which no statement goes on. It
    /// takes no memory.
    pub(crate) fn expected(&self) -> Expected {
        self.progress.expected()
    }

    /// Where the session stands in the file: by `Place::of` it says where a refusal of `finish` stands. It takes no memory.
    pub(crate) fn places(&self) -> Places
        ensures byte { result.byte ≡ place_behind self.now.statements }
    {
        self.progress.places()
    }

    /// What is held of the bytes taken. It takes no memory.
    pub(crate) fn held(&self) -> Held
        ensures held { HoldsFor self.now (held_of result) }
        ensures pending { result.pending ≤ (limits_of self.now).record_source }
        ensures depth { result.depth ≤ 64 }
        ensures kept { result.kept ≤ (limits_of self.now).file_canonical }
        ensures needs { result.needs ≤ (limits_of self.now).file_source }
    {
        self.progress.held()
    }

    /// The end of the file, where lines are kept. It takes memory for the order of the instances, and gives up what only the
    /// check needs.
    ///
    /// # Errors
    ///
    /// The refusal of an earlier call; else `EndsEarly` or another fault of the end; then that of the first reference, in the
    /// order of the file, to no instance or to one that isn't of the type; `NoMemory`.
    pub(crate) fn finish(self) -> Result<Accepted, Refusal>
        requires { KeepsLines with_lines self.refused self.kept }
        ensures gives { FinishGives self.entry result }
        ensures again { RefusesAtEnd self.entry result }
        ensures kind { IfErr result (λ refusal. IsOfBytes refusal.fault) }
    {
        let AnySession {
            schema,
            limits: _,
            progress,
        } = self;
        progress.finish(schema)
    }

    /// What is counted at the end of the file, whether lines are kept or not.
    ///
    /// # Errors
    ///
    /// Those of `finish`.
    pub(crate) fn count(self) -> Result<Counted, Refusal>
        ensures gives { CountGives self.entry result }
        ensures kind { IfErr result (λ refusal. IsOfBytes refusal.fault) }
    {
        let AnySession {
            schema,
            limits: _,
            progress,
        } = self;
        progress.count(schema)
    }

    /// What is kept at the end of a whole file whose references are served.
    ///
    /// # Errors
    ///
    /// Those of `finish`.
    pub(crate) fn whole(self) -> Result<Kept, Refusal>
        ensures gives { WholeGives self.entry result }
        ensures lines { (lines : KeptLines) → KeepsLines lines self.entry.refused self.entry.kept
            → IfOk result (λ kept. kept.lines ≡ lines) }
        ensures kind { IfErr result (λ refusal. IsOfBytes refusal.fault) }
    {
        let AnySession {
            schema,
            limits: _,
            progress,
        } = self;
        progress.whole(schema)
    }

    /// A refusal at the open statement, for what is no fault of a byte. It takes no memory.
    pub(crate) fn refusal(&self, fault: Fault) -> Refusal
        ensures fault { result.fault ≡ fault }
    {
        self.progress.refusal(fault)
    }
}
