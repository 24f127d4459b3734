ghost use Rattle.std.specs.Prelude.{◌≡◌, ◌≤◌, IfErr, Some};
ghost use Rattle.p21_stream_statements.specs.Place.{place_behind};
ghost use Rattle.p21_stream_statements.specs.Source.{IsOfBytes};
ghost use Rattle.p21_stream.specs.Held.{limits_of, refusal_of, schema_of};
ghost use Rattle.p21_stream.specs.Histories.{FeedChecks, FeedGives, FeedNeedsNoMemory, FeedPlaces, FinishGives, HasPlaceOf, HoldsFor, KeepsSchema, RefusesAgain, RefusesAtEnd, Stands, nothing_taken};
ghost use Rattle.p21_stream.specs.Inside.{held_of};
ghost use Rattle.std.specs.Arc.{arc_value};

use crate::held::Held;
use crate::progress::Progress;
use p21_express_graph::Place as AttributePlace;
use p21_schema::Schema;
use p21_stream_kept::Kept;
use p21_stream_output::Accepted;
use p21_stream_sieve::Indices;
use p21_stream_statements::{Expected, Fault, Place, Places, Refusal};
use p21_values::Limits;
use std::alloc::Global;
use std::fmt;
use std::marker::Model;
use std::sync::Arc;

/// A session that owns its schema together with others and borrows nothing, for a caller that keeps it where no borrow
/// lives long enough.
pub struct SharedSession {
    schema: Arc<Schema, Global>,
    limits: Limits,
    progress: Progress,
}

// Written out: crates above call it, where they would prove a derived one field by field.
impl Drop for SharedSession {
    fn drop(self) {
        let SharedSession {
            schema: _,
            limits: _,
            progress: _,
        } = self;
    }
}

impl fmt::Debug for SharedSession {
    fn fmt<W: fmt::Write>(&self, f: &mut fmt::Formatter<W>) -> fmt::Result {
        let held = self.held();
        write!(f, "SharedSession {{ held: {held:?} }}")
    }
}

impl Model for SharedSession {
    ghost use Rattle.p21_stream.specs.Held.{SessionHeld, held_code};

    ghost Value = { SessionHeld };

    ghost coded = { held_code };

    ghost use Rattle.p21_spec_laws.specs.Stored.{with_lines};
    ghost use Rattle.p21_stream.specs.Bounds.{IsBounded, KeepsLines};
    ghost use Rattle.p21_stream.specs.Inside.{held_in};
    ghost use Rattle.p21_shorter_instances.specs.Taker.{IsTakerOf};
    ghost use Rattle.std.specs.Arc.{arc_value};

    ghost view = { λ a. held_in (arc_value a.schema) a.limits a.progress };

    ghost invariant = { λ a. IsBounded (held_in (arc_value a.schema) a.limits a.progress)
        × IsTakerOf (arc_value a.schema) a.progress.walk.taker
        × KeepsLines with_lines a.progress.refused a.progress.walk.kept };
}

impl SharedSession {
    /// A session that has taken nothing. It takes no memory.
    pub fn new(alloc: Global, schema: Arc<Schema, Global>, limits: Limits) -> SharedSession
        ensures stands { Stands result nothing_taken }
        ensures schema { schema_of result ≡ arc_value schema }
        ensures limits { limits_of result ≡ limits }
    {
        let kept = Kept::new(alloc);
        let progress = Progress::new(alloc, limits, kept);
        SharedSession {
            schema,
            limits,
            progress,
        }
    }

    /// Takes a piece. Where it is refused, the rest of it isn't read, and each later call answers the same.
    ///
    /// # Errors
    ///
    /// The first refusal, in the order of the bytes. What is kept is given up with it.
    pub fn feed(&mut self, piece: &[u8]) -> Result<(), Refusal>
        ensures gives { FeedGives self.old piece.now result self.new }
        ensures checks { FeedChecks self.old piece.now result }
        ensures no_memory { FeedNeedsNoMemory self.old piece.now result }
        ensures again { RefusesAgain self.old result self.new }
        ensures refused { IfErr result (λ refusal. refusal_of self.new ≡ Some refusal) }
        ensures kind { IfErr result (λ refusal. IsOfBytes refusal.fault) }
        ensures place { FeedPlaces self.old piece.now result self.new }
        ensures schema { KeepsSchema self.old self.new }
    {
        let limits = self.limits;
        self.progress.feed(&self.schema, limits, piece)
    }

    /// Where in the file the refusal stands that was answered, if one was and it has a place. It takes no memory.
    pub fn place(&self) -> Option<Place>
        ensures { HasPlaceOf self.now result }
    {
        self.progress.place()
    }

    /// The attribute whose value is refused, if a call was refused for one. It takes no memory.
    pub fn attribute(&self) -> Option<AttributePlace> {
        self.progress.attribute()
    }

    /// Which element of this value is refused, if one is. It takes no memory.
    pub fn indices(&self) -> Indices {
        self.progress.indices()
    }

    /// What could stand in place of the token that was refused, if a call was refused for one with which no statement goes on. It
    /// takes no memory.
    pub fn expected(&self) -> Expected {
        self.progress.expected()
    }

    /// Where the session stands in the file: by `Place::of` it says where a refusal of `finish` stands. It takes no memory.
    pub fn places(&self) -> Places
        ensures byte { result.byte ≡ place_behind self.now.statements }
    {
        self.progress.places()
    }

    /// What is held of the bytes taken. It takes no memory.
    pub fn held(&self) -> Held
        ensures held { HoldsFor self.now (held_of result) }
        ensures pending { result.pending ≤ (limits_of self.now).record_source }
        ensures depth { result.depth ≤ 64 }
        ensures kept { result.kept ≤ (limits_of self.now).file_canonical }
        ensures needs { result.needs ≤ (limits_of self.now).file_source }
    {
        self.progress.held()
    }

    /// The end of the file. It takes memory for the order of the instances, and gives up what only the check needs.
    ///
    /// # Errors
    ///
    /// The refusal of an earlier call; else `EndsEarly` or another fault of the end; then that of the first reference, in the
    /// order of the file, to no instance or to one that isn't of the type; `NoMemory`.
    pub fn finish(self) -> Result<Accepted, Refusal>
        ensures gives { FinishGives self result }
        ensures again { RefusesAtEnd self result }
        ensures kind { IfErr result (λ refusal. IsOfBytes refusal.fault) }
    {
        let SharedSession {
            schema,
            limits: _,
            progress,
        } = self;
        progress.finish(&schema)
    }

    /// A refusal at the open statement, for what is no fault of a byte. It takes no memory.
    pub fn refusal(&self, fault: Fault) -> Refusal
        ensures fault { result.fault ≡ fault }
    {
        self.progress.refusal(fault)
    }
}
