ghost use Rattle.std.specs.Prelude.{◌≡◌, ◌≤◌, IfErr, Some};
ghost use Rattle.p21_stream_statements.specs.Place.{place_behind};
ghost use Rattle.p21_stream_statements.specs.Source.{IsOfBytes};
ghost use Rattle.p21_stream.specs.Held.{limits_of, refusal_of, schema_of};
ghost use Rattle.p21_stream.specs.Histories.{FeedChecks, FeedGives, FeedNeedsNoMemory, FeedPlaces, FinishGives, HasPlaceOf, HoldsFor, KeepsSchema, RefusesAgain, RefusesAtEnd, Stands, nothing_taken};
ghost use Rattle.p21_stream.specs.Inside.{held_of};

use crate::any_session::AnySession;
use crate::held::Held;
use p21_express_graph::Place as AttributePlace;
use p21_schema::Schema;
use p21_stream_output::Accepted;
use p21_stream_sieve::Indices;
use p21_stream_statements::{Expected, Fault, Place, Places, Refusal};
use p21_values::Limits;
use std::alloc::Global;
use std::fmt;
use std::marker::Model;

/// Reads a file that comes in pieces of any size, checks it against a schema, and keeps its canonical lines.
pub struct Session<'s> {
    session: AnySession<'s>,
}

// Written out: crates above call it, where they would prove a derived one field by field.
impl Drop for Session<'_> {
    fn drop(self) {
        let Session { session: _ } = self;
    }
}

impl fmt::Debug for Session<'_> {
    fn fmt<W: fmt::Write>(&self, f: &mut fmt::Formatter<W>) -> fmt::Result {
        let held = self.held();
        write!(f, "Session {{ held: {held:?} }}")
    }
}

impl<'s> Model for Session<'s> {
    ghost use Rattle.p21_stream.specs.Held.{SessionHeld, held_code};

    ghost Value = { SessionHeld };

    ghost coded = { held_code };

    ghost use Rattle.p21_spec_laws.specs.Stored.{with_lines};
    ghost use Rattle.p21_stream.specs.Bounds.{KeepsLines};

    ghost view = { λ a. a.session };

    ghost invariant = { λ a. KeepsLines with_lines a.session.refused a.session.kept };
}

impl<'s> Session<'s> {
    /// A session that has taken nothing. It takes no memory.
    pub fn new(alloc: Global, schema: &'s Schema, limits: Limits) -> Session<'s>
        ensures stands { Stands result nothing_taken }
        ensures schema { schema_of result ≡ schema.now }
        ensures limits { limits_of result ≡ limits }
    {
        Session {
            session: AnySession::keeping(alloc, schema, limits),
        }
    }

    /// Takes a piece. Where it is refused, the rest of it isn't read, and each later call answers the same.
    ///
    /// # Errors
    ///
    /// The first refusal, in the order of the bytes. What is kept is given up with it.
    pub fn feed(&mut self, piece: &[u8]) -> Result<(), Refusal>
        ensures gives { FeedGives self.old piece.now result self.new }
        ensures checks { FeedChecks self.old piece.now result }
        ensures no_memory { FeedNeedsNoMemory self.old piece.now result }
        ensures again { RefusesAgain self.old result self.new }
        ensures refused { IfErr result (λ refusal. refusal_of self.new ≡ Some refusal) }
        ensures kind { IfErr result (λ refusal. IsOfBytes refusal.fault) }
        ensures place { FeedPlaces self.old piece.now result self.new }
        ensures schema { KeepsSchema self.old self.new }
    {
        self.session.feed(piece)
    }

    /// Where in the file the refusal stands that was answered, if one was and it has a place. It takes no memory.
    pub fn place(&self) -> Option<Place>
        ensures { HasPlaceOf self.now result }
    {
        self.session.place()
    }

    /// The attribute whose value is refused, if a call was refused for one. It takes no memory.
    pub fn attribute(&self) -> Option<AttributePlace> {
        self.session.attribute()
    }

    /// Which element of this value is refused, if one is. It takes no memory.
    pub fn indices(&self) -> Indices {
        self.session.indices()
    }

    /// What could stand in place of the token that was refused, if a call was refused for one with which no statement goes on. It
    /// takes no memory.
    pub fn expected(&self) -> Expected {
        self.session.expected()
    }

    /// Where the session stands in the file: by `Place::of` it says where a refusal of `finish` stands. It takes no memory.
    pub fn places(&self) -> Places
        ensures byte { result.byte ≡ place_behind self.now.statements }
    {
        self.session.places()
    }

    /// What is held of the bytes taken. It takes no memory.
    pub fn held(&self) -> Held
        ensures held { HoldsFor self.now (held_of result) }
        ensures pending { result.pending ≤ (limits_of self.now).record_source }
        ensures depth { result.depth ≤ 64 }
        ensures kept { result.kept ≤ (limits_of self.now).file_canonical }
        ensures needs { result.needs ≤ (limits_of self.now).file_source }
    {
        self.session.held()
    }

    /// The end of the file. It takes memory for the order of the instances, and gives up what only the check needs.
    ///
    /// # Errors
    ///
    /// The refusal of an earlier call; else `EndsEarly` or another fault of the end; then that of the first reference, in the
    /// order of the file, to no instance or to one that isn't of the type; `NoMemory`.
    pub fn finish(self) -> Result<Accepted, Refusal>
        ensures gives { FinishGives self.entry result }
        ensures again { RefusesAtEnd self.entry result }
        ensures kind { IfErr result (λ refusal. IsOfBytes refusal.fault) }
    {
        let Session { session } = self;
        session.finish()
    }

    /// A refusal at the open statement, for what is no fault of a byte. It takes no memory.
    pub fn refusal(&self, fault: Fault) -> Refusal
        ensures fault { result.fault ≡ fault }
    {
        self.session.refusal(fault)
    }
}
