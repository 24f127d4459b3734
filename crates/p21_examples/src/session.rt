//! A file that comes over a connection: a session is fed what comes, and what it holds is watched.

ghost use Rattle.std.specs.Prelude.{◌≢◌, ◌≤◌, ◌↔◌, ◌++◌, IfErr, IfOk, IsTrue, Ok, OnOk};
ghost use Rattle.p21_examples.specs.Receiving.{IsReceived, Stops};
ghost use Rattle.p21_stream.specs.Claim.{IsOpen};
ghost use Rattle.p21_stream.specs.p21_spec_file.Accepted.{IsDead};
ghost use Rattle.p21_stream.specs.Histories.{FeedGives, KeepsSchema, SessionHistory, nothing_taken};
ghost use Rattle.p21_stream.specs.ReaderInput.{IsAcceptedInput};

use p21_stream::{Accepted, Fault, Held, Limits, Refusal, Schema, Session, headline};
use std::alloc::Global;
use std::io::Read;

/// The bytes that one read may give.
const PIECE: usize = 4096;

/// What a sender may cost: the token bytes of one statement, the bytes of canonical text that are kept, and the reads.
#[derive(Clone, Copy, Debug)]
pub struct Budget {
    pub pending: u64,
    pub kept: u64,
    pub reads: u64,
}

impl Budget {
    /// Whether so much may be held.
    fn allows(&self, held: Held) -> bool
        ensures { IsTrue result ↔ ((held.pending ≤ self.now.pending) × (held.kept ≤ self.now.kept)) }
    {
        held.pending <= self.pending && held.kept <= self.kept
    }
}

/// Why no file was received.
#[derive(Clone, Copy, Debug)]
pub enum Stopped {
    /// A read answered an error.
    Broken,
    /// What came is refused.
    Refused(Refusal),
    /// More is held than the budget allows.
    TooLarge(Held),
    /// The file hadn't ended behind the last read.
    TooSlow,
}

/// Receives a file from a source that gives some bytes at a time, as a socket does.
///
/// # Errors
///
/// Why no file was received.
pub fn receive<R: Read>(
    alloc: Global,
    schema: &Schema,
    limits: Limits,
    source: &mut R,
    budget: Budget,
) -> Result<Accepted, Stopped>
    ensures accepted { IfOk result (IsAcceptedInput schema.now limits (R.remaining source.old) (R.remaining source.new)) }
    ensures stopped { IfErr result (Stops schema.now limits budget (R.remaining source.old) (R.remaining source.new)) }
{
    headline(schema, limits);
    let mut session = Session::new(alloc, schema, limits);
    match receive_all(schema, limits, &mut session, source, budget) {
        Ok(()) => {}
        Err(stopped) => return Err(stopped),
    }
    match session.finish() {
        Ok(accepted) => Ok(accepted),
        Err(refusal) => Err(Stopped::Refused(refusal)),
    }
}

/// Feeds a new session all that a source gives.
fn receive_all<R: Read>(
    schema: &Schema,
    limits: Limits,
    session: &mut Session<'_>,
    source: &mut R,
    budget: Budget,
) -> Result<(), Stopped>
    requires { IsOpen schema.now limits session.old nothing_taken }
    ensures ok { OnOk result (IsReceived schema.now limits (R.remaining source.old) (R.remaining source.new) session.new) }
    ensures stopped { IfErr result (Stops schema.now limits budget (R.remaining source.old) (R.remaining source.new)) }
{
    let mut piece = [0; PIECE];
    for _ in 0..budget.reads {
        let Ok(count) = source.read(&mut piece) else {
            return Err(Stopped::Broken);
        };
        if count == 0 {
            return Ok(());
        }
        match feed(schema, limits, session, &piece[..count]) {
            Ok(()) => {}
            Err(refusal) => return Err(Stopped::Refused(refusal)),
        }
        let held = session.held();
        if !budget.allows(held) {
            return Err(Stopped::TooLarge(held));
        }
    }
    Err(Stopped::TooSlow)
}

/// Feeds a session a piece. Where it is refused, no file that is accepted begins with the bytes so far.
fn feed(
    schema: &Schema,
    limits: Limits,
    session: &mut Session<'_>,
    piece: &[u8],
) -> Result<(), Refusal>
    ensures gives { OnOk result (FeedGives session.old piece.now (Ok tt) session.new) }
    ensures schema { KeepsSchema session.old session.new }
    ensures refuses { IfErr result (λ refusal. refusal.fault ≢ Fault.NoMemory
        → (history : SessionHistory) → IsOpen schema.now limits session.old history → IsDead schema.now limits (history.taken ++ piece.now)) }
{
    headline(schema, limits);
    match session.feed(piece) {
        Ok(()) => Ok(()),
        Err(refusal) => Err(refusal),
    }
}
