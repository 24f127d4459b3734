//! A survey of a file that comes in pieces, from one statement to the next.
ghost use Rattle.std.specs.Prelude.{◌≡◌, ◌+◌, ◌≤◌, ◌<◌, ◌^◌, ◌++◌, ◌↔◌, IfOk, IsTrue, List, OnOk, drop, length, ℕ};
ghost use Rattle.p21_stream_log.specs.Log.{Known};
ghost use Rattle.p21_spec_survey.specs.Rules.{by_itself, of_schema};
ghost use Rattle.p21_stream_survey.specs.Course.{Course, Feeds, HasListEnded, asked_for};
ghost use Rattle.p21_stream_survey.specs.Keeping.{KeepsNothing, rules_by};
ghost use Rattle.p21_stream_survey.specs.Walking.{Goes};

use crate::keeper::Keeper;
use crate::listing::Listing;
use crate::stage::Stage;
use p21_schema::Schema;
use p21_stream_log::Log;
use p21_values::{Limits, NoMemory};
use std::alloc::Global;
use std::mem;

/// A survey of a file that comes in pieces: what is read of it, kept and listed.
#[derive(Drop)]
pub struct Survey<'a> {
    pub(crate) alloc: Global,
    pub(crate) limits: Limits,
    // How many refusals are asked for.
    pub(crate) most: u64,
    pub(crate) log: Log,
    // What judges the statements, and keeps them.
    pub(crate) keeper: Keeper<'a>,
    pub(crate) listing: Listing,
    pub(crate) stage: Stage,
}

/// What comes of the next bytes: so many of them are read, and some are to be read again in front of the others.
#[derive(Drop)]
pub(crate) struct Next {
    pub count: usize,
    pub again: Vec<u8>,
}

impl<'a> Survey<'a> {
    /// A survey by the rules of a schema of a file of which nothing is read, up to so many refusals; one is listed where none is asked for.
    /// Where these stand is noted if that is asked for. It takes no memory.
    pub fn new(
        alloc: Global,
        schema: &'a Schema,
        limits: Limits,
        most: u64,
        are_places_asked: bool,
    ) -> Survey<'a>
        ensures course { (known : Known) → length known.bytes < 2 ^ 64 → Course known result known.bytes }
        ensures rules { rules_by result ≡ of_schema schema.now }
        ensures limits { result.limits ≡ limits }
        ensures most { result.most ≡ asked_for most }
    {
        Survey::by(
            alloc,
            Keeper::of_schema(alloc, schema),
            limits,
            most,
            are_places_asked,
        )
    }

    /// The same by what the standard says of a file by itself.
    pub fn by_itself(alloc: Global, limits: Limits, most: u64, are_places_asked: bool) -> Survey<'a>
        ensures course { (known : Known) → length known.bytes < 2 ^ 64 → Course known result known.bytes }
        ensures rules { rules_by result ≡ by_itself }
        ensures limits { result.limits ≡ limits }
        ensures most { result.most ≡ asked_for most }
    {
        Survey::by(
            alloc,
            Keeper::by_itself(alloc),
            limits,
            most,
            are_places_asked,
        )
    }

    /// A survey of a file of which nothing is read or kept.
    fn by(
        alloc: Global,
        keeper: Keeper<'a>,
        limits: Limits,
        most: u64,
        are_places_asked: bool,
    ) -> Survey<'a>
        requires keeps { KeepsNothing keeper }
        ensures course { (known : Known) → length known.bytes < 2 ^ 64 → Course known result known.bytes }
        ensures keeper { result.keeper ≡ keeper.entry }
        ensures limits { result.limits ≡ limits }
        ensures most { result.most ≡ asked_for most }
    {
        // Looked at, so that the proof knows that 64 bits count it.
        let _counted = most_bytes(limits);
        Survey {
            alloc,
            limits,
            most: at_least_one(most),
            log: Log::new(alloc, limits),
            keeper,
            listing: Listing::new(alloc, are_places_asked),
            stage: Stage::Reading,
        }
    }

    /// Whether the list has ended, so that nothing more is read. It takes no memory.
    pub fn has_ended(&self) -> bool
        ensures { IsTrue result ↔ HasListEnded self.now.stage }
    {
        match &self.stage {
            Stage::Reading => false,
            Stage::Seeking(_) => false,
            Stage::Waiting(_) => false,
            Stage::Ended(_) => true,
        }
    }

    /// Reads a piece.
    ///
    /// # Errors
    ///
    /// `NoMemory`.
    pub fn feed(&mut self, piece: &[u8]) -> Result<(), NoMemory>
        requires { (known : Known) × (more : List ℕ) × Course known self.old (piece.now ++ more) }
        ensures { OnOk result (Feeds self.old piece.now self.new) }
    {
        let mut rest = piece;
        while !rest.is_empty() && !self.has_ended() {
            let next = self.advance(rest)?;
            rest = &rest[next.count..];
            self.feed_again(next.again)?;
        }
        Ok(())
    }

    /// Reads bytes that were passed over up to a landmark.
    ///
    /// # Errors
    ///
    /// `NoMemory`.
    pub(crate) fn feed_again(&mut self, again: Vec<u8>) -> Result<(), NoMemory>
        requires { (known : Known) × (more : List ℕ) × Course known self.old (again.items ++ more) }
        ensures { OnOk result (Feeds self.old again.items self.new) }
    {
        let mut bytes = again;
        let mut at: usize = 0;
        while at < bytes.len() && !self.has_ended() {
            let next = self.advance(&bytes[at..])?;
            (bytes, at) = left_behind(bytes, at, next)?;
        }
        Ok(())
    }

    /// Reads some of the next bytes.
    pub(crate) fn advance(&mut self, rest: &[u8]) -> Result<Next, NoMemory>
        requires some { 0 < length rest.now }
        requires under_way { (known : Known) × (more : List ℕ) × Course known self.old (rest.now ++ more) }
        ensures within { IfOk result (λ next. next.count ≤ length rest.now) }
        ensures goes { IfOk result (λ next. Goes self.old self.old.stage rest.now next self.new) }
    {
        match mem::replace(&mut self.stage, Stage::Reading) {
            Stage::Reading => self.read(rest),
            Stage::Seeking(sought) => self.seek(sought, rest),
            Stage::Waiting(unlisted) => self.wait(unlisted, rest),
            Stage::Ended(extent) => {
                self.stage = Stage::Ended(extent);
                Ok(self.on(rest.len()))
            }
        }
    }
}

/// The bytes that come next, and behind how many, where others come behind so many bytes and something comes of these.
fn left_behind(bytes: Vec<u8>, at: usize, next: Next) -> Result<(Vec<u8>, usize), NoMemory>
    requires { at + next.count ≤ length bytes.items }
    ensures { IfOk result (λ left. drop left.1 left.0.items ≡ next.again.items ++ drop (at + next.count) bytes.items) }
{
    let from = at + next.count;
    let again: &[u8] = &next.again;
    if again.is_empty() {
        return Ok((bytes, from));
    }
    match joined(next.again, &bytes[from..]) {
        Ok(left) => Ok((left, 0)),
        Err(NoMemory) => Err(NoMemory),
    }
}

/// Bytes with others behind them.
pub(crate) fn joined(front: Vec<u8>, behind: &[u8]) -> Result<Vec<u8>, NoMemory>
    ensures { IfOk result (λ bytes. bytes.items ≡ front.items ++ behind.now) }
{
    let mut bytes = front;
    match bytes.extend_from_slice(behind) {
        Ok(()) => Ok(bytes),
        Err(_) => Err(NoMemory),
    }
}

/// The most bytes of a file.
fn most_bytes(limits: Limits) -> u64
    ensures value { result ≡ limits.file_source }
    ensures counted { limits.file_source < 2 ^ 64 }
{
    limits.file_source()
}

/// The number, or one for none.
fn at_least_one(most: u64) -> u64
    ensures asked { result ≡ asked_for most }
    ensures some { 0 < result }
{
    if most == 0 { 1 } else { most }
}
