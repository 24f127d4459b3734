//! The bytes in which a file ends, where no remark ends in them: one that a statement opens there runs on to the end of the file. So such a
//! statement is passed over soon behind the beginning of its remark, and no byte is read more than so many times, however many remarks are
//! open.
ghost use Rattle.std.specs.Prelude.{◌≡◌, ◌≤◌, ◌<◌, ◌++◌, IfOk, IfSome, IsTrue, List, OnOk, drop, length, take, ℕ};
ghost use Rattle.p21_stream_log.specs.Passage.{GoesOnAt};
ghost use Rattle.p21_stream_resume.specs.Standing.{EndsNoRemark};
ghost use Rattle.p21_stream_statements.specs.Fault.{fault_number};
ghost use Rattle.p21_stream_survey.specs.Finishing.{CountsEnd, CountsPassed};
ghost use Rattle.p21_stream_survey.specs.Kinds.{AreOfFile, IsOfFile};
ghost use Rattle.p21_stream_survey.specs.Token.{IsWindowOf};
ghost use Rattle.p21_stream_survey.specs.Unended.{EndsUnended, FeedsLast, GoesLast, IsLast, IsStatementIn, PassesOpen, PassesUnended};
ghost use Rattle.p21_stream_survey.specs.declared.stage.Stage.TheVariants.{Reading};

use crate::ending::end_at_stretch;
use crate::finishing::{Ended, end_with};
use crate::going::list_passed;
use crate::listing::Listing;
use crate::noting::Noted;
use crate::stage::Stage;
use crate::survey::Survey;
use p21_stream_log::{Log, Passage, begins_unended, ends_no_remark, ends_within, log_laws};
use p21_stream_statements::{At, Fault};
use p21_tokens::TokenFault;
use p21_values::{Limits, NoMemory};
use std::alloc::Global;

/// The most bytes that are offered at once: so many are looked through for the end of a remark where an instance is taken from its bytes.
const MOST: usize = 256;

/// Where fewer bytes of a statement are read it isn't looked whether it has opened a remark.
const LEAST: u64 = 64;

impl<'a> Survey<'a> {
    /// Reads the bytes in which the file ends.
    ///
    /// # Errors
    ///
    /// `NoMemory`.
    pub(crate) fn feed_last(&mut self, bytes: Vec<u8>) -> Result<(), NoMemory>
        requires { IsLast self.old bytes.items }
        ensures { OnOk result (FeedsLast self.old bytes.items self.new) }
    {
        if ends_no_remark(&bytes) {
            return self.feed_unended(&bytes);
        }
        match self.feed_again(bytes) {
            Ok(()) => Ok(()),
            Err(NoMemory) => Err(NoMemory),
        }
    }

    /// Reads the bytes in which the file ends, where no remark ends in them.
    fn feed_unended(&mut self, bytes: &[u8]) -> Result<(), NoMemory>
        requires none { EndsNoRemark bytes.now }
        requires last { IsLast self.old bytes.now }
        ensures { OnOk result (FeedsLast self.old bytes.now self.new) }
    {
        let mut at: usize = 0;
        while at < bytes.len() && !self.has_ended() {
            at = match self.go_further(bytes, at) {
                Ok(behind) => behind,
                Err(NoMemory) => return Err(NoMemory),
            };
        }
        Ok(())
    }

    /// Reads some of the bytes behind so many, and passes over the statement that is open then, where it is seen to have opened a remark.
    /// Says behind how many the reading goes on.
    fn go_further(&mut self, bytes: &[u8], at: usize) -> Result<usize, NoMemory>
        requires some { at < length bytes.now }
        requires none { EndsNoRemark bytes.now }
        requires last { IsLast self.old (drop at bytes.now) }
        ensures { IfOk result (λ behind. GoesLast self.old (drop at bytes.now) (drop behind bytes.now) self.new) }
    {
        let count = match self.read_some(&bytes[at..]) {
            Ok(count) => count,
            Err(NoMemory) => return Err(NoMemory),
        };
        let behind = at + count;
        if !self.may_have_opened(count) {
            return Ok(behind);
        }
        self.pass_open(bytes, behind)
    }

    /// Reads some of the next bytes, and what is to be read again behind them.
    fn read_some(&mut self, rest: &[u8]) -> Result<usize, NoMemory>
        requires some { 0 < length rest.now }
        requires last { IsLast self.old rest.now }
        ensures within { IfOk result (λ count. count ≤ length rest.now) }
        ensures goes { IfOk result (λ count. GoesLast self.old rest.now (drop count rest.now) self.new) }
    {
        let next = match self.advance(front_of(rest)) {
            Ok(next) => next,
            Err(NoMemory) => return Err(NoMemory),
        };
        let count = next.count;
        match self.feed_again(next.again) {
            Ok(()) => Ok(count),
            Err(NoMemory) => Err(NoMemory),
        }
    }

    /// Whether it is to be looked whether the open statement has opened a remark, where so many bytes were read last. It is each time that
    /// about twice as many bytes of it are read, so that they aren't read too often for this.
    fn may_have_opened(&self, count: usize) -> bool {
        let open = self.log.places().byte.saturating_sub(self.log.start());
        let before = open.saturating_sub(count as u64);
        open >= LEAST && open.leading_zeros() < before.leading_zeros()
    }

    /// Passes over the open statement, or ends the list with it, where it has opened a remark. The file ends with these bytes, of which so
    /// many are read; says behind how many the reading goes on.
    fn pass_open(&mut self, bytes: &[u8], at: usize) -> Result<usize, NoMemory>
        requires none { EndsNoRemark bytes.now }
        ensures { IfOk result (λ behind. PassesOpen self.old (drop at bytes.now) (drop behind bytes.now) self.new) }
    {
        if !self.is_reading() {
            return Ok(at);
        }
        let front = match self.log.bytes_with(self.alloc, &[]) {
            Ok(front) => front,
            Err(NoMemory) => return Err(NoMemory),
        };
        let Some(statement) = statement_behind(bytes, at, &front) else {
            return Ok(at);
        };
        match end_unended(
            &mut self.log,
            &mut self.listing,
            self.alloc,
            self.limits,
            self.most,
            &front,
            statement,
        ) {
            Ok(Ended::Listed(extent)) => {
                self.stage = Stage::Ended(extent);
                Ok(at)
            }
            Ok(Ended::PassedOver(count)) => Ok(place_in(bytes, statement, count)),
            Ok(Ended::AtFileEnd) => Ok(at),
            Err(NoMemory) => Err(NoMemory),
        }
    }

    /// Whether it reads statements.
    fn is_reading(&self) -> bool
        ensures { IsTrue result → self.now.stage ≡ Reading }
    {
        match &self.stage {
            Stage::Reading => true,
            Stage::Seeking(_) => false,
            Stage::Waiting(_) => false,
            Stage::Ended(_) => false,
        }
    }
}

/// The first of some bytes that are offered at once.
fn front_of(rest: &[u8]) -> &[u8]
    ensures { IsWindowOf rest.now result.now }
{
    if rest.len() <= MOST {
        return rest;
    }
    &rest[..MOST]
}

/// The bytes of a statement up to the end of the file. The file ends with these, of which so many are read, and `front` are those of the
/// statement that are read. `None` where they don't stand in front of the others, which is never so.
fn statement_behind<'b>(bytes: &'b [u8], at: usize, front: &[u8]) -> Option<&'b [u8]>
    ensures { IfSome result (λ statement. IsStatementIn bytes.now at front.now statement.now) }
{
    if at < front.len() || bytes.len() < at {
        return None;
    }
    let statement = &bytes[at - front.len()..];
    if statement.starts_with(front) {
        Some(statement)
    } else {
        None
    }
}

/// Behind how many bytes what stands behind so many of the last ones begins.
fn place_in(bytes: &[u8], last: &[u8], count: usize) -> usize
    requires { (front : List ℕ) × (bytes.now ≡ front ++ last.now) }
    ensures { drop result bytes.now ≡ drop count last.now }
{
    bytes.len() - last.len() + count.min(last.len())
}

/// Passes over a statement with which the file ends, or ends the list with it, where the bytes that are read of it end in a remark and it
/// doesn't begin with ENDSEC. Up to so many are listed.
///
/// # Errors
///
/// `NoMemory`.
fn end_unended(
    log: &mut Log,
    listing: &mut Listing,
    alloc: Global,
    limits: Limits,
    most: u64,
    front: &[u8],
    statement: &[u8],
) -> Result<Ended, NoMemory>
    requires none { EndsNoRemark statement.now }
    requires front { (more : List ℕ) × (statement.now ≡ front.now ++ more) }
    ensures ends { IfOk result (λ ended. EndsUnended limits log.old listing.old front.now statement.now ended log.new listing.new) }
    ensures counts { length listing.old.list.items < most
        → IfOk result (λ ended. CountsEnd most (length listing.old.list.items) ended (length listing.new.list.items)) }
    ensures no_fewer { OnOk result (length listing.old.list.items ≤ length listing.new.list.items) }
    ensures of_file { AreOfFile listing.old.list.items → OnOk result (AreOfFile listing.new.list.items) }
{
    log_laws();
    let _most = limits.file_source();
    if !log.is_in_data() {
        return Ok(Ended::AtFileEnd);
    }
    if !begins_unended(front) {
        return Ok(Ended::AtFileEnd);
    }
    let fault = match ends_within(alloc, limits, front) {
        Ok(fault) => fault,
        Err(NoMemory) => return Err(NoMemory),
    };
    if !is_open_remark(fault) {
        return Ok(Ended::AtFileEnd);
    }
    let begins = log.begins_in(front);
    let noted = Noted::of(log, fault, front);
    if (listing.list.len() as u64).saturating_add(1) >= most {
        let at = At::Statement(listing.statement);
        return match end_at_stretch(listing, fault, at, begins, noted) {
            Ok(extent) => Ok(Ended::Listed(extent)),
            Err(NoMemory) => Err(NoMemory),
        };
    }
    match list_unended(log, listing, alloc, fault, begins, statement, noted) {
        Ok(Passage::GoesOn(count)) => Ok(Ended::PassedOver(count)),
        Ok(Passage::AtFileMark) => end_with(listing, fault, begins, noted),
        Ok(Passage::TooLong) => {
            end_with(
                listing,
                Fault::Token(TokenFault::FileTooLong),
                begins,
                noted,
            )
        }
        Ok(Passage::Sought(_)) => end_with(listing, fault, begins, noted),
        Err(NoMemory) => Err(NoMemory),
    }
}

/// Whether a refusal is that of a remark that nothing ends.
fn is_open_remark(fault: Fault) -> bool
    ensures { IsTrue result → fault_number fault ≡ 3 }
{
    fault.number() == 3
}

/// Passes over a statement with which the file ends in a remark, and lists it where the reading goes on.
fn list_unended(
    log: &mut Log,
    listing: &mut Listing,
    alloc: Global,
    fault: Fault,
    begins: u64,
    statement: &[u8],
    noted: Noted<'_>,
) -> Result<Passage, NoMemory>
    requires { EndsNoRemark statement.now }
    ensures passes { IfOk result (λ passage. PassesUnended log.old listing.old fault begins statement.now passage log.new listing.new) }
    ensures begins { IfOk result (λ passage. GoesOnAt log.old passage log.new) }
    ensures counts { IfOk result (λ passage. CountsPassed (length listing.old.list.items) passage (length listing.new.list.items)) }
    ensures of_file { IsOfFile (fault_number fault) → AreOfFile listing.old.list.items → OnOk result (AreOfFile listing.new.list.items) }
{
    match log.pass_unended(alloc, statement) {
        Passage::GoesOn(count) => {
            list_passed(listing, fault, begins, count, statement.len(), noted)
        }
        Passage::AtFileMark => Ok(Passage::AtFileMark),
        Passage::TooLong => Ok(Passage::TooLong),
        Passage::Sought(seeker) => Ok(Passage::Sought(seeker)),
    }
}
