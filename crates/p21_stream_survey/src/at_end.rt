//! What a survey finds where its file ends, or a read failed.
ghost use Rattle.std.specs.Prelude.{◌≡◌, IfOk, IsTrue, drop};
ghost use Rattle.p21_stream_survey.specs.Ending.{ListsRead};
ghost use Rattle.p21_stream_survey.specs.Finishing.{IsEnded};
ghost use Rattle.p21_stream_survey.specs.Found.{FindsAtMost};
ghost use Rattle.p21_stream_survey.specs.Kinds.{AreOfFile, AreOfReading};
ghost use Rattle.p21_stream_survey.specs.ReadOut.{EndsBy, EndsReadOut, EndsStage, FindsAll, FindsIn, Interrupts, IsAgain, IsInterrupted};
ghost use Rattle.p21_stream_survey.specs.ReadOut.{ListsInterrupted, SomeIsReadOut, last_stage};
ghost use Rattle.p21_stream_survey.specs.declared.stage.Stage.TheVariants.{Reading, Waiting};

use crate::ending::end_by;
use crate::finishing::{
    Ended, end_sought, end_statement, end_unread, finish_file, found, interrupt_sought,
};
use crate::listed::{Extent, Found};
use crate::noting::Noted;
use crate::seeking::Sought;
use crate::stage::{Stage, Unlisted};
use crate::survey::Survey;
use p21_stream_statements::{At, Fault};
use p21_values::NoMemory;
use std::alloc::Global;
use std::mem;

/// What comes of what is open where a file ends.
#[derive(Drop)]
pub(crate) enum AtEnd {
    /// The list ends with it, or has ended.
    Listed(Extent),
    /// It is passed over, and these bytes of it are to be read again.
    Again(Vec<u8>),
    /// It isn't to be passed over, or nothing is open.
    FileEnd,
}

impl<'a> Survey<'a> {
    /// What is found of a file that ends behind what was read of it; or of what was read, where a read failed.
    ///
    /// # Errors
    ///
    /// `NoMemory`.
    pub fn finish(mut self, has_failed: bool) -> Result<Found, NoMemory>
        requires { SomeIsReadOut self self.stage }
        ensures finds { IfOk result (FindsAll self.entry) }
        ensures counted { IfOk result (FindsAtMost self.entry.most) }
        ensures interrupted { IfOk result (λ found. IsTrue has_failed → IsInterrupted self.entry self.entry.stage found) }
        ensures kinds { IfOk result (λ found. AreOfReading has_failed found.list.items) }
    {
        if has_failed {
            return match self.interrupt() {
                Ok(extent) => Ok(self.found_with(extent)),
                Err(NoMemory) => Err(NoMemory),
            };
        }
        match self.finish_statements() {
            Ok(extent) => self.find(extent),
            Err(NoMemory) => Err(NoMemory),
        }
    }

    /// What is found where the list has ended so.
    fn found_with(self, extent: Extent) -> Found
        ensures { IsEnded self.entry.listing extent result }
    {
        let Survey { alloc, listing, .. } = self;
        found(alloc, listing, extent)
    }

    /// What is found where the list has ended so, or nothing is to be passed over any more.
    fn find(self, extent: Option<Extent>) -> Result<Found, NoMemory>
        requires { SomeIsReadOut self (last_stage extent) }
        ensures finds { IfOk result (FindsIn self.entry (last_stage extent)) }
        ensures counted { IfOk result (FindsAtMost self.entry.most) }
        ensures of_file { IfOk result (λ found. AreOfFile found.list.items) }
    {
        let Survey {
            alloc,
            limits,
            most,
            log,
            keeper,
            listing,
            stage: _,
        } = self;
        match extent {
            Some(extent) => Ok(found(alloc, listing, extent)),
            None => finish_file(alloc, limits, most, log, keeper, listing),
        }
    }

    /// Passes over what is open where the file ends, and reads on, until nothing is or the list has ended; says how it has.
    fn finish_statements(&mut self) -> Result<Option<Extent>, NoMemory>
        requires { SomeIsReadOut self.old self.old.stage }
        ensures { IfOk result (λ extent. EndsReadOut self.old extent self.new) }
    {
        loop {
            let bytes = match self.finish_stage() {
                Ok(AtEnd::Listed(extent)) => return Ok(Some(extent)),
                Ok(AtEnd::FileEnd) => return Ok(None),
                Ok(AtEnd::Again(bytes)) => bytes,
                Err(NoMemory) => return Err(NoMemory),
            };
            match self.feed_last(bytes) {
                Ok(()) => {}
                Err(NoMemory) => return Err(NoMemory),
            }
        }
    }

    /// Ends the list with what is open where the file ends, or passes it over.
    fn finish_stage(&mut self) -> Result<AtEnd, NoMemory>
        ensures ends { IfOk result (λ ended. EndsStage self.old self.old.stage ended self.new) }
        ensures stage { self.new.stage ≡ Reading }
    {
        match mem::replace(&mut self.stage, Stage::Reading) {
            Stage::Reading => self.finish_statement(),
            Stage::Seeking(sought) => {
                let Sought { stretch, .. } = sought;
                let noted = Noted::of(&self.log, stretch.fault, &[]);
                match end_sought(&mut self.listing, stretch.fault, stretch.begins, noted) {
                    Ok(extent) => Ok(AtEnd::Listed(extent)),
                    Err(NoMemory) => Err(NoMemory),
                }
            }
            Stage::Waiting(unlisted) => match self.end_unlisted(&unlisted) {
                Ok(extent) => Ok(AtEnd::Listed(extent)),
                Err(NoMemory) => Err(NoMemory),
            },
            Stage::Ended(extent) => Ok(AtEnd::Listed(extent)),
        }
    }

    /// Ends the list with the statement in which the file ends, or passes it over.
    fn finish_statement(&mut self) -> Result<AtEnd, NoMemory>
        ensures ends { IfOk result (λ ended. EndsStage self.old Reading ended self.new) }
        ensures stage { self.new.stage ≡ self.old.stage }
    {
        let bytes = match self.log.bytes_with(self.alloc, &[]) {
            Ok(bytes) => bytes,
            Err(NoMemory) => return Err(NoMemory),
        };
        match end_statement(
            &mut self.log,
            &mut self.listing,
            self.alloc,
            self.limits,
            self.most,
            &bytes,
        ) {
            Ok(Ended::Listed(extent)) => Ok(AtEnd::Listed(extent)),
            Ok(Ended::PassedOver(count)) => again(self.alloc, &bytes, count),
            Ok(Ended::AtFileEnd) => Ok(AtEnd::FileEnd),
            Err(NoMemory) => Err(NoMemory),
        }
    }

    /// Ends the list with a refusal, behind whose bytes the file ends.
    fn end_unlisted(&mut self, unlisted: &Unlisted) -> Result<Extent, NoMemory>
        ensures ends { IfOk result (λ extent. EndsBy self.old (Waiting unlisted.now) extent self.new) }
        ensures stage { self.new.stage ≡ self.old.stage }
    {
        let begins = self.log.begins_in(&unlisted.bytes);
        let at = At::Statement(self.listing.statement);
        let noted = Noted::of(&self.log, unlisted.fault, &unlisted.bytes);
        match end_by(&mut self.listing, unlisted.fault, at, begins, noted) {
            Ok(extent) => Ok(extent),
            Err(NoMemory) => Err(NoMemory),
        }
    }

    /// Ends the list where a read failed.
    fn interrupt(&mut self) -> Result<Extent, NoMemory>
        ensures ends { IfOk result (λ extent. Interrupts self.old self.old.stage extent self.new) }
        ensures lists { IfOk result (λ extent. ListsInterrupted self.old self.old.stage extent self.new.listing) }
    {
        match mem::replace(&mut self.stage, Stage::Reading) {
            Stage::Reading => self.end_unread(),
            Stage::Seeking(sought) => {
                let Sought { stretch, .. } = sought;
                let noted = Noted::of(&self.log, stretch.fault, &[]);
                match interrupt_sought(&mut self.listing, stretch.fault, stretch.begins, noted) {
                    Ok(extent) => Ok(extent),
                    Err(NoMemory) => Err(NoMemory),
                }
            }
            Stage::Waiting(unlisted) => self.end_unread_behind(&unlisted),
            Stage::Ended(extent) => Ok(extent),
        }
    }

    /// Ends the list where a read failed before the statement began whose refusal isn't listed yet: the failed read stands in place of
    /// that.
    fn end_unread_behind(&mut self, unlisted: &Unlisted) -> Result<Extent, NoMemory>
        ensures ends { IfOk result (λ extent. Interrupts self.old (Waiting unlisted.now) extent self.new) }
        ensures reads { IfOk result (λ extent. ListsRead self.old.listing.list.items extent self.new.listing.list.items) }
    {
        let begins = self.log.begins_in(&unlisted.bytes);
        let at = At::Statement(self.listing.statement);
        let noted = Noted::of(&self.log, Fault::Read, &unlisted.bytes);
        match end_by(&mut self.listing, Fault::Read, at, begins, noted) {
            Ok(extent) => Ok(extent),
            Err(NoMemory) => Err(NoMemory),
        }
    }

    /// Ends the list with the statement in which a read failed.
    fn end_unread(&mut self) -> Result<Extent, NoMemory>
        ensures ends { IfOk result (λ extent. Interrupts self.old Reading extent self.new) }
        ensures reads { IfOk result (λ extent. ListsRead self.old.listing.list.items extent self.new.listing.list.items) }
    {
        let bytes = match self.log.bytes_with(self.alloc, &[]) {
            Ok(bytes) => bytes,
            Err(NoMemory) => return Err(NoMemory),
        };
        match end_unread(&self.log, &mut self.listing, self.limits, &bytes) {
            Ok(extent) => Ok(extent),
            Err(NoMemory) => Err(NoMemory),
        }
    }
}

/// The bytes behind so many of some, which are to be read again.
fn again(alloc: Global, bytes: &[u8], count: usize) -> Result<AtEnd, NoMemory>
    ensures { IfOk result (IsAgain (drop count bytes.now)) }
{
    let mut behind = Vec::new(alloc);
    if count < bytes.len() {
        let Ok(()) = behind.extend_from_slice(&bytes[count..]) else {
            return Err(NoMemory);
        };
    }
    Ok(AtEnd::Again(behind))
}
