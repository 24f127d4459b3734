//! How the walk ends the list.
ghost use Rattle.std.specs.Prelude.{◌≡◌, ◌≢◌, ◌≤◌, ◌<◌, [], OnOk, false, suc, true};
ghost use Rattle.p21_stream_log.specs.Opening.{IsBegun};
ghost use Rattle.p21_stream_survey.specs.Course.{listed_of};
ghost use Rattle.p21_stream_survey.specs.Walking.{EndsAt, EndsList, EndsSo, EndsWhereFull, EndsWithStretch, too_long};

use crate::ending::{end_at_stretch, end_by};
use crate::listed::{Extent, Listed};
use crate::noting::Noted;
use crate::stage::{Stage, Unlisted};
use crate::survey::{Next, Survey};
use p21_stream_log::{Opening, opening_of};
use p21_stream_statements::{At, Fault};
use p21_tokens::TokenFault;
use p21_values::NoMemory;

impl<'a> Survey<'a> {
    /// So many bytes are read, and none are to be read again. It takes no memory.
    pub(crate) fn on(&self, count: usize) -> Next
        ensures count { result.count ≡ count }
        ensures again { result.again.items ≡ [] }
    {
        Next {
            count,
            again: Vec::new(self.alloc),
        }
    }

    /// Whether one refusal more is the last one that is asked for. It takes no memory.
    pub(crate) fn is_last(&self) -> bool
        ensures yes { result ≡ true → self.now.most ≤ suc (listed_of self.now) }
        ensures no { result ≡ false → suc (listed_of self.now) < self.now.most }
    {
        self.listing.list.len() as u64 >= self.most.saturating_sub(1)
    }

    /// The refusal of a statement that is passed over by more bytes than a file may have. It takes no memory.
    pub(crate) fn too_long(&self, begins: u64) -> Listed
        ensures { result ≡ too_long self.now begins }
    {
        Listed {
            fault: Fault::Token(TokenFault::FileTooLong),
            at: At::Statement(self.listing.statement),
            begins,
        }
    }

    /// Ends the list where as many refusals are listed as are asked for.
    pub(crate) fn end_where_full(&mut self)
        ensures { EndsWhereFull self.old self.new }
    {
        if self.listing.list.len() as u64 >= self.most {
            self.stage = Stage::Ended(Extent::Most);
        }
    }

    /// Ends the list with a refusal that ends the reading, of a statement with these bytes.
    ///
    /// # Errors
    ///
    /// `NoMemory`.
    pub(crate) fn end_with(&mut self, refusal: Listed, bytes: &[u8]) -> Result<(), NoMemory>
        ensures { OnOk result (EndsList (λ known. EndsSo known self.old refusal) self.old self.new) }
    {
        let noted = Noted::of(&self.log, refusal.fault, bytes).with_trail(self.keeper.trail());
        match end_by(
            &mut self.listing,
            refusal.fault,
            refusal.at,
            refusal.begins,
            noted,
        ) {
            Ok(extent) => {
                self.stage = Stage::Ended(extent);
                Ok(())
            }
            Err(NoMemory) => Err(NoMemory),
        }
    }

    /// Ends the list with the refusal of a statement with these bytes, which would be passed over: the last one that is asked for.
    ///
    /// # Errors
    ///
    /// `NoMemory`.
    pub(crate) fn end_with_stretch(&mut self, refusal: Listed, bytes: &[u8]) -> Result<(), NoMemory>
        ensures { OnOk result (EndsList (λ known. EndsWithStretch known self.old refusal) self.old self.new) }
    {
        let noted = Noted::of(&self.log, refusal.fault, bytes).with_trail(self.keeper.trail());
        match end_at_stretch(
            &mut self.listing,
            refusal.fault,
            refusal.at,
            refusal.begins,
            noted,
        ) {
            Ok(extent) => {
                self.stage = Stage::Ended(extent);
                Ok(())
            }
            Err(NoMemory) => Err(NoMemory),
        }
    }

    /// Ends the list with a refusal of the next statement, which has these bytes first; or waits for more, where they don't tell where it
    /// begins.
    ///
    /// # Errors
    ///
    /// `NoMemory`.
    pub(crate) fn end_at(&mut self, fault: Fault, bytes: Vec<u8>) -> Result<(), NoMemory>
        ensures { OnOk result (EndsAt self.old fault bytes.items self.new) }
    {
        if !has_begun(&bytes) {
            self.stage = Stage::Waiting(Unlisted { fault, bytes });
            return Ok(());
        }
        let refusal = Listed {
            fault,
            at: At::Statement(self.listing.statement),
            begins: self.log.begins_in(&bytes),
        };
        self.end_with(refusal, &bytes)
    }
}

/// Whether a statement has begun with these bytes, separators apart.
fn has_begun(bytes: &[u8]) -> bool
    ensures { result ≡ true → IsBegun bytes.now }
{
    match opening_of(bytes) {
        Opening::SectionEnd => true,
        Opening::Statement => true,
        Opening::Untold => false,
    }
}

/// Whether a fault is want of memory.
pub(crate) fn is_want_of_memory(fault: Fault) -> bool
    ensures { result ≡ false → fault ≢ Fault.NoMemory }
{
    fault == Fault::NoMemory
}
