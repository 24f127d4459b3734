//! The walk where a statement is passed over.
ghost use Rattle.std.specs.Prelude.{◌≡◌, ◌≤◌, ◌<◌, [], IfOk, List, OnOk, length, ℕ};
ghost use Rattle.p21_stream_log.specs.Log.{Known};
ghost use Rattle.p21_stream_survey.specs.Course.{IsUnderWay};
ghost use Rattle.p21_stream_survey.specs.Walking.{EndsList, EndsSo, Goes, GoesByPassage, HasSought, ReadsBehind, SeeksOn, refusal_of};

use crate::listed::Listed;
use crate::seeking::{Sought, Stretch, seek_further};
use crate::stage::{Stage, Unlisted};
use crate::survey::{Next, Survey, joined};
use p21_stream_log::{Passage, log_laws};
use p21_stream_resume::Seeker;
use p21_stream_statements::At;
use p21_values::NoMemory;
use std::alloc::Global;

impl<'a> Survey<'a> {
    /// Goes on as a passage by these bytes says, so many of them of the piece that comes next.
    ///
    /// # Errors
    ///
    /// `NoMemory`.
    pub(crate) fn go_by(
        &mut self,
        passage: Passage,
        refusal: Listed,
        bytes: &[u8],
        count: usize,
    ) -> Result<Next, NoMemory>
        ensures within { IfOk result (λ next. next.count ≤ count) }
        ensures goes { IfOk result (λ next. GoesByPassage self.old refusal bytes.now count passage next self.new) }
    {
        match passage {
            Passage::GoesOn(passed) => next_behind(self.alloc, bytes, passed, count),
            Passage::AtFileMark => self.end_behind(refusal, bytes, count),
            Passage::TooLong => self.end_behind(self.too_long(refusal.begins), bytes, count),
            Passage::Sought(seeker) => {
                let stretch = Stretch {
                    fault: refusal.fault,
                    begins: refusal.begins,
                    taken: bytes.len(),
                };
                self.stage = Stage::Seeking(Sought { seeker, stretch });
                Ok(self.on(count))
            }
        }
    }

    /// Ends the list with a refusal that ends the reading, of a statement with these bytes, where so many are read.
    fn end_behind(&mut self, refusal: Listed, bytes: &[u8], count: usize) -> Result<Next, NoMemory>
        ensures count { IfOk result (λ next. next.count ≡ count) }
        ensures again { IfOk result (λ next. next.again.items ≡ []) }
        ensures ends { OnOk result (EndsList (λ known. EndsSo known self.old refusal) self.old self.new) }
    {
        match self.end_with(refusal, bytes) {
            Ok(()) => Ok(self.on(count)),
            Err(NoMemory) => Err(NoMemory),
        }
    }

    /// Looks in the next bytes for where the reading goes on behind a broken statement.
    ///
    /// # Errors
    ///
    /// `NoMemory`.
    pub(crate) fn seek(&mut self, sought: Sought, rest: &[u8]) -> Result<Next, NoMemory>
        requires some { 0 < length rest.now }
        requires reading { self.old.stage ≡ Stage.Reading }
        requires under_way { IsUnderWay self.old (Stage.Seeking sought) rest.now }
        ensures within { IfOk result (λ next. next.count ≤ length rest.now) }
        ensures goes { IfOk result (λ next. Goes self.old (Stage.Seeking sought) rest.now next self.new) }
    {
        log_laws();
        let Sought {
            mut seeker,
            stretch,
        } = sought;
        let found = match seek_further(
            &mut self.log,
            &mut self.listing,
            &mut seeker,
            stretch,
            rest,
        ) {
            Ok(found) => found,
            Err(NoMemory) => return Err(NoMemory),
        };
        let Some((count, passage)) = found else {
            return self.seek_on(seeker, stretch, rest.len());
        };
        match passage {
            Passage::GoesOn(_) => begun_again(self.alloc, &seeker, count),
            Passage::AtFileMark => self.end_behind(self.refusal_of(stretch), &[], count),
            Passage::TooLong => self.end_behind(self.too_long(stretch.begins), &[], count),
            Passage::Sought(further) => self.seek_on(further, stretch, rest.len()),
        }
    }

    /// Looks further, where a seeker has taken so many bytes more; or ends the list, where a file may not have as many.
    fn seek_on(&mut self, seeker: Seeker, stretch: Stretch, count: usize) -> Result<Next, NoMemory>
        requires { (known : Known) × (ahead : List ℕ) × HasSought known self.old seeker stretch count ahead }
        ensures count { IfOk result (λ next. next.count ≡ count) }
        ensures again { IfOk result (λ next. next.again.items ≡ []) }
        ensures goes { OnOk result (SeeksOn self.old seeker stretch count self.new) }
    {
        let stretch = Stretch {
            fault: stretch.fault,
            begins: stretch.begins,
            taken: stretch.taken + count,
        };
        if self.log.start() + stretch.taken as u64 > self.limits.file_source() {
            return self.end_behind(self.too_long(stretch.begins), &[], count);
        }
        self.stage = Stage::Seeking(Sought { seeker, stretch });
        Ok(self.on(count))
    }

    /// The refusal of a statement that is passed over. It takes no memory.
    fn refusal_of(&self, stretch: Stretch) -> Listed
        ensures { result ≡ refusal_of self.now stretch }
    {
        Listed {
            fault: stretch.fault,
            at: At::Statement(self.listing.statement),
            begins: stretch.begins,
        }
    }

    /// Looks in the next bytes for where the statement begins whose refusal ends the list.
    ///
    /// # Errors
    ///
    /// `NoMemory`.
    pub(crate) fn wait(&mut self, unlisted: Unlisted, rest: &[u8]) -> Result<Next, NoMemory>
        requires some { 0 < length rest.now }
        ensures within { IfOk result (λ next. next.count ≤ length rest.now) }
        ensures goes { IfOk result (λ next. Goes self.old (Stage.Waiting unlisted) rest.now next self.new) }
    {
        let Unlisted { fault, bytes } = unlisted;
        let bytes = match joined(bytes, rest) {
            Ok(bytes) => bytes,
            Err(NoMemory) => return Err(NoMemory),
        };
        match self.end_at(fault, bytes) {
            Ok(()) => Ok(self.on(rest.len())),
            Err(NoMemory) => Err(NoMemory),
        }
    }
}

/// What is read next behind the first of these bytes, of which so many are of the piece that comes next.
fn next_behind(alloc: Global, bytes: &[u8], passed: usize, count: usize) -> Result<Next, NoMemory>
    ensures within { IfOk result (λ next. next.count ≤ count) }
    ensures reads { IfOk result (λ next. ReadsBehind bytes.now count passed next) }
{
    let front = bytes.len().saturating_sub(count);
    let mut again = Vec::new(alloc);
    if passed >= front {
        let count = (passed - front).min(count);
        return Ok(Next { count, again });
    }
    match again.extend_from_slice(&bytes[passed..]) {
        Ok(()) => Ok(Next { count, again }),
        Err(_) => Err(NoMemory),
    }
}

/// Where so many bytes are read, the bytes of the signpost that was found are to be read again.
fn begun_again(alloc: Global, seeker: &Seeker, count: usize) -> Result<Next, NoMemory>
    ensures count { IfOk result (λ next. next.count ≡ count) }
    ensures again { IfOk result (λ next. next.again.items ≡ seeker.now.begun) }
{
    let mut again = Vec::new(alloc);
    match again.extend_from_slice(seeker.signpost_bytes()) {
        Ok(()) => Ok(Next { count, again }),
        Err(_) => Err(NoMemory),
    }
}
