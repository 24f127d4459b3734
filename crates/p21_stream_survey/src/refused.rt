//! The walk where a step refused some bytes.
ghost use Rattle.std.specs.Prelude.{◌≢◌, ◌≤◌, IfOk, OnOk, length};
ghost use Rattle.p21_stream_survey.specs.Walking.{GoesBehindRefused, PassesRefused};

use crate::breaking::may_be_passed;
use crate::closing::is_want_of_memory;
use crate::going::{Broken, go_on_behind};
use crate::listed::Listed;
use crate::survey::{Next, Survey};
use p21_stream_log::log_laws;
use p21_stream_statements::{At, Fault};
use p21_values::NoMemory;

impl<'a> Survey<'a> {
    /// Passes over a statement of which a step refused some of a piece, or ends the list with its refusal.
    ///
    /// # Errors
    ///
    /// `NoMemory`.
    pub(crate) fn break_off(&mut self, fault: Fault, piece: &[u8]) -> Result<Next, NoMemory>
        ensures within { IfOk result (λ next. next.count ≤ length piece.now) }
        ensures other { OnOk result (fault ≢ Fault.NoMemory) }
        ensures goes { IfOk result (λ next. GoesBehindRefused self.old piece.now fault next self.new) }
    {
        log_laws();
        if is_want_of_memory(fault) {
            return Err(NoMemory);
        }
        let bytes = match self.log.bytes_with(self.alloc, piece) {
            Ok(bytes) => bytes,
            Err(NoMemory) => return Err(NoMemory),
        };
        if may_be_passed(&self.log, fault, &bytes) {
            return self.pass_refused(fault, &bytes, piece.len());
        }
        match self.end_at(fault, bytes) {
            Ok(()) => Ok(self.on(piece.len())),
            Err(NoMemory) => Err(NoMemory),
        }
    }

    /// Passes over a statement of which a step refused some, with these bytes behind the last statement, so many of them of a piece.
    fn pass_refused(&mut self, fault: Fault, bytes: &[u8], count: usize) -> Result<Next, NoMemory>
        ensures within { IfOk result (λ next. next.count ≤ count) }
        ensures passes { IfOk result (λ next. PassesRefused self.old fault bytes.now count next self.new) }
    {
        log_laws();
        let refusal = Listed {
            fault,
            at: At::Statement(self.listing.statement),
            begins: self.log.begins_in(bytes),
        };
        if self.is_last() {
            return match self.end_with_stretch(refusal, bytes) {
                Ok(()) => Ok(self.on(count)),
                Err(NoMemory) => Err(NoMemory),
            };
        }
        let broken = Broken {
            fault,
            place: self.log.refused_at(fault, bytes),
            begins: refusal.begins,
        };
        let passage = match go_on_behind(
            &mut self.log,
            &mut self.listing,
            self.alloc,
            self.limits,
            broken,
            bytes,
        ) {
            Ok(passage) => passage,
            Err(NoMemory) => return Err(NoMemory),
        };
        self.go_by(passage, refusal, bytes, count)
    }
}
