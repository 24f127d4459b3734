//! The walk where statements are read.
ghost use Rattle.std.specs.Prelude.{◌≡◌, ◌≤◌, ◌<◌, [], Err, IfOk, List, Ok, OnOk, length, ℕ};
ghost use Rattle.p21_stream_log.specs.Log.{Known};
ghost use Rattle.p21_stream_survey.specs.Course.{IsUnderWay};
ghost use Rattle.p21_stream_survey.specs.Walking.{EndsList, EndsWithStretch, FollowsJudged, FollowsWrong, Goes, IsJudged};

use crate::closing::is_want_of_memory;
use crate::following::take_right;
use crate::judging::Judgement;
use crate::listed::Listed;
use crate::noting::Noted;
use crate::stage::Stage;
use crate::survey::{Next, Survey};
use crate::token::{take_token, window_of};
use crate::wrong::{Wrong, pass_wrong};
use p21_stream_log::log_laws;
use p21_stream_statements::{At, Fault};
use p21_values::{Name, NoMemory};

impl<'a> Survey<'a> {
    /// Takes instances straight from their bytes, where whole ones come next; else reads a token, or some bytes of one.
    ///
    /// # Errors
    ///
    /// `NoMemory`.
    pub(crate) fn read(&mut self, rest: &[u8]) -> Result<Next, NoMemory>
        requires some { 0 < length rest.now }
        requires reading { self.old.stage ≡ Stage.Reading }
        requires under_way { IsUnderWay self.old Stage.Reading rest.now }
        ensures within { IfOk result (λ next. next.count ≤ length rest.now) }
        ensures goes { IfOk result (λ next. Goes self.old Stage.Reading rest.now next self.new) }
    {
        if !self.log.is_between_instances() {
            return self.read_token(rest);
        }
        match self.take_instances(rest) {
            Ok(Some(next)) => Ok(next),
            Ok(None) => self.read_token(rest),
            Err(NoMemory) => Err(NoMemory),
        }
    }

    /// Reads a token, or some bytes of one.
    fn read_token(&mut self, rest: &[u8]) -> Result<Next, NoMemory>
        requires some { 0 < length rest.now }
        requires reading { self.old.stage ≡ Stage.Reading }
        requires under_way { IsUnderWay self.old Stage.Reading rest.now }
        ensures within { IfOk result (λ next. next.count ≤ length rest.now) }
        ensures goes { IfOk result (λ next. Goes self.old Stage.Reading rest.now next self.new) }
    {
        self.read_window(window_of(rest))
    }

    /// The same of bytes that are offered to the log at once.
    fn read_window(&mut self, window: &[u8]) -> Result<Next, NoMemory>
        requires some { 0 < length window.now }
        requires reading { self.old.stage ≡ Stage.Reading }
        requires under_way { IsUnderWay self.old Stage.Reading window.now }
        ensures within { IfOk result (λ next. next.count ≤ length window.now) }
        ensures goes { IfOk result (λ next. Goes self.old Stage.Reading window.now next self.new) }
    {
        let (count, event) = match take_token(&mut self.log, window) {
            Ok(taken) => taken,
            Err(fault) => return self.break_off(fault, window),
        };
        let Some(event) = event else {
            return Ok(self.on(count));
        };
        let is_walked = self.listing.is_walked();
        let judgement = self.keeper.judge(self.limits, event, is_walked);
        match self.follow(judgement) {
            Ok(again) => Ok(Next { count, again }),
            Err(NoMemory) => Err(NoMemory),
        }
    }

    /// Does with a statement that has ended what is said of it, and gives the bytes of it that are to be read again.
    ///
    /// # Errors
    ///
    /// `NoMemory`.
    pub(crate) fn follow(
        &mut self,
        judgement: Result<Judgement, Fault>,
    ) -> Result<Vec<u8>, NoMemory>
        requires { (known : Known) × (ahead : List ℕ) × IsJudged known self.old judgement ahead }
        ensures { IfOk result (λ again. FollowsJudged self.old judgement again.items self.new) }
    {
        let judged = match judgement {
            Ok(judged) => judged,
            Err(fault) => return self.follow_refused(fault),
        };
        match judged {
            Judgement::Right => self.follow_right(),
            Judgement::Wrong(name, fault) => self.follow_wrong(name, fault),
        }
    }

    /// Takes a statement that is right.
    fn follow_right(&mut self) -> Result<Vec<u8>, NoMemory>
        ensures { IfOk result (λ again. FollowsJudged self.old (Ok Judgement.Right) again.items self.new) }
    {
        match take_right(&mut self.log, &mut self.listing) {
            Ok(()) => Ok(Vec::new(self.alloc)),
            Err(NoMemory) => Err(NoMemory),
        }
    }

    /// Leaves out an instance that is refused, or passes over it.
    fn follow_wrong(&mut self, name: Name, fault: Fault) -> Result<Vec<u8>, NoMemory>
        requires { (known : Known) × (ahead : List ℕ) × IsJudged known self.old (Ok (Judgement.Wrong name fault)) ahead }
        ensures { IfOk result (λ again. FollowsJudged self.old (Ok (Judgement.Wrong name fault)) again.items self.new) }
    {
        let bytes = self.bytes_for_place();
        let left = match self.keeper.leave_out(
            self.alloc,
            &mut self.log,
            &mut self.listing,
            name,
            fault,
            &bytes,
        ) {
            Ok(left) => left,
            Err(NoMemory) => return Err(NoMemory),
        };
        if !left {
            return self.pass_wrong(name, fault);
        }
        self.end_where_full();
        Ok(Vec::new(self.alloc))
    }

    /// The bytes of the statement that has ended, where places are asked for: none where memory is refused for them.
    fn bytes_for_place(&self) -> Vec<u8> {
        if !self.listing.spots.is_asked() {
            return Vec::new(self.alloc);
        }
        match self.log.bytes_with(self.alloc, &[]) {
            Ok(bytes) => bytes,
            Err(NoMemory) => Vec::new(self.alloc),
        }
    }

    /// Ends the list with a statement that a session refuses.
    fn follow_refused(&mut self, fault: Fault) -> Result<Vec<u8>, NoMemory>
        ensures { IfOk result (λ again. FollowsJudged self.old (Err fault) again.items self.new) }
    {
        log_laws();
        if is_want_of_memory(fault) {
            return Err(NoMemory);
        }
        let bytes = match self.log.bytes_with(self.alloc, &[]) {
            Ok(bytes) => bytes,
            Err(NoMemory) => return Err(NoMemory),
        };
        match self.end_at(fault, bytes) {
            Ok(()) => Ok(Vec::new(self.alloc)),
            Err(NoMemory) => Err(NoMemory),
        }
    }

    /// Passes over an instance that has ended and is refused, with a signpost in a string of it.
    fn pass_wrong(&mut self, name: Name, fault: Fault) -> Result<Vec<u8>, NoMemory>
        ensures { IfOk result (λ again. FollowsWrong self.old name fault again.items self.new) }
    {
        log_laws();
        let bytes = match self.log.bytes_with(self.alloc, &[]) {
            Ok(bytes) => bytes,
            Err(NoMemory) => return Err(NoMemory),
        };
        let refusal = Listed {
            fault,
            at: At::Instance(name),
            begins: self.log.begins_in(&bytes),
        };
        if self.is_last() {
            return self.end_with_wrong(refusal, &bytes);
        }
        let wrong = Wrong {
            name,
            fault,
            begins: refusal.begins,
        };
        let noted = Noted::of(&self.log, fault, &bytes).with_trail(self.keeper.trail());
        let passage = match pass_wrong(
            &mut self.log,
            &mut self.listing,
            self.alloc,
            wrong,
            &bytes,
            noted,
        ) {
            Ok(passage) => passage,
            Err(NoMemory) => return Err(NoMemory),
        };
        match self.go_by(passage, refusal, &bytes, 0) {
            Ok(next) => Ok(next.again),
            Err(NoMemory) => Err(NoMemory),
        }
    }

    /// Ends the list with the refusal of an instance with these bytes, which would be passed over: the last one that is asked for.
    fn end_with_wrong(&mut self, refusal: Listed, bytes: &[u8]) -> Result<Vec<u8>, NoMemory>
        ensures again { IfOk result (λ again. again.items ≡ []) }
        ensures ends { OnOk result (EndsList (λ known. EndsWithStretch known self.old refusal) self.old self.new) }
    {
        match self.end_with_stretch(refusal, bytes) {
            Ok(()) => Ok(Vec::new(self.alloc)),
            Err(NoMemory) => Err(NoMemory),
        }
    }
}
