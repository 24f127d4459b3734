//! Instances that stand whole at the beginning of the bytes that come next, taken straight from these (ISO 10303-21, data sections).
ghost use Rattle.std.specs.Prelude.{◌≡◌, ◌≤◌, ◌<◌, [], IfOk, IfSome, IsTrue, length};
ghost use Rattle.p21_stream_survey.specs.Course.{IsUnderWay};
ghost use Rattle.p21_stream_survey.specs.Taking.{TakesInstances};

use crate::keeper::JudgedInstance;
use crate::stage::Stage;
use crate::survey::{Next, Survey};
use p21_values::NoMemory;

impl<'a> Survey<'a> {
    /// Takes the instances that stand whole at the beginning of some bytes straight from these, one behind the other. `None` where
    /// the first one isn't taken so, or there is none: then nothing is read.
    ///
    /// # Errors
    ///
    /// `NoMemory`.
    pub(crate) fn take_instances(&mut self, rest: &[u8]) -> Result<Option<Next>, NoMemory>
        requires reading { self.old.stage ≡ Stage.Reading }
        requires under_way { IsUnderWay self.old Stage.Reading rest.now }
        ensures within { IfOk result (λ taken. IfSome taken (λ next. next.count ≤ length rest.now)) }
        ensures takes { IfOk result (λ taken. TakesInstances self.old rest.now taken self.new) }
    {
        let first = match self.take_instance(rest) {
            Ok(first) => first,
            Err(NoMemory) => return Err(NoMemory),
        };
        let Some(mut next) = first else {
            return Ok(None);
        };
        while self.reads_on(&next) {
            let taken = match self.take_instance(&rest[next.count..]) {
                Ok(taken) => taken,
                Err(NoMemory) => return Err(NoMemory),
            };
            let Some(behind) = taken else {
                return Ok(Some(next));
            };
            next = Next {
                count: next.count + behind.count,
                again: behind.again,
            };
        }
        Ok(Some(next))
    }

    /// Takes the instance that stands whole at the beginning of some bytes straight from these. `None` where it isn't taken so: then
    /// nothing is read.
    fn take_instance(&mut self, rest: &[u8]) -> Result<Option<Next>, NoMemory>
        requires reading { self.old.stage ≡ Stage.Reading }
        requires under_way { IsUnderWay self.old Stage.Reading rest.now }
        ensures some { IfOk result (λ taken. IfSome taken (λ next. 0 < next.count)) }
        ensures within { IfOk result (λ taken. IfSome taken (λ next. next.count ≤ length rest.now)) }
        ensures takes { IfOk result (λ taken. TakesInstances self.old rest.now taken self.new) }
    {
        let taken = match self.keeper.take_instance(&mut self.log, self.limits, rest) {
            Ok(taken) => taken,
            Err(NoMemory) => return Err(NoMemory),
        };
        let Some(JudgedInstance { count, judgement }) = taken else {
            return Ok(None);
        };
        match self.follow(judgement) {
            Ok(again) => Ok(Some(Next { count, again })),
            Err(NoMemory) => Err(NoMemory),
        }
    }

    /// Whether statements are read behind some bytes, and nothing of these is to be read again.
    fn reads_on(&self, next: &Next) -> bool
        ensures { IsTrue result → (self.now.stage ≡ Stage.Reading) × (next.now.again.items ≡ []) }
    {
        if next.again.len() > 0 {
            return false;
        }
        match &self.stage {
            Stage::Reading => true,
            Stage::Seeking(_) => false,
            Stage::Waiting(_) => false,
            Stage::Ended(_) => false,
        }
    }
}
