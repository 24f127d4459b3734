//! What is done with a statement of which a step refused some bytes: it is passed over, or the list ends with it.
ghost use Rattle.std.specs.Prelude.{◌≡◌, ◌↔◌, IfOk, IsTrue, false};
ghost use Rattle.p21_spec_survey.specs.Survey.{IsGoneOnBehind};
ghost use Rattle.p21_stream_log.specs.Passage.{GoesOnAt, StaysAt};
ghost use Rattle.p21_stream_statements.specs.Fault.{fault_number};
ghost use Rattle.p21_stream_survey.specs.Breaking.{MayBePassed, MayNotBePassed, PassesBroken};

use p21_stream_log::{Log, Opening, Passage, log_laws, opening_of};
use p21_stream_statements::Fault;
use p21_values::{Limits, NoMemory};
use std::alloc::Global;

/// Whether a statement is passed over of which a step refused some, with these bytes behind the last statement: whether its refusal is one
/// behind which a survey goes on, it stands in a data section, and it doesn't begin with ENDSEC.
pub(crate) fn may_be_passed(log: &Log, fault: Fault, bytes: &[u8]) -> bool
    ensures yes { IsTrue result → MayBePassed log.now fault bytes.now }
    ensures no { result ≡ false → MayNotBePassed log.now fault bytes.now }
{
    if !is_gone_on_behind(fault) {
        return false;
    }
    if !log.is_in_data() {
        return false;
    }
    match opening_of(bytes) {
        Opening::Statement => true,
        Opening::SectionEnd => false,
        Opening::Untold => false,
    }
}

/// Passes over a statement of which a step refused some, with these bytes behind the last statement, up to where the reading goes on. What
/// is refused stands at this place of the file.
///
/// # Errors
///
/// `NoMemory`.
pub(crate) fn pass_broken(
    log: &mut Log,
    alloc: Global,
    limits: Limits,
    fault: Fault,
    place: u64,
    bytes: &[u8],
) -> Result<Passage, NoMemory>
    ensures passes { IfOk result (λ passage. PassesBroken log.old fault bytes.now passage log.new) }
    ensures stays { IfOk result (λ passage. StaysAt passage log.old log.new) }
    ensures begins { IfOk result (λ passage. GoesOnAt log.old passage log.new) }
{
    log_laws();
    let front = match log.broken_front(alloc, limits, bytes, place) {
        Ok(front) => front,
        Err(NoMemory) => return Err(NoMemory),
    };
    match log.pass(alloc, front, &bytes[front.len()..]) {
        Ok(passage) => Ok(passage),
        Err(NoMemory) => Err(NoMemory),
    }
}

/// Whether a survey goes on behind a statement that is refused so.
pub(crate) fn is_gone_on_behind(fault: Fault) -> bool
    ensures { IsTrue result ↔ IsGoneOnBehind (fault_number fault) }
{
    let number = fault.number();
    if number < 12 {
        return true;
    }
    if number == 20 {
        return true;
    }
    if number == 21 {
        return true;
    }
    number == 26
}
