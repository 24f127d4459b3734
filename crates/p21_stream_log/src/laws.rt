//! What a caller of a log goes by, from the definitions alone.
ghost use Rattle.p21_stream_log.specs.Endless.{UnendedGoesOn, UnendedIsBroken, UnendedIsNoEnd};
ghost use Rattle.p21_stream_log.specs.Laws.{AheadFits, AllIsPassed, AllIsTaken, EarlyEnds, EndedIsBroken, InstanceIsInData, OffendingEnds, RefusedByteStands, RefusedEnds, RefusedIsBroken, RefusedIsTold, SoughtEnds, TooFarEnds, WrongIsBroken};

use p21_spec_survey::whole_laws;
use p21_stream_statements::reader_laws;

/// A statement of which a step refused some is broken by its front, and a wrong instance with a signpost in a string of it by its own
/// bytes: so `Log::pass` passes it over. So is a statement in which the file ends, by all its bytes, where `ends_within` tells a refusal to
/// go on behind. Of what a step refuses `opening_of` says how it begins, and in front of a refused byte the reader stands. An instance ends
/// only in a data section. A statement in which a file ends in a remark is broken so too, whether a reader has taken all of it or not.
///
/// The reading ends where a seeker has taken all bytes behind a statement up to the end of the file, where a landmark stands too far, with
/// each other refusal, and where the file ends early. Where a file ends its size tells, as far as it is known; and what is known of it bounds what is read.
pub fn log_laws()
    ensures refused { RefusedIsBroken }
    ensures told { RefusedIsTold }
    ensures wrong { WrongIsBroken }
    ensures sought { SoughtEnds }
    ensures too_far { TooFarEnds }
    ensures ended { EndedIsBroken }
    ensures last { RefusedEnds }
    ensures offends { OffendingEnds }
    ensures early { EarlyEnds }
    ensures instance { InstanceIsInData }
    ensures byte { RefusedByteStands }
    ensures unended { UnendedIsBroken }
    ensures unended_no_end { UnendedIsNoEnd }
    ensures unended_on { UnendedGoesOn }
    ensures fits { AheadFits }
    ensures all_taken { AllIsTaken }
    ensures all_passed { AllIsPassed }
{
    whole_laws();
    reader_laws();
}
