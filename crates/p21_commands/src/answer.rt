//! The answer of a command.
ghost use Rattle.p21_commands.specs.Command.{AnswersWith};
ghost use Rattle.p21_commands.specs.Streams.{stream_of};

use crate::fault::report;
use crate::status::DONE;
use crate::transfer::write_whole;
use p21_stream_io::Watched;
use std::io::Write;

/// Writes an answer to `output`, or to `faults` the line of a write fault, and answers the exit status.
pub(crate) fn answer<W: Write, F: Write>(
    line: &[u8],
    output: &mut Watched<W>,
    faults: &mut Watched<F>,
) -> u8
    ensures { AnswersWith line.now result (stream_of W.contents output.old output.new) (stream_of F.contents faults.old faults.new) }
{
    match write_whole(output, line) {
        Ok(()) => DONE,
        Err(fault) => report(&fault, faults),
    }
}
