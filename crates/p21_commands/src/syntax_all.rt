//! The command `syntax --all`: as `check --all`, of a file by itself.
ghost use Rattle.std.specs.Prelude.{◌≡◌, IfOk, OnErr};
ghost use Rattle.p21_spec_basics.specs.Limits.{usual};
ghost use Rattle.p21_commands.specs.CheckAll.{IsLeftBy};
ghost use Rattle.p21_commands.specs.Failures.{failures_of};
ghost use Rattle.p21_commands.specs.Streams.{stream_of};
ghost use Rattle.p21_commands.specs.SyntaxAll.{AnswersAlone, EndsListingAlone, IsReadAloneBy};
ghost use Rattle.p21_stream.specs.ReaderInput.{ConsumesAtMost};

use crate::answer::answer;
use crate::check_all::{RefusedLines, lines_of, write_refused};
use crate::fault::{CommandFault, report};
use crate::syntax::{Details, told_text};
use p21_stream::{SurveyedAlone, Watched, survey_alone};
use p21_values::{Limits, NoMemory};
use std::alloc::Global;
use std::io::{Read, Write};

/// What a survey of a file by itself has to say.
#[derive(Drop)]
enum Answer {
    /// What is told of a file that is well formed.
    Told(Vec<u8>),
    /// What is refused of one that isn't.
    Refused(RefusedLines),
}

/// Reads a file by itself, without a schema, and writes to `output` what `syntax_command` does where the file is well formed; or to
/// `faults` a line for each refusal that a survey lists, up to so many, and one that counts them. Answers the exit status.
pub fn syntax_all_command<R: Read, W: Write, F: Write>(
    alloc: Global,
    file: &mut Watched<R>,
    details: Details,
    most: u64,
    output: &mut Watched<W>,
    faults: &mut Watched<F>,
) -> u8
    ensures consumed { ConsumesAtMost usual (R.remaining file.old.inner) (R.remaining file.new.inner) }
    ensures ends { EndsListingAlone details most (record {
      input = stream_of R.remaining file.old file.new;
      output = stream_of W.contents output.old output.new;
      faults = stream_of F.contents faults.old faults.new;
    }) result }
{
    match find_answer(alloc, file, details, most) {
        Ok(Answer::Told(text)) => answer(&text, output, faults),
        Ok(Answer::Refused(said)) => write_refused(said, faults),
        Err(NoMemory) => report(&CommandFault::NoMemory, faults),
    }
}

/// Reads a file, and gives what the survey has to say.
fn find_answer<R: Read>(
    alloc: Global,
    file: &mut Watched<R>,
    details: Details,
    most: u64,
) -> Result<Answer, NoMemory>
    ensures ok { IfOk result (AnswersAlone details most (R.remaining file.old.inner) (R.remaining file.new.inner)) }
    ensures consumed { ConsumesAtMost usual (R.remaining file.old.inner) (R.remaining file.new.inner) }

    ensures read { IfOk result (IsReadAloneBy (failures_of file.old file.new)) }
    ensures failed { OnErr result (IsLeftBy (failures_of file.old file.new)) }
{
    let found = match survey_alone(alloc, Limits::usual(), most, file) {
        Ok(found) => found,
        Err(NoMemory) => return Err(NoMemory),
    };
    match found {
        SurveyedAlone::WellFormed(well_formed) => {
            let text = told_text(alloc, &well_formed, details)?;
            Ok(Answer::Told(text))
        }
        SurveyedAlone::Refused(refusals) => {
            let said = lines_of(alloc, &refusals)?;
            Ok(Answer::Refused(said))
        }
    }
}
