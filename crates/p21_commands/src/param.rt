//! The command `param`.
//!
//! `p21 param` reads one byte past the limit of a text, and no more. So a text that is too long is refused before all
//! of it is read.
ghost use Rattle.std.specs.Prelude.{◌≡◌, [], ◌∷◌, IfErr, IfOk, MatchResult, OnOk, string_bytes};
ghost use Rattle.p21_commands.specs.Command.{EndsOver};
ghost use Rattle.p21_commands.specs.Failures.{FailedBy, failures_of};
ghost use Rattle.p21_commands.specs.Param.{IsAnswerLine, IsAnswered, IsParamRefused, IsRefusalLine, refusal_line};
ghost use Rattle.p21_commands.specs.Refusing.{RefusesBy, RefusesWith};
ghost use Rattle.p21_commands.specs.Streams.{stream_of};
ghost use Rattle.p21_commands.specs.Transfer.{ConsumesAtMost};

use crate::answer::answer;
use crate::fault::{CommandFault, report};
use crate::transfer::read_text;
use p21_stream_io::Watched;
use p21_tokens::{TokenFault, canonical_param};
use std::alloc::{AllocError, Global};
use std::io::{Read, Write};

/// Writes to `output` the canonical spelling of the scalar parameter that `input` holds, and a line feed; or to
/// `faults` one line that says why there is none. Answers the exit status.
pub fn param_command<R: Read, W: Write, F: Write>(
    alloc: Global,
    input: &mut Watched<R>,
    output: &mut Watched<W>,
    faults: &mut Watched<F>,
) -> u8
    ensures consumed { ConsumesAtMost (R.remaining input.old.inner) (R.remaining input.new.inner) }
    ensures ends { EndsOver IsAnswered IsParamRefused (record {
      input = stream_of R.remaining input.old input.new;
      output = stream_of W.contents output.old output.new;
      faults = stream_of F.contents faults.old faults.new;
    }) result }
{
    match param_line(alloc, input) {
        Ok(line) => answer(&line, output, faults),
        Err(fault) => report(&fault, faults),
    }
}

/// The canonical spelling of the parameter that `input` holds, and a line feed.
fn param_line<R: Read>(alloc: Global, input: &mut Watched<R>) -> Result<Vec<u8>, CommandFault>
    ensures consumed { ConsumesAtMost (R.remaining input.old.inner) (R.remaining input.new.inner) }
    ensures ok { IfOk result (λ line. IsAnswered (R.remaining input.old.inner) line.items) }
    ensures err { IfErr result (RefusesWith (IsParamRefused (R.remaining input.old.inner))) }

    ensures read { OnOk result (input.new.failures ≡ input.old.failures) }
    ensures failed { IfErr result (FailedBy (failures_of input.old input.new ∷ []) []) }
{
    let text = read_text(alloc, input)?;
    param_answer_line(alloc, &text)
}

/// The canonical spelling of the parameter that a text holds, and a line feed.
fn param_answer_line(alloc: Global, text: &[u8]) -> Result<Vec<u8>, CommandFault>
    ensures { MatchResult result (λ line. IsAnswerLine text.now line.items) (RefusesBy IsRefusalLine text.now) }
{
    match canonical_param(alloc, text) {
        Ok(mut line) => {
            line.push(b'\n')?;
            Ok(line)
        }
        Err(TokenFault::NoMemory) => Err(CommandFault::NoMemory),
        Err(fault) => Err(CommandFault::Refused(refusal_text(alloc, fault)?)),
    }
}

/// The line that says why a text is refused.
fn refusal_text(alloc: Global, fault: TokenFault) -> Result<String, AllocError>
    ensures { IfOk result (λ line. string_bytes line ≡ refusal_line fault) }
{
    let number = fault.number();
    let name = fault.name();
    format!(in alloc; "refused {number} {name}\n")
}
