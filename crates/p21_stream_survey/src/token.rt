//! One token of the next bytes, or some bytes of one.
ghost use Rattle.std.specs.Prelude.{◌≤◌, IfErr, IfOk, length};
ghost use Rattle.p21_stream_log.specs.Log.{StepKeeps};
ghost use Rattle.p21_stream_statements.specs.Source.{IsOfBytes};
ghost use Rattle.p21_stream_survey.specs.Token.{IsWindowOf, TokenGives};

use p21_grammar::Event;
use p21_stream_log::Log;
use p21_stream_statements::Fault;

/// The most bytes of a piece that are offered to the log at once: so many are copied where a statement is broken.
const WINDOW: usize = 4_096;

/// The first of some bytes that are offered to the log at once.
pub(crate) fn window_of(rest: &[u8]) -> &[u8]
    ensures { IsWindowOf rest.now result.now }
{
    if rest.len() <= WINDOW {
        return rest;
    }
    &rest[..WINDOW]
}

/// Takes some of these bytes: a token that waited for the byte behind it, and then the next one, or else one. With the `;` of a statement
/// it gives the statement.
///
/// # Errors
///
/// The reader's, and `NoMemory`.
pub(crate) fn take_token(log: &mut Log, window: &[u8]) -> Result<(usize, Option<Event>), Fault>
    ensures within { IfOk result (λ taken. taken.0 ≤ length window.now) }
    ensures kind { IfErr result (λ fault. IsOfBytes fault) }
    ensures gives { TokenGives log.old window.now result log.new }
    ensures keeps { StepKeeps log.old window.now result log.new }
{
    let (count, event) = match log.step(window) {
        Ok(taken) => taken,
        Err(fault) => return Err(fault),
    };
    if count > 0 {
        return Ok((count, event));
    }
    if let Some(event) = event {
        return Ok((count, Some(event)));
    }
    log.step(window)
}
