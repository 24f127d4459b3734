ghost use Rattle.std.specs.Prelude.{IfOk};
ghost use Rattle.p21_spec_survey.specs.Survey.{IsGoneOnBehind};
ghost use Rattle.p21_stream_log.specs.Ending.{EndsWithin};
ghost use Rattle.p21_stream_statements.specs.Fault.{fault_number};

use crate::front::lexer_behind;
use p21_grammar::GrammarFault;
use p21_stream_statements::Fault;
use p21_tokens::TokenFault;
use p21_values::{Limits, NoMemory};
use std::alloc::Global;

/// The refusal of a file that ends behind these bytes of a statement: that of a string or a remark that is open there, or of a real out of
/// range. Else `EndsEarly`, also where the bytes are no front of a statement, or pass a limit.
///
/// # Errors
///
/// `NoMemory`.
pub fn ends_within(alloc: Global, limits: Limits, statement: &[u8]) -> Result<Fault, NoMemory>
    ensures { IfOk result (λ fault. IsGoneOnBehind (fault_number fault) → EndsWithin statement.now (fault_number fault)) }
{
    let lexer = match lexer_behind(alloc, limits, statement) {
        Ok(Some(lexer)) => lexer,
        Ok(None) => return Ok(Fault::Grammar(GrammarFault::EndsEarly)),
        Err(NoMemory) => return Err(NoMemory),
    };
    let fault = match lexer.finish() {
        Ok(_) => return Ok(Fault::Grammar(GrammarFault::EndsEarly)),
        Err(fault) => fault,
    };
    match fault {
        TokenFault::NoMemory => Err(NoMemory),
        _ => Ok(Fault::Token(fault)),
    }
}
