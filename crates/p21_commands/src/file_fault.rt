//! Refusals of files, as the lines of commands.
ghost use Rattle.std.specs.Prelude.{◌≡◌, IfOk, string_bytes};
ghost use Rattle.p21_commands.specs.Refusals.{IsFaultOf, refusal_line};

use crate::fault::CommandFault;
use p21_stream::{At, Fault, Refusal};
use p21_values::Name;
use std::alloc::{AllocError, Global};

/// What a command answers to a refusal.
pub(crate) fn fault_of(alloc: Global, file: &str, refusal: Refusal) -> CommandFault
    ensures { IsFaultOf file.now refusal result }
{
    match refusal.fault {
        Fault::NoMemory => CommandFault::NoMemory,
        Fault::Read => CommandFault::Read,
        Fault::Write => CommandFault::Write,
        _ => match refusal_text(alloc, file, refusal) {
            Ok(line) => CommandFault::Refused(line),
            Err(AllocError) => CommandFault::NoMemory,
        },
    }
}

/// The line that says why a file is refused, and where, behind a word for the file.
pub(crate) fn refusal_text(
    alloc: Global,
    file: &str,
    refusal: Refusal,
) -> Result<String, AllocError>
    ensures { IfOk result (λ line. string_bytes line ≡ refusal_line file.now refusal) }
{
    let number = refusal.number();
    let name = refusal.name();
    match refusal.at {
        At::Statement(statement) => format!(in alloc;
            "{file}refused {number} {name} at statement {statement}\n"
        ),
        At::Instance(Name(instance)) => {
            format!(in alloc; "{file}refused {number} {name} in #{instance}\n")
        }
    }
}
