//! Why a command gives no answer, and the line and the exit status that say so.
//!
//! A refusal's line is built in memory before any of it is written. If there is no memory for it, the line is `out of
//! memory` and the status 3.
ghost use Rattle.std.specs.Prelude.{◌≡◌};
ghost use Rattle.p21_commands.specs.Fault.{Reports};
ghost use Rattle.p21_commands.specs.Streams.{stream_of};

use crate::status::{FAILED, REFUSED};
use crate::transfer::write_whole;
use p21_stream_io::Watched;
use std::alloc::{AllocError, AllocFailed};
use std::io::Write;

/// Why a command gives no answer.
#[derive(Debug, Drop)]
pub enum CommandFault {
    /// The input is refused; the line says why.
    Refused(String),
    /// Memory ran out.
    NoMemory,
    /// A read answered an error.
    Read,
    /// A write answered an error, or took none of some bytes.
    Write,
}

impl CommandFault {
    ghost use Rattle.p21_commands.specs.Fault.{fault_line, fault_status};

    /// The line for the fault output, with the line feed behind it.
    pub fn line(&self) -> &[u8]
        ensures { result.now ≡ fault_line self.now }
    {
        match self {
            CommandFault::Refused(line) => line.as_bytes(),
            CommandFault::NoMemory => b"out of memory\n",
            CommandFault::Read => b"read fault\n",
            CommandFault::Write => b"write fault\n",
        }
    }

    /// The exit status.
    pub fn status(&self) -> u8
        ensures { result ≡ fault_status self.now }
    {
        match self {
            CommandFault::Refused(_) => REFUSED,
            _ => FAILED,
        }
    }
}

impl From<AllocError> for CommandFault {
    ghost use Rattle.p21_commands.specs.declared.fault.CommandFault.TheVariants.{NoMemory};

    ghost from_gives = { λ _ fault. fault ≡ NoMemory };

    fn from(_error: AllocError) -> CommandFault {
        CommandFault::NoMemory
    }
}

impl<T: Drop> From<AllocFailed<T>> for CommandFault {
    ghost use Rattle.p21_commands.specs.declared.fault.CommandFault.TheVariants.{NoMemory};

    ghost from_gives = { λ _ fault. fault ≡ NoMemory };

    fn from(_error: AllocFailed<T>) -> CommandFault {
        CommandFault::NoMemory
    }
}

/// Writes the line of a fault, and answers the exit status, which is that of a write fault where the line can't be
/// written.
pub fn report<F: Write>(fault: &CommandFault, faults: &mut Watched<F>) -> u8
    ensures { Reports fault.now result (stream_of F.contents faults.old faults.new) }
{
    match write_whole(faults, fault.line()) {
        Ok(()) => fault.status(),
        Err(_) => FAILED,
    }
}
