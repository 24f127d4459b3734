//! What a reader and a writer fail by.
use thiserror::Error;

/// A read answered an error.
#[derive(Clone, Copy, Debug, PartialEq, Eq, Error)]
#[error("read fault")]
pub struct ReadFault;

impl ReadFault {
    ghost use Rattle.std.specs.Prelude.{◌≡◌, codes};

    /// The number of the refusal, as the program prints it. It takes no memory.
    pub fn number(&self) -> u8
        ensures { result ≡ 91 }
    {
        91
    }

    /// The name of the refusal, as the program prints it. It takes no memory.
    pub fn name(&self) -> &'static str
        ensures { result.now ≡ codes "ReadFault" }
    {
        "ReadFault"
    }
}

/// A write answered an error, or took none of some bytes.
#[derive(Clone, Copy, Debug, PartialEq, Eq, Error)]
#[error("write fault")]
pub struct WriteFault;

impl WriteFault {
    ghost use Rattle.std.specs.Prelude.{◌≡◌, codes};

    /// The number of the refusal, as the program prints it. It takes no memory.
    pub fn number(&self) -> u8
        ensures { result ≡ 92 }
    {
        92
    }

    /// The name of the refusal, as the program prints it. It takes no memory.
    pub fn name(&self) -> &'static str
        ensures { result.now ≡ codes "WriteFault" }
    {
        "WriteFault"
    }
}
