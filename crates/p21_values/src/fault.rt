use std::alloc::{AllocError, AllocFailed};
use thiserror::Error;

/// Memory ran out.
#[derive(Clone, Copy, Debug, PartialEq, Eq, Error)]
#[error("out of memory")]
pub struct NoMemory;

impl NoMemory {
    ghost use Rattle.std.specs.Prelude.{◌≡◌, codes};

    /// The number of the refusal, as the program prints it. It takes no memory.
    pub fn number(&self) -> u8
        ensures { result ≡ 90 }
    {
        90
    }

    /// The name of the refusal, as the program prints it. It takes no memory.
    pub fn name(&self) -> &'static str
        ensures { result.now ≡ codes "NoMemory" }
    {
        "NoMemory"
    }
}

/// Why bytes spell no value.
#[derive(Clone, Copy, Debug, PartialEq, Eq, Error)]
pub enum ValueFault {
    #[error("not a number of this kind")]
    BadNumber,
    #[error("a real whose exponent is out of range")]
    NumberRange,
    #[error("not a binary")]
    BadBinary,
    #[error("an instance name above 18446744073709551615")]
    NameRange,
    #[error("not an instance name")]
    BadName,
    #[error("not a keyword")]
    BadWord,
    #[error("out of memory")]
    NoMemory,
}

impl ValueFault {
    ghost use Rattle.std.specs.Prelude.{◌≡◌};
    ghost use Rattle.p21_values.specs.Fault.{fault_number, fault_name};

    /// The number of the refusal, as the program prints it. It takes no memory.
    pub fn number(&self) -> u8
        ensures { result ≡ fault_number self.now }
    {
        match self {
            ValueFault::BadNumber => 7,
            ValueFault::NumberRange => 8,
            ValueFault::BadBinary => 9,
            ValueFault::NameRange => 10,
            ValueFault::BadName => 11,
            ValueFault::BadWord => 13,
            ValueFault::NoMemory => 90,
        }
    }

    /// The name of the refusal, as the program prints it. It takes no memory.
    pub fn name(&self) -> &'static str
        ensures { result.now ≡ fault_name self.now }
    {
        match self {
            ValueFault::BadNumber => "BadNumber",
            ValueFault::NumberRange => "NumberRange",
            ValueFault::BadBinary => "BadBinary",
            ValueFault::NameRange => "NameRange",
            ValueFault::BadName => "BadName",
            ValueFault::BadWord => "BadWord",
            ValueFault::NoMemory => "NoMemory",
        }
    }
}

impl From<AllocError> for ValueFault {
    ghost use Rattle.std.specs.Prelude.{◌≡◌};
    ghost use Rattle.p21_values.specs.declared.fault.ValueFault.TheVariants.{NoMemory};

    ghost from_gives = { λ _ fault. fault ≡ NoMemory };

    fn from(_error: AllocError) -> ValueFault {
        ValueFault::NoMemory
    }
}

impl<T: Drop> From<AllocFailed<T>> for ValueFault {
    ghost use Rattle.std.specs.Prelude.{◌≡◌};
    ghost use Rattle.p21_values.specs.declared.fault.ValueFault.TheVariants.{NoMemory};

    ghost from_gives = { λ _ fault. fault ≡ NoMemory };

    fn from(_error: AllocFailed<T>) -> ValueFault {
        ValueFault::NoMemory
    }
}

impl From<AllocError> for NoMemory {
    fn from(_error: AllocError) -> NoMemory {
        NoMemory
    }
}

impl<T: Drop> From<AllocFailed<T>> for NoMemory {
    fn from(_error: AllocFailed<T>) -> NoMemory {
        NoMemory
    }
}
