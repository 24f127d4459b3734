//! Want of memory stays possible wherever memory may run out: for a number of any length, even a bad one. The contracts
//! exclude it only between tokens, and for a text that is too long.
use p21_tokens_automaton::{Absent, Wrong};
use p21_values::{NoMemory, ValueFault};
use std::alloc::{AllocError, AllocFailed};
use thiserror::Error;

/// Why bytes are refused.
#[derive(Clone, Copy, Debug, PartialEq, Eq, Error)]
pub enum TokenFault {
    #[error("a byte that no token goes on with")]
    BadByte,
    #[error("the bytes end inside a string")]
    OpenString,
    #[error("the bytes end inside a comment")]
    OpenComment,
    #[error("a backslash that begins no control directive")]
    BadDirective,
    #[error("a code that is no character")]
    BadCodePoint,
    #[error("raw bytes of a string that aren't UTF-8")]
    NotUtf8,
    #[error("a broken number")]
    BadNumber,
    #[error("a real whose exponent is out of range")]
    NumberRange,
    #[error("a broken binary")]
    BadBinary,
    #[error("an instance name above 18446744073709551615")]
    NameRange,
    #[error("a broken instance name")]
    BadName,
    #[error("not one scalar parameter")]
    NotOneParameter,
    #[error("too many bytes in a statement")]
    RecordTooLong,
    #[error("too many bytes")]
    FileTooLong,
    #[error("the bytes end early")]
    EndsEarly,
    #[error("a part of the standard that is left out")]
    LeftOut(Absent),
    #[error("out of memory")]
    NoMemory,
}

impl TokenFault {
    ghost use Rattle.std.specs.Prelude.{◌≡◌};
    ghost use Rattle.p21_tokens.specs.Fault.{fault_number, fault_name};

    /// The number of the refusal, as the program prints it. It takes no memory.
    pub fn number(&self) -> u8
        ensures { result ≡ fault_number self.now }
    {
        match self {
            TokenFault::BadByte => 1,
            TokenFault::OpenString => 2,
            TokenFault::OpenComment => 3,
            TokenFault::BadDirective => 4,
            TokenFault::BadCodePoint => 5,
            TokenFault::NotUtf8 => 6,
            TokenFault::BadNumber => 7,
            TokenFault::NumberRange => 8,
            TokenFault::BadBinary => 9,
            TokenFault::NameRange => 10,
            TokenFault::BadName => 11,
            TokenFault::NotOneParameter => 12,
            TokenFault::RecordTooLong => 22,
            TokenFault::FileTooLong => 23,
            TokenFault::EndsEarly => 24,
            TokenFault::LeftOut(_absent) => 26,
            TokenFault::NoMemory => 90,
        }
    }

    /// The name of the refusal, as the program prints it, with what is left out in parentheses. It takes no memory.
    pub fn name(&self) -> &'static str
        ensures { result.now ≡ fault_name self.now }
    {
        match self {
            TokenFault::BadByte => "BadByte",
            TokenFault::OpenString => "OpenString",
            TokenFault::OpenComment => "OpenComment",
            TokenFault::BadDirective => "BadDirective",
            TokenFault::BadCodePoint => "BadCodePoint",
            TokenFault::NotUtf8 => "NotUtf8",
            TokenFault::BadNumber => "BadNumber",
            TokenFault::NumberRange => "NumberRange",
            TokenFault::BadBinary => "BadBinary",
            TokenFault::NameRange => "NameRange",
            TokenFault::BadName => "BadName",
            TokenFault::NotOneParameter => "NotOneParameter",
            TokenFault::RecordTooLong => "RecordTooLong",
            TokenFault::FileTooLong => "FileTooLong",
            TokenFault::EndsEarly => "EndsEarly",
            TokenFault::LeftOut(absent) => absent_name(*absent),
            TokenFault::NoMemory => "NoMemory",
        }
    }
}

fn absent_name(absent: Absent) -> &'static str
    ensures { result.now ≡ absent_name absent }
{
    match absent {
        Absent::Scope => "LeftOut(Scope)",
        Absent::ValueName => "LeftOut(ValueName)",
        Absent::ConstantName => "LeftOut(ConstantName)",
        Absent::UserKeyword => "LeftOut(UserKeyword)",
        Absent::Anchor => "LeftOut(Anchor)",
        Absent::Reference => "LeftOut(Reference)",
        Absent::Signature => "LeftOut(Signature)",
        Absent::SecondSection => "LeftOut(SecondSection)",
        Absent::NoDataSection => "LeftOut(NoDataSection)",
    }
}

ghost use Rattle.std.specs.Prelude.{◌≡◌};
ghost use Rattle.p21_tokens.specs.Fault.{absent_name, fault_of};

/// The fault of a byte.
pub(crate) fn fault_of(wrong: Wrong) -> TokenFault
    ensures { result ≡ fault_of wrong }
{
    match wrong {
        Wrong::Byte => TokenFault::BadByte,
        Wrong::Directive => TokenFault::BadDirective,
        Wrong::CodePoint => TokenFault::BadCodePoint,
        Wrong::Utf8 => TokenFault::NotUtf8,
        Wrong::Number => TokenFault::BadNumber,
        Wrong::Binary => TokenFault::BadBinary,
        Wrong::NameRange => TokenFault::NameRange,
        Wrong::Name => TokenFault::BadName,
        Wrong::LeftOut(absent) => TokenFault::LeftOut(absent),
    }
}

/// The fault of a token whose spelling a reader of values refuses.
pub(crate) fn value_fault(fault: ValueFault) -> TokenFault
    ensures { result ≡ value_fault fault }
{
    match fault {
        ValueFault::BadNumber => TokenFault::BadNumber,
        ValueFault::NumberRange => TokenFault::NumberRange,
        ValueFault::BadBinary => TokenFault::BadBinary,
        ValueFault::NameRange => TokenFault::NameRange,
        ValueFault::BadName => TokenFault::BadName,
        ValueFault::BadWord => TokenFault::BadByte,
        ValueFault::NoMemory => TokenFault::NoMemory,
    }
}

ghost use Rattle.p21_tokens.specs.Fault.{value_fault};

impl From<NoMemory> for TokenFault {
    ghost use Rattle.std.specs.Prelude.{◌≡◌};
    ghost use Rattle.p21_tokens.specs.declared.fault.TokenFault.TheVariants.{NoMemory};

    ghost from_gives = { λ _ fault. fault ≡ NoMemory };

    fn from(_error: NoMemory) -> TokenFault {
        TokenFault::NoMemory
    }
}

impl From<AllocError> for TokenFault {
    ghost use Rattle.std.specs.Prelude.{◌≡◌};
    ghost use Rattle.p21_tokens.specs.declared.fault.TokenFault.TheVariants.{NoMemory};

    ghost from_gives = { λ _ fault. fault ≡ NoMemory };

    fn from(_error: AllocError) -> TokenFault {
        TokenFault::NoMemory
    }
}

impl<T: Drop> From<AllocFailed<T>> for TokenFault {
    ghost use Rattle.std.specs.Prelude.{◌≡◌};
    ghost use Rattle.p21_tokens.specs.declared.fault.TokenFault.TheVariants.{NoMemory};

    ghost from_gives = { λ _ fault. fault ≡ NoMemory };

    fn from(_error: AllocFailed<T>) -> TokenFault {
        TokenFault::NoMemory
    }
}
