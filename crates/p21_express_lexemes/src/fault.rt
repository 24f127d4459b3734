use std::alloc::{AllocError, AllocFailed};
use thiserror::Error;

/// Why a schema text is refused before its names are resolved.
#[derive(Clone, Copy, Debug, PartialEq, Eq, Error)]
pub enum SyntaxFault {
    /// A byte that begins no lexeme, or a string or remark that stays open.
    #[error("a byte that begins no lexeme, or a string or remark that stays open")]
    Token,
    /// A lexeme, or the end of the text, that the grammar doesn't have there.
    #[error("a lexeme that the grammar doesn't have there")]
    Syntax,
    /// A part of EXPRESS that isn't read.
    #[error("a part of the standard that is left out")]
    LeftOut,
    /// A width or bound out of range, or bounds out of order.
    #[error("a width or bound out of range")]
    Bounds,
    /// A text that is too long, or has too many declarations or too deep a type.
    #[error("too long, too many or too deep")]
    TooLarge,
    #[error("out of memory")]
    NoMemory,
}

/// What the grammar wants where another lexeme stands, or none.
#[derive(Clone, Copy)]
pub enum Wanted {
    /// Any lexeme but those below.
    Grammar,
    Bound,
    Width,
    /// What stands behind the digits of a bound or width.
    BehindDigits,
    SelectList,
}

impl SyntaxFault {
    ghost use Rattle.std.specs.Prelude.{◌≡◌};
    ghost use Rattle.p21_express_lexemes.specs.Fault.{fault_number, fault_name};

    /// The number of the refusal, as the program prints it.
    pub fn number(&self) -> u8
        ensures { result ≡ fault_number self.now }
    {
        match self {
            SyntaxFault::Token => 1,
            SyntaxFault::Syntax => 2,
            SyntaxFault::LeftOut => 6,
            SyntaxFault::Bounds => 7,
            SyntaxFault::TooLarge => 9,
            SyntaxFault::NoMemory => 90,
        }
    }

    /// The name of the refusal, as the program prints it.
    pub fn name(&self) -> &'static str
        ensures { result.now ≡ fault_name self.now }
    {
        match self {
            SyntaxFault::Token => "Token",
            SyntaxFault::Syntax => "Syntax",
            SyntaxFault::LeftOut => "LeftOut",
            SyntaxFault::Bounds => "Bounds",
            SyntaxFault::TooLarge => "TooLarge",
            SyntaxFault::NoMemory => "NoMemory",
        }
    }
}

impl From<AllocError> for SyntaxFault {
    ghost use Rattle.std.specs.Prelude.{◌≡◌};
    ghost use Rattle.p21_express_lexemes.specs.declared.fault.SyntaxFault.TheVariants.{NoMemory};

    ghost from_gives = { λ _ fault. fault ≡ NoMemory };

    fn from(_error: AllocError) -> SyntaxFault {
        SyntaxFault::NoMemory
    }
}

impl<T: Drop> From<AllocFailed<T>> for SyntaxFault {
    ghost use Rattle.std.specs.Prelude.{◌≡◌};
    ghost use Rattle.p21_express_lexemes.specs.declared.fault.SyntaxFault.TheVariants.{NoMemory};

    ghost from_gives = { λ _ fault. fault ≡ NoMemory };

    fn from(_error: AllocFailed<T>) -> SyntaxFault {
        SyntaxFault::NoMemory
    }
}
