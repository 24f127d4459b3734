use p21_express_lexemes::SyntaxFault;
use p21_values::NoMemory;
use std::alloc::{AllocError, AllocFailed};
use thiserror::Error;

/// Why a text declares no schema.
#[derive(Clone, Copy, Debug, PartialEq, Eq, Error)]
pub enum SchemaFault {
    /// A byte that begins no lexeme, or a string or remark that stays open.
    #[error("a byte that begins no lexeme, or a string or remark that stays open")]
    Token,
    /// A lexeme, or the end of the text, that the grammar doesn't have there.
    #[error("a lexeme that the grammar doesn't have there")]
    Syntax,
    /// A name or a redeclaration twice.
    #[error("a name or a redeclaration twice")]
    Duplicate,
    /// A name of no entity or type, or of none that may stand there.
    #[error("a name that isn't declared")]
    UnknownName,
    /// Supertypes, renamed types or selects that come back.
    #[error("a chain of declarations that comes back")]
    Circular,
    /// A part of EXPRESS that isn't read.
    #[error("a part of the standard that is left out")]
    LeftOut,
    /// A width or bound out of range, or bounds out of order.
    #[error("a width or bound out of range")]
    Bounds,
    /// A redeclaration of no place, or of several.
    #[error("a redeclaration of no place, or of several")]
    RedeclaredPlace,
    /// A text that is too long, or has too many declarations or too deep a type.
    #[error("too long, too many or too deep")]
    TooLarge,
    #[error("out of memory")]
    NoMemory,
}

impl SchemaFault {
    ghost use Rattle.std.specs.Prelude.{◌≡◌};
    ghost use Rattle.p21_express_outline.specs.Fault.{fault_number, fault_name};

    /// The number of the refusal, as the program prints it behind `S`. It takes no memory.
    pub fn number(&self) -> u8
        ensures { result ≡ fault_number self.now }
    {
        match self {
            SchemaFault::Token => 1,
            SchemaFault::Syntax => 2,
            SchemaFault::Duplicate => 3,
            SchemaFault::UnknownName => 4,
            SchemaFault::Circular => 5,
            SchemaFault::LeftOut => 6,
            SchemaFault::Bounds => 7,
            SchemaFault::RedeclaredPlace => 8,
            SchemaFault::TooLarge => 9,
            SchemaFault::NoMemory => 90,
        }
    }

    /// The name of the refusal, as the program prints it. It takes no memory.
    pub fn name(&self) -> &'static str
        ensures { result.now ≡ fault_name self.now }
    {
        match self {
            SchemaFault::Token => "Token",
            SchemaFault::Syntax => "Syntax",
            SchemaFault::Duplicate => "Duplicate",
            SchemaFault::UnknownName => "UnknownName",
            SchemaFault::Circular => "Circular",
            SchemaFault::LeftOut => "LeftOut",
            SchemaFault::Bounds => "Bounds",
            SchemaFault::RedeclaredPlace => "RedeclaredPlace",
            SchemaFault::TooLarge => "TooLarge",
            SchemaFault::NoMemory => "NoMemory",
        }
    }
}

impl From<SyntaxFault> for SchemaFault {
    ghost use Rattle.std.specs.Prelude.{◌≡◌};
    ghost use Rattle.p21_express_outline.specs.Fault.{of_syntax};

    ghost from_gives = { λ syntax fault. fault ≡ of_syntax syntax };

    fn from(fault: SyntaxFault) -> SchemaFault {
        match fault {
            SyntaxFault::Token => SchemaFault::Token,
            SyntaxFault::Syntax => SchemaFault::Syntax,
            SyntaxFault::LeftOut => SchemaFault::LeftOut,
            SyntaxFault::Bounds => SchemaFault::Bounds,
            SyntaxFault::TooLarge => SchemaFault::TooLarge,
            SyntaxFault::NoMemory => SchemaFault::NoMemory,
        }
    }
}

impl From<NoMemory> for SchemaFault {
    ghost use Rattle.std.specs.Prelude.{◌≡◌};
    ghost use Rattle.p21_express_outline.specs.declared.fault.SchemaFault.TheVariants as fault;

    ghost from_gives = { λ _ found. found ≡ fault.NoMemory };

    fn from(_no_memory: NoMemory) -> SchemaFault {
        SchemaFault::NoMemory
    }
}

impl From<AllocError> for SchemaFault {
    ghost use Rattle.std.specs.Prelude.{◌≡◌};
    ghost use Rattle.p21_express_outline.specs.declared.fault.SchemaFault.TheVariants as fault;

    ghost from_gives = { λ _ found. found ≡ fault.NoMemory };

    fn from(_error: AllocError) -> SchemaFault {
        SchemaFault::NoMemory
    }
}

impl<T: Drop> From<AllocFailed<T>> for SchemaFault {
    ghost use Rattle.std.specs.Prelude.{◌≡◌};
    ghost use Rattle.p21_express_outline.specs.declared.fault.SchemaFault.TheVariants as fault;

    ghost from_gives = { λ _ found. found ≡ fault.NoMemory };

    fn from(_error: AllocFailed<T>) -> SchemaFault {
        SchemaFault::NoMemory
    }
}
