//! Fault 26 keeps what is left out inside the lower fault, and 91 and 92 are named `ReadFault` and `WriteFault`. Want
//! of memory is one fault, whichever layer met it.
//!
//! `Fault::Token` holds the lexer's own faults, though two of them never come of a file: that of a text that is no
//! single parameter, which only `p21 param` answers, and want of memory, which is `NoMemory`. A type without these two
//! would repeat fourteen names, numbers and sentences. Instead each call that reads a file says in its contract that
//! they never stand in its refusal (`IsOfBytes`).
ghost use Rattle.std.specs.Prelude.{◌≡◌};
ghost use Rattle.p21_stream_statements.specs.Fault.{fault_number, fault_name};

use p21_grammar::GrammarFault;
use p21_grammar_tree::CheckFault;
use p21_tokens::TokenFault;
use p21_values::NoMemory;
use thiserror::Error;

/// Why a file is refused. Want of memory is `NoMemory` alone, whichever layer met it.
#[derive(Clone, Copy, Debug, PartialEq, Eq, Error)]
pub enum Fault {
    #[error("{0}")]
    Token(TokenFault),
    #[error("{0}")]
    Grammar(GrammarFault),
    #[error("{0}")]
    Check(CheckFault),
    #[error("not the name of the schema")]
    SchemaName,
    #[error("a section of a name that another one has")]
    SectionTwice,
    #[error("an instance of a name that another one has")]
    DuplicateName,
    #[error("too many bytes in canonical form")]
    CanonicalTooLong,
    #[error("a reference to no instance")]
    Dangling,
    #[error("a reference to an instance that isn't of the type")]
    WrongTarget,
    #[error("out of memory")]
    NoMemory,
    #[error("read fault")]
    Read,
    #[error("write fault")]
    Write,
}

impl Fault {
    /// The number of the refusal, as the program prints it. It takes no memory.
    pub fn number(&self) -> u8
        ensures { result ≡ fault_number self.now }
    {
        match self {
            Fault::Token(fault) => fault.number(),
            Fault::Grammar(fault) => fault.number(),
            Fault::Check(fault) => fault.number(),
            Fault::CanonicalTooLong => 27,
            Fault::SchemaName => 31,
            Fault::SectionTwice => 33,
            Fault::DuplicateName => 40,
            Fault::Dangling => 56,
            Fault::WrongTarget => 57,
            Fault::NoMemory => 90,
            Fault::Read => 91,
            Fault::Write => 92,
        }
    }

    /// The name of the refusal, as the program prints it, with what is left out in parentheses. It takes no memory.
    pub fn name(&self) -> &'static str
        ensures { result.now ≡ fault_name self.now }
    {
        match self {
            Fault::Token(fault) => fault.name(),
            Fault::Grammar(fault) => fault.name(),
            Fault::Check(fault) => fault.name(),
            Fault::CanonicalTooLong => "CanonicalTooLong",
            Fault::SchemaName => "SchemaName",
            Fault::SectionTwice => "SectionTwice",
            Fault::DuplicateName => "DuplicateName",
            Fault::Dangling => "Dangling",
            Fault::WrongTarget => "WrongTarget",
            Fault::NoMemory => "NoMemory",
            Fault::Read => "ReadFault",
            Fault::Write => "WriteFault",
        }
    }
}

impl From<TokenFault> for Fault {
    ghost use Rattle.std.specs.Prelude.{◌≡◌};
    ghost use Rattle.p21_stream_statements.specs.Fault.{fault_of_token};

    ghost from_gives = { λ error fault. fault ≡ fault_of_token error };

    fn from(error: TokenFault) -> Fault {
        match error {
            TokenFault::NoMemory => Fault::NoMemory,
            _ => Fault::Token(error),
        }
    }
}

impl From<GrammarFault> for Fault {
    ghost use Rattle.std.specs.Prelude.{◌≡◌};
    ghost use Rattle.p21_stream_statements.specs.Fault.{fault_of_grammar};

    ghost from_gives = { λ error fault. fault ≡ fault_of_grammar error };

    fn from(error: GrammarFault) -> Fault {
        match error {
            GrammarFault::NoMemory => Fault::NoMemory,
            _ => Fault::Grammar(error),
        }
    }
}

impl From<CheckFault> for Fault {
    ghost use Rattle.std.specs.Prelude.{◌≡◌};
    ghost use Rattle.p21_stream_statements.specs.Fault.{fault_of_check};

    ghost from_gives = { λ error fault. fault ≡ fault_of_check error };

    fn from(error: CheckFault) -> Fault {
        match error {
            CheckFault::NoMemory => Fault::NoMemory,
            _ => Fault::Check(error),
        }
    }
}

impl From<NoMemory> for Fault {
    ghost use Rattle.std.specs.Prelude.{◌≡◌};
    ghost use Rattle.p21_stream_statements.specs.declared.fault.Fault.TheVariants.{NoMemory};

    ghost from_gives = { λ _ fault. fault ≡ NoMemory };

    fn from(_error: NoMemory) -> Fault {
        Fault::NoMemory
    }
}
