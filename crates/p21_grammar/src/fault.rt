//! Fault 26 is one variant, `LeftOut(part)`, whose name has the part in parentheses: `LeftOut(Scope)`. So a caller can
//! tell the parts apart by the type, and they share one number.
use p21_tokens::{Absent, TokenFault};
use std::alloc::{AllocError, AllocFailed};
use thiserror::Error;

/// Why tokens are refused.
#[derive(Clone, Copy, Debug, PartialEq, Eq, Error)]
pub enum GrammarFault {
    #[error("a token with which no statement continues")]
    Unexpected,
    #[error("lists and typed parameters nested too deep")]
    TooDeep,
    #[error("the tokens end early")]
    EndsEarly,
    #[error("a token after the end of the file")]
    AfterEnd,
    #[error("a part of the standard that is left out")]
    LeftOut(Absent),
    #[error("not the header that a file has")]
    HeaderShape,
    #[error("not a name and a list of one schema")]
    SectionShape,
    #[error("out of memory")]
    NoMemory,
}

impl GrammarFault {
    ghost use Rattle.std.specs.Prelude.{◌≡◌};
    ghost use Rattle.p21_grammar.specs.Fault.{fault_number, fault_name};

    /// The number of the refusal, as the program prints it. It takes no memory.
    pub fn number(&self) -> u8
        ensures { result ≡ fault_number self.now }
    {
        match self {
            GrammarFault::Unexpected => 20,
            GrammarFault::TooDeep => 21,
            GrammarFault::EndsEarly => 24,
            GrammarFault::AfterEnd => 25,
            GrammarFault::LeftOut(_absent) => 26,
            GrammarFault::HeaderShape => 30,
            GrammarFault::SectionShape => 32,
            GrammarFault::NoMemory => 90,
        }
    }

    /// The name of the refusal, as the program prints it, with what is left out in parentheses. It takes no memory.
    pub fn name(&self) -> &'static str
        ensures { result.now ≡ fault_name self.now }
    {
        match self {
            GrammarFault::Unexpected => "Unexpected",
            GrammarFault::TooDeep => "TooDeep",
            GrammarFault::EndsEarly => "EndsEarly",
            GrammarFault::AfterEnd => "AfterEnd",
            GrammarFault::LeftOut(absent) => TokenFault::LeftOut(*absent).name(),
            GrammarFault::HeaderShape => "HeaderShape",
            GrammarFault::SectionShape => "SectionShape",
            GrammarFault::NoMemory => "NoMemory",
        }
    }
}

impl<T: Drop> From<AllocFailed<T>> for GrammarFault {
    ghost use Rattle.std.specs.Prelude.{◌≡◌};
    ghost use Rattle.p21_grammar.specs.declared.fault.GrammarFault.TheVariants.{NoMemory};

    ghost from_gives = { λ _ fault. fault ≡ NoMemory };

    fn from(_error: AllocFailed<T>) -> GrammarFault {
        GrammarFault::NoMemory
    }
}

impl From<AllocError> for GrammarFault {
    ghost use Rattle.std.specs.Prelude.{◌≡◌};
    ghost use Rattle.p21_grammar.specs.declared.fault.GrammarFault.TheVariants.{NoMemory};

    ghost from_gives = { λ _ fault. fault ≡ NoMemory };

    fn from(_error: AllocError) -> GrammarFault {
        GrammarFault::NoMemory
    }
}
