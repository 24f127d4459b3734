ghost use Rattle.std.specs.Prelude.{◌≡◌};
ghost use Rattle.p21_grammar_tree.specs.Fault.{value_fault};

use p21_values::{NoMemory, ValueFault};
use std::alloc::{AllocError, AllocFailed};
use thiserror::Error;

/// Why a record doesn't fit its schema.
#[derive(Clone, Copy, Debug, PartialEq, Eq, Error)]
pub enum CheckFault {
    #[error("an INTEGER at a NUMBER whose exponent is out of range")]
    NumberRange,
    #[error("a keyword of no entity")]
    UnknownEntity,
    #[error("an instance of an abstract entity")]
    Abstract,
    #[error("a part is missing")]
    PartMissing,
    #[error("a part stands twice")]
    PartTwice,
    #[error("another number of parameters than of attributes")]
    Count,
    #[error("no value where one is wanted")]
    Missing,
    #[error("`*` where nothing is derived")]
    StarNotDerived,
    #[error("another parameter than `*` at a derived attribute")]
    DerivedNotStar,
    #[error("a parameter of a kind that the type doesn't take")]
    WrongKind,
    #[error("more characters or bits than the type allows")]
    Width,
    #[error("another number of elements than the bounds allow")]
    Bounds,
    #[error("two elements are the same")]
    NotDistinct,
    #[error("no item of the type")]
    UnknownItem,
    #[error("nothing that the select offers")]
    SelectType,
    #[error("two redeclarations of an attribute, of which none decides")]
    TwoRedeclarations,
    #[error("two entities of one ONEOF list")]
    OneOf,
    #[error("out of memory")]
    NoMemory,
}

impl CheckFault {
    ghost use Rattle.p21_grammar_tree.specs.Fault.{fault_number, fault_name};

    /// The number of the refusal, as the program prints it. It takes no memory.
    pub fn number(&self) -> u8
        ensures { result ≡ fault_number self.now }
    {
        match self {
            CheckFault::NumberRange => 8,
            CheckFault::UnknownEntity => 41,
            CheckFault::Abstract => 42,
            CheckFault::PartMissing => 43,
            CheckFault::PartTwice => 44,
            CheckFault::Count => 45,
            CheckFault::Missing => 46,
            CheckFault::StarNotDerived => 47,
            CheckFault::DerivedNotStar => 48,
            CheckFault::WrongKind => 49,
            CheckFault::Width => 50,
            CheckFault::Bounds => 51,
            CheckFault::NotDistinct => 52,
            CheckFault::UnknownItem => 53,
            CheckFault::SelectType => 54,
            CheckFault::TwoRedeclarations => 55,
            CheckFault::OneOf => 58,
            CheckFault::NoMemory => 90,
        }
    }

    /// The name of the refusal, as the program prints it. It takes no memory.
    pub fn name(&self) -> &'static str
        ensures { result.now ≡ fault_name self.now }
    {
        match self {
            CheckFault::NumberRange => "NumberRange",
            CheckFault::UnknownEntity => "UnknownEntity",
            CheckFault::Abstract => "Abstract",
            CheckFault::PartMissing => "PartMissing",
            CheckFault::PartTwice => "PartTwice",
            CheckFault::Count => "Count",
            CheckFault::Missing => "Missing",
            CheckFault::StarNotDerived => "StarNotDerived",
            CheckFault::DerivedNotStar => "DerivedNotStar",
            CheckFault::WrongKind => "WrongKind",
            CheckFault::Width => "Width",
            CheckFault::Bounds => "Bounds",
            CheckFault::NotDistinct => "NotDistinct",
            CheckFault::UnknownItem => "UnknownItem",
            CheckFault::SelectType => "SelectType",
            CheckFault::TwoRedeclarations => "TwoRedeclarations",
            CheckFault::OneOf => "OneOf",
            CheckFault::NoMemory => "NoMemory",
        }
    }
}

/// The fault of a number that no value of the type is. A record keeps numbers that are read already, so that none is of a
/// broken form.
fn value_fault(fault: ValueFault) -> CheckFault
    ensures { result ≡ value_fault fault }
{
    match fault {
        ValueFault::NumberRange => CheckFault::NumberRange,
        ValueFault::NoMemory => CheckFault::NoMemory,
        ValueFault::BadNumber
        | ValueFault::BadBinary
        | ValueFault::NameRange
        | ValueFault::BadName
        | ValueFault::BadWord => CheckFault::WrongKind,
    }
}

impl From<ValueFault> for CheckFault {
    ghost use Rattle.std.specs.Prelude.{◌≡◌};
    ghost use Rattle.p21_grammar_tree.specs.Fault.{value_fault};

    ghost from_gives = { λ error fault. fault ≡ value_fault error };

    fn from(error: ValueFault) -> CheckFault {
        value_fault(error)
    }
}

impl From<NoMemory> for CheckFault {
    ghost use Rattle.std.specs.Prelude.{◌≡◌};
    ghost use Rattle.p21_grammar_tree.specs.declared.fault.CheckFault.TheVariants.{NoMemory};

    ghost from_gives = { λ _ fault. fault ≡ NoMemory };

    fn from(_error: NoMemory) -> CheckFault {
        CheckFault::NoMemory
    }
}

impl From<AllocError> for CheckFault {
    ghost use Rattle.std.specs.Prelude.{◌≡◌};
    ghost use Rattle.p21_grammar_tree.specs.declared.fault.CheckFault.TheVariants.{NoMemory};

    ghost from_gives = { λ _ fault. fault ≡ NoMemory };

    fn from(_error: AllocError) -> CheckFault {
        CheckFault::NoMemory
    }
}

impl<T: Drop> From<AllocFailed<T>> for CheckFault {
    ghost use Rattle.std.specs.Prelude.{◌≡◌};
    ghost use Rattle.p21_grammar_tree.specs.declared.fault.CheckFault.TheVariants.{NoMemory};

    ghost from_gives = { λ _ fault. fault ≡ NoMemory };

    fn from(_error: AllocFailed<T>) -> CheckFault {
        CheckFault::NoMemory
    }
}
