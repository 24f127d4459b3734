ghost use Rattle.std.specs.Prelude.{◌≡◌};
ghost use Rattle.p21_stream_statements.specs.Location.{location_of};
ghost use Rattle.p21_stream_statements.specs.Fault.{fault_number, fault_name};

use crate::fault::Fault;
use p21_values::Name;
use std::fmt;
use thiserror::Error;

/// Where a file is refused: the number of the open statement, counted from 1, or an instance.
#[derive(Clone, Copy, Debug, PartialEq, Eq)]
pub enum At {
    Statement(u64),
    Instance(Name),
}

/// Why a file is refused, and where.
#[derive(Clone, Copy, Debug, PartialEq, Eq, Error)]
#[error("{fault} {at}")]
pub struct Refusal {
    pub fault: Fault,
    pub at: At,
}

impl fmt::Display for At {
    fn fmt<W: fmt::Write>(&self, f: &mut fmt::Formatter<W>) -> fmt::Result {
        match self {
            At::Statement(number) => write!(f, "at statement {number}"),
            At::Instance(Name(number)) => write!(f, "in #{number}"),
        }
    }
}

impl Refusal {
    /// The number of the refusal, as the program prints it. It takes no memory.
    pub fn number(&self) -> u8
        ensures { result ≡ fault_number self.now.fault }
    {
        self.fault.number()
    }

    /// The name of the refusal, as the program prints it, with what is left out in parentheses. It takes no memory.
    pub fn name(&self) -> &'static str
        ensures { result.now ≡ fault_name self.now.fault }
    {
        self.fault.name()
    }
}

impl At {
    /// Where a fault of an instance is named: a name that stands twice, a record that means nothing and a reference
    /// that isn't served name the instance, all others the statement. It takes no memory.
    pub fn of(fault: Fault, name: Name, statement: u64) -> At
        ensures { result ≡ location_of fault name statement }
    {
        match fault {
            Fault::Check(_) => At::Instance(name),
            Fault::DuplicateName => At::Instance(name),
            Fault::Dangling => At::Instance(name),
            Fault::WrongTarget => At::Instance(name),
            Fault::Token(_) => At::Statement(statement),
            Fault::Grammar(_) => At::Statement(statement),
            Fault::SchemaName => At::Statement(statement),
            Fault::SectionTwice => At::Statement(statement),
            Fault::CanonicalTooLong => At::Statement(statement),
            Fault::NoMemory => At::Statement(statement),
            Fault::Read => At::Statement(statement),
            Fault::Write => At::Statement(statement),
        }
    }
}
