//! Why a file has no numbered file.
ghost use Rattle.std.specs.Prelude.{◌≡◌};
ghost use Rattle.p21_stream_numbered.specs.Refusals.{refusal_name, refusal_number};

use p21_stream::{Name, Refusal};

/// Why a file has no numbered file.
#[derive(Clone, Copy, Debug, PartialEq, Eq)]
pub enum NumberingRefusal {
    /// The file is refused; or its numbered file is longer than the limits allow, which is `CanonicalTooLong` too.
    Refused(Refusal),
    /// The model doesn't tell the instances of these two names apart, and they may not be exchanged.
    Alike(Name, Name),
}

impl NumberingRefusal {
    /// The number of the refusal, as the program prints it. It takes no memory.
    pub fn number(&self) -> u8
        ensures { result ≡ refusal_number self.now }
    {
        match self {
            NumberingRefusal::Refused(refusal) => refusal.fault.number(),
            NumberingRefusal::Alike(_, _) => 59,
        }
    }

    /// The name of the refusal, as the program prints it. It takes no memory.
    pub fn name(&self) -> &'static str
        ensures { result.now ≡ refusal_name self.now }
    {
        match self {
            NumberingRefusal::Refused(refusal) => refusal.fault.name(),
            NumberingRefusal::Alike(_, _) => "Alike",
        }
    }
}
