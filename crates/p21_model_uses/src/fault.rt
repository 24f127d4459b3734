//! Why a table isn't made.

use p21_values::NoMemory;
use std::alloc::{AllocError, AllocFailed};

/// There is no memory; or there are more references than a number of 32 bits counts.
#[derive(Clone, Copy, Debug, PartialEq, Eq)]
pub enum UsersFault {
    NoMemory,
    TooMany,
}

impl From<NoMemory> for UsersFault {
    ghost use Rattle.std.specs.Prelude.{◌≡◌};
    ghost use Rattle.p21_model_uses.specs.declared.fault.UsersFault.TheVariants.{NoMemory};

    ghost from_gives = { λ _ fault. fault ≡ NoMemory };

    fn from(_: NoMemory) -> UsersFault {
        UsersFault::NoMemory
    }
}

impl From<AllocError> for UsersFault {
    ghost use Rattle.std.specs.Prelude.{◌≡◌};
    ghost use Rattle.p21_model_uses.specs.declared.fault.UsersFault.TheVariants.{NoMemory};

    ghost from_gives = { λ _ fault. fault ≡ NoMemory };

    fn from(_: AllocError) -> UsersFault {
        UsersFault::NoMemory
    }
}

impl<T: Drop> From<AllocFailed<T>> for UsersFault {
    ghost use Rattle.std.specs.Prelude.{◌≡◌};
    ghost use Rattle.p21_model_uses.specs.declared.fault.UsersFault.TheVariants.{NoMemory};

    ghost from_gives = { λ _ fault. fault ≡ NoMemory };

    fn from(_: AllocFailed<T>) -> UsersFault {
        UsersFault::NoMemory
    }
}
