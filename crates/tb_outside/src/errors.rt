ghost use Rattle.std.specs.Prelude.{◌≡◌};
ghost use Rattle.tb_outside.specs.declared.errors.Trouble.TheVariants.{Failed, NoMemory};

use std::alloc::{AllocError, AllocFailed};
use thiserror::Error;

/// A call to the outside failed, and the object's count of faults rose.
#[derive(Clone, Copy, Debug, PartialEq, Eq, Error)]
#[error("a call to the outside failed")]
pub struct Failed;

/// Why a call to the outside gives no answer.
#[derive(Clone, Copy, Debug, PartialEq, Eq, Error)]
pub enum Trouble {
    /// The call failed, and the object's count of faults rose.
    #[error("a call to the outside failed")]
    Failed,
    /// Memory was refused. No count rose, and what the object tells stands as it was; the call may have had its number.
    #[error("out of memory")]
    NoMemory,
}

impl From<AllocError> for Trouble {
    ghost from_gives = { λ _ e. e ≡ NoMemory };

    fn from(_: AllocError) -> Self {
        Trouble::NoMemory
    }
}

impl<T: Drop> From<AllocFailed<T>> for Trouble {
    ghost from_gives = { λ _ e. e ≡ NoMemory };

    fn from(_: AllocFailed<T>) -> Self {
        Trouble::NoMemory
    }
}

impl From<tb_text::NoMemory> for Trouble {
    ghost from_gives = { λ _ e. e ≡ NoMemory };

    fn from(_: tb_text::NoMemory) -> Self {
        Trouble::NoMemory
    }
}

impl From<Failed> for Trouble {
    ghost from_gives = { λ _ e. e ≡ Failed };

    fn from(_: Failed) -> Self {
        Trouble::Failed
    }
}
