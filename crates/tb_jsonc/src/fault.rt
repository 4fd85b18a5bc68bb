ghost use Rattle.std.specs.Prelude.{◌≡◌};

use std::alloc::{AllocError, AllocFailed};
use thiserror::Error;

/// Why a text is not read.
#[derive(Clone, Copy, Debug, PartialEq, Eq, Error)]
pub enum JsonFault {
    /// A comment has no end, the bytes are not UTF-8, or what is left is no JSON.
    #[error("not readable")]
    Unreadable,
    #[error("out of memory")]
    NoMemory,
}

impl From<AllocError> for JsonFault {
    ghost use Rattle.tb_jsonc.specs.declared.fault.JsonFault.TheVariants.{NoMemory};

    ghost from_gives = { λ _ e. e ≡ NoMemory };

    fn from(_: AllocError) -> Self {
        JsonFault::NoMemory
    }
}

impl<T: Drop> From<AllocFailed<T>> for JsonFault {
    ghost use Rattle.tb_jsonc.specs.declared.fault.JsonFault.TheVariants.{NoMemory};

    ghost from_gives = { λ _ e. e ≡ NoMemory };

    fn from(_: AllocFailed<T>) -> Self {
        JsonFault::NoMemory
    }
}
