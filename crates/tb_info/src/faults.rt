ghost use Rattle.std.specs.Prelude.{◌≡◌};
ghost use Rattle.tb_info.specs.declared.faults.Unread.TheVariants.{NoMemory};

use std::alloc::{AllocError, AllocFailed};

/// Why a part of an info is not read.
#[derive(Clone, Copy, Debug, PartialEq, Eq)]
pub(crate) enum Unread {
    NotRead,
    NoMemory,
}

impl From<AllocError> for Unread {
    ghost from_gives = { λ _ e. e ≡ NoMemory };

    fn from(_: AllocError) -> Self {
        Unread::NoMemory
    }
}

impl<T: Drop> From<AllocFailed<T>> for Unread {
    ghost from_gives = { λ _ e. e ≡ NoMemory };

    fn from(_: AllocFailed<T>) -> Self {
        Unread::NoMemory
    }
}

impl From<tb_text::NoMemory> for Unread {
    ghost from_gives = { λ _ e. e ≡ NoMemory };

    fn from(_: tb_text::NoMemory) -> Self {
        Unread::NoMemory
    }
}
