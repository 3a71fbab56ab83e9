ghost use Rattle.std.specs.Prelude.{◌≡◌};
ghost use Rattle.dav_elements.specs.declared.unread.Unread.TheVariants as faults;

use dsv_base::NoMemory as WantOfMemory;
use std::alloc::{AllocError, AllocFailed};

/// Why a text isn't read.
#[derive(Clone, Copy, Debug, PartialEq, Eq)]
pub enum Unread {
    /// It isn't in the grammar.
    Bad,
    /// Want of memory.
    NoMemory,
}

impl From<WantOfMemory> for Unread {
    ghost from_gives = { λ _ e. e ≡ faults.NoMemory };

    fn from(_e: WantOfMemory) -> Unread {
        Unread::NoMemory
    }
}

impl From<AllocError> for Unread {
    ghost from_gives = { λ _ e. e ≡ faults.NoMemory };

    fn from(_e: AllocError) -> Unread {
        Unread::NoMemory
    }
}

impl<T: Drop> From<AllocFailed<T>> for Unread {
    ghost from_gives = { λ _ e. e ≡ faults.NoMemory };

    fn from(_e: AllocFailed<T>) -> Unread {
        Unread::NoMemory
    }
}
