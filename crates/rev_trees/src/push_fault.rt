ghost use Rattle.std.specs.Prelude.{◌≡◌};
ghost use Rattle.rev_trees.specs.declared.push_fault.PushFault.TheVariants as faults;

use dsv_base::NoMemory;
use std::alloc::{AllocError, AllocFailed};
use thiserror::Error;

/// Why a commit is not prepared.
#[derive(Clone, Copy, Debug, PartialEq, Eq, Error)]
pub enum PushFault {
    /// The change of this number, counted from 0, is the first that doesn't fit.
    #[error("change {index} does not fit")]
    Unfit { index: u32 },
    /// The youngest revision is 2,000,000,000.
    #[error("no more revisions")]
    FullRevisions,
    /// Want of memory.
    #[error("no memory")]
    NoMemory,
}

impl From<NoMemory> for PushFault {
    ghost from_gives = { λ _ e. e ≡ faults.NoMemory };

    fn from(_e: NoMemory) -> PushFault {
        PushFault::NoMemory
    }
}

impl From<AllocError> for PushFault {
    ghost from_gives = { λ _ e. e ≡ faults.NoMemory };

    fn from(_e: AllocError) -> PushFault {
        PushFault::NoMemory
    }
}

impl<T: Drop> From<AllocFailed<T>> for PushFault {
    ghost from_gives = { λ _ e. e ≡ faults.NoMemory };

    fn from(_e: AllocFailed<T>) -> PushFault {
        PushFault::NoMemory
    }
}
