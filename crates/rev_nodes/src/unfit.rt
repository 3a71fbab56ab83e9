ghost use Rattle.std.specs.Prelude.{◌≡◌};
ghost use Rattle.rev_nodes.specs.declared.unfit.Unfit.TheVariants as whys;

use dsv_base::NoMemory;
use std::alloc::{AllocError, AllocFailed};
use thiserror::Error;

/// Why a change doesn't fit a tree: the first of these conditions that fails, in this order.
#[derive(Clone, Copy, Debug, PartialEq, Eq, Error)]
pub enum Unfit {
    /// Nothing is at the path, or at the source of a copy.
    #[error("no node")]
    NoNode,
    /// The root can't be deleted.
    #[error("the root")]
    IsRoot,
    /// Something stands at the path where a new node is to stand.
    #[error("something is there")]
    Exists,
    /// The parent of a new node is no directory.
    #[error("no parent")]
    NoParent,
    /// A path that would arise is none: it has too many bytes or components.
    #[error("too long")]
    TooLong,
    /// Want of memory.
    #[error("no memory")]
    NoMemory,
}

impl From<NoMemory> for Unfit {
    ghost from_gives = { λ _ e. e ≡ whys.NoMemory };

    fn from(_e: NoMemory) -> Unfit {
        Unfit::NoMemory
    }
}

impl From<AllocError> for Unfit {
    ghost from_gives = { λ _ e. e ≡ whys.NoMemory };

    fn from(_e: AllocError) -> Unfit {
        Unfit::NoMemory
    }
}

impl<T: Drop> From<AllocFailed<T>> for Unfit {
    ghost from_gives = { λ _ e. e ≡ whys.NoMemory };

    fn from(_e: AllocFailed<T>) -> Unfit {
        Unfit::NoMemory
    }
}
