ghost use Rattle.std.specs.Prelude.{◌≡◌};
ghost use Rattle.dsv_base.specs.declared.path_fault.PathFault.TheVariants as faults;

use crate::no_memory::NoMemory;
use thiserror::Error;

/// Why a text is not taken as a path.
#[derive(Clone, Copy, Debug, PartialEq, Eq, Error)]
pub enum PathFault {
    /// The text is no path of a repository.
    #[error("not a path")]
    BadPath,
    /// Want of memory.
    #[error("no memory")]
    NoMemory,
}

impl From<NoMemory> for PathFault {
    ghost from_gives = { λ _ e. e ≡ faults.NoMemory };

    fn from(_e: NoMemory) -> PathFault {
        PathFault::NoMemory
    }
}
