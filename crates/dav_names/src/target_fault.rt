ghost use Rattle.std.specs.Prelude.{◌≡◌};
ghost use Rattle.dav_names.specs.declared.target_fault.TargetFault.TheVariants as faults;

use dsv_base::NoMemory;
use thiserror::Error;

/// Why a request target wasn't read.
#[derive(Clone, Copy, Debug, PartialEq, Eq, Error)]
pub enum TargetFault {
    /// It names no resource of the repository.
    #[error("not a target of the repository")]
    BadTarget,
    /// Want of memory.
    #[error("no memory")]
    NoMemory,
}

impl From<NoMemory> for TargetFault {
    ghost from_gives = { λ _ e. e ≡ faults.NoMemory };

    fn from(_e: NoMemory) -> TargetFault {
        TargetFault::NoMemory
    }
}
