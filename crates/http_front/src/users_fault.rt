ghost use Rattle.std.specs.Prelude.{◌≡◌};
ghost use Rattle.http_front.specs.declared.users_fault.UsersFault.TheVariants as faults;

use dsv_base::NoMemory;
use std::alloc::{AllocError, AllocFailed};
use thiserror::Error;

/// Why a users file was not read. Lines are counted from 1.
#[derive(Clone, Copy, Debug, PartialEq, Eq, Error)]
pub enum UsersFault {
    /// The line is no user, is a second one of its name, or is the 10,001st.
    #[error("line {line}: not a user, a name twice, or too many users")]
    BadUsers { line: u32 },
    /// Want of memory.
    #[error("no memory")]
    NoMemory,
}

impl From<NoMemory> for UsersFault {
    ghost from_gives = { λ _ e. e ≡ faults.NoMemory };

    fn from(_e: NoMemory) -> UsersFault {
        UsersFault::NoMemory
    }
}

impl From<AllocError> for UsersFault {
    ghost from_gives = { λ _ e. e ≡ faults.NoMemory };

    fn from(_e: AllocError) -> UsersFault {
        UsersFault::NoMemory
    }
}

impl<T: Drop> From<AllocFailed<T>> for UsersFault {
    ghost from_gives = { λ _ e. e ≡ faults.NoMemory };

    fn from(_e: AllocFailed<T>) -> UsersFault {
        UsersFault::NoMemory
    }
}
