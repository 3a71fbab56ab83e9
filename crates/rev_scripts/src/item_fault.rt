ghost use Rattle.std.specs.Prelude.{◌≡◌};
ghost use Rattle.rev_scripts.specs.declared.item_fault.ItemFault.TheVariants as faults;
ghost use Rattle.rev_scripts.specs.Steps.{fault_at};

use crate::script_fault::ScriptFault;
use dsv_base::NoMemory;
use std::alloc::{AllocError, AllocFailed};

/// Why a part of a script is not read, before its line is known.
#[derive(Clone, Copy, Debug, PartialEq, Eq)]
pub enum ItemFault {
    /// It is not in the grammar.
    Bad,
    /// Want of memory.
    NoMemory,
}

impl ItemFault {
    /// The fault of the item that begins at this line.
    pub fn at(self, line: u32) -> ScriptFault
        ensures { result ≡ fault_at line self }
    {
        match self {
            ItemFault::Bad => ScriptFault::BadScript { line },
            ItemFault::NoMemory => ScriptFault::NoMemory,
        }
    }
}

impl From<NoMemory> for ItemFault {
    ghost from_gives = { λ _ e. e ≡ faults.NoMemory };

    fn from(_e: NoMemory) -> ItemFault {
        ItemFault::NoMemory
    }
}

impl From<AllocError> for ItemFault {
    ghost from_gives = { λ _ e. e ≡ faults.NoMemory };

    fn from(_e: AllocError) -> ItemFault {
        ItemFault::NoMemory
    }
}

impl<T: Drop> From<AllocFailed<T>> for ItemFault {
    ghost from_gives = { λ _ e. e ≡ faults.NoMemory };

    fn from(_e: AllocFailed<T>) -> ItemFault {
        ItemFault::NoMemory
    }
}
