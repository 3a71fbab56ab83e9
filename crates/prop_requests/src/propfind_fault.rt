ghost use Rattle.std.specs.Prelude.{◌≡◌};
ghost use Rattle.prop_requests.specs.declared.propfind_fault.PropfindFault.TheVariants as faults;

use dsv_base::NoMemory as WantOfMemory;

/// Why properties aren't told.
#[derive(Clone, Copy, Debug, PartialEq, Eq)]
pub enum PropfindFault {
    /// The user is shown no such node.
    NoNode,
    /// Want of memory.
    NoMemory,
}

impl From<WantOfMemory> for PropfindFault {
    ghost from_gives = { λ _ e. e ≡ faults.NoMemory };

    fn from(_e: WantOfMemory) -> PropfindFault {
        PropfindFault::NoMemory
    }
}
