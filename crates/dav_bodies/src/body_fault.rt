ghost use Rattle.std.specs.Prelude.{◌≡◌};
ghost use Rattle.dav_bodies.specs.declared.body_fault.BodyFault.TheVariants as faults;

use dsv_base::{Form, NoMemory as WantOfMemory};

/// Why a body isn't read.
#[derive(Clone, Copy, Debug, PartialEq, Eq)]
pub enum BodyFault {
    /// It isn't in the grammar of its kind.
    BadBody,
    /// It is, with this form, which is left out.
    NotInProfile { form: Form },
    /// Want of memory.
    NoMemory,
}

impl From<WantOfMemory> for BodyFault {
    ghost from_gives = { λ _ e. e ≡ faults.NoMemory };

    fn from(_e: WantOfMemory) -> BodyFault {
        BodyFault::NoMemory
    }
}
