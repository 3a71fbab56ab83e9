ghost use Rattle.std.specs.Prelude.{◌≡◌, IfOk};
ghost use Rattle.dsv_base.specs.Holding.{held_bytes};

use crate::no_memory::NoMemory;
use crate::part::Part;

/// How bytes are held: by several, or by one alone where there are none, or where memory was
/// wanting for more.
#[derive(Debug)]
pub enum Held {
    Alone(Vec<u8>),
    Together(Part),
}

impl Drop for Held {
    fn drop(self) {
        match self {
            Held::Alone(_) => {}
            Held::Together(_) => {}
        }
    }
}

impl Held {
    /// The bytes as a `Vec`: moved where nobody else holds them, and copied else.
    pub fn into_vec(self) -> Result<Vec<u8>, NoMemory>
        ensures { IfOk result (λ bytes. bytes.items ≡ held_bytes self) }
    {
        match self {
            Held::Alone(bytes) => Ok(bytes),
            Held::Together(part) => part.into_vec(),
        }
    }
}
