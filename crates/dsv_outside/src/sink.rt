ghost use Rattle.std.specs.Prelude.{ℕ, List, Option};
ghost use Rattle.dsv_outside.specs.Causes.{HasCause};
ghost use Rattle.dsv_outside.specs.Sinks.{PutGives, is_failed_put};

use crate::put::Put;

/// Where bytes go to.
pub trait Sink {
    /// The bytes taken so far, where the sink tells them.
    ghost taken: { Self → Option (List ℕ) };

    /// The count of faults, a u64.
    ghost faults: { Self → ℕ };

    /// Appends `bytes` to what was taken.
    ///
    /// `Done` appended all of them, `Failed` some first ones or none, and `NoMemory` none. `Failed`
    /// comes only where the count of faults rose.
    fn put(&mut self, bytes: &[u8]) -> Put
        ensures bytes { PutGives (taken self.old) (taken self.new) result bytes.now }
        ensures cause { HasCause (faults self.old) (faults self.new) (is_failed_put result) };
}
