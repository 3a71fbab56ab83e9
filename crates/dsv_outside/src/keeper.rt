ghost use Rattle.std.specs.Prelude.{ℕ, ◌≡◌, List, Option};
ghost use Rattle.dsv_outside.specs.Causes.{HasCause};
ghost use Rattle.dsv_outside.specs.Keepers.{kept_after};
ghost use Rattle.dsv_outside.specs.Sinks.{is_failed_put};

use crate::put::Put;
use dsv_base::Rev;

/// Where the texts of new revisions are kept.
pub trait Keeper {
    /// The numbers with their texts kept so far, in order, where the keeper tells them.
    ghost kept: { Self → Option (List (ℕ × List ℕ)) };

    /// The count of faults, a u64.
    ghost faults: { Self → ℕ };

    /// Keeps `text`, the item of the revision `number` in a script.
    ///
    /// `Done` appends the pair. `Failed` and `NoMemory` leave what is kept as it was, and `Failed`
    /// comes only where the count of faults rose.
    fn keep(&mut self, number: Rev, text: &[u8]) -> Put
        ensures pairs { kept self.new ≡ kept_after result number text.now (kept self.old) }
        ensures cause { HasCause (faults self.old) (faults self.new) (is_failed_put result) };
}
