ghost use Rattle.std.specs.Prelude.{ℕ, ◌<◌, Bool, List, Option, length};
ghost use Rattle.dsv_outside.specs.Causes.{HasCause};
ghost use Rattle.dsv_outside.specs.Sources.{TakesFirst, TellsOver, is_failed_got};

use crate::got::Got;

/// Where bytes come from.
pub trait Source {
    /// The bytes not yet read, where the source tells them.
    ghost left: { Self → Option (List ℕ) };

    /// Whether a call has answered [`Got::End`].
    ghost over: { Self → Bool };

    /// The count of faults, a u64.
    ghost faults: { Self → ℕ };

    /// Reads into the front of `into`, which isn't empty, and answers how many bytes it read.
    ///
    /// The bytes are the first of those that were left. `End` comes only where nothing was left, and
    /// once it has come no call gives bytes. `End` and `Failed` take nothing, and `Failed` comes only
    /// where the count of faults rose. What stands in `into` behind the bytes read is left open.
    fn read(&mut self, into: &mut [u8]) -> Got
        requires { 0 < length into.old }
        ensures bytes { TakesFirst (left self.old) (left self.new) result into.new }
        ensures over { TellsOver (over self.old) (over self.new) result }
        ensures cause { HasCause (faults self.old) (faults self.new) (is_failed_got result) };
}
