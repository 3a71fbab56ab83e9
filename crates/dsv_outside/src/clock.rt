ghost use Rattle.std.specs.Prelude.{ℕ, List, Option, [], ◌∷◌};
ghost use Rattle.dsv_outside.specs.Clocks.{Reads};

use dsv_base::Moment;

/// What tells the time.
pub trait Clock {
    /// The moments told so far, in order, where these are known. They may stop being known once they
    /// are as many as a u64 can count, and then stay unknown.
    ghost readings: { Self → Option (List ℕ) };

    /// The present moment. It can't fail. A later moment may be an earlier one in time.
    fn now(&mut self) -> Moment
        ensures reading { Reads (readings self.old) (readings self.new) (result ∷ []) };
}
