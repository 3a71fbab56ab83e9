ghost use Rattle.std.specs.Prelude.{ℕ, ◌≡◌, true, false};
ghost use Rattle.dsv_outside.specs.Causes.{HasCause};
ghost use Rattle.dsv_outside.specs.DoorStates.{DoorState};
ghost use Rattle.dsv_outside.specs.Doors.{Accepts, is_failed_accept, went_back};

use crate::accepted::Accepted;
use crate::serve_end::ServeEnd;
use crate::sink::Sink;
use crate::source::Source;

/// Where connections come from, one at a time, and where they go back to with their ends.
pub trait Door {
    /// Where the bytes of a connection come from.
    type S: Source + Drop + Send;

    /// Where the replies of a connection go to.
    type K: Sink + Drop + Send;

    /// How many pairs were given, whether the door is shut, whether a pair is out, and, where the door
    /// tells them, the inputs to come and the pairs that went back.
    ghost state: { Self → DoorState };

    /// The count of faults, a u64.
    ghost faults: { Self → ℕ };

    /// The next connection. No other one may be out.
    ///
    /// `End` comes only where no input is to come, and once it has come nothing else does. `Failed`
    /// gives nothing, and comes only where the count of faults rose. The pair of a door that tells its
    /// inputs is new, and its source holds the first of them.
    fn accept(&mut self) -> Accepted<Self::S, Self::K>
        requires { (state self.old).out ≡ false }
        ensures gives { Accepts
            (λ source sink. record {
              left = Self.S.left source;
              over = Self.S.over source;
              source_faults = Self.S.faults source;
              taken = Self.K.taken sink;
              sink_faults = Self.K.faults sink;
            })
            (state self.old) (state self.new) result }
        ensures cause { HasCause (faults self.old) (faults self.new) (is_failed_accept result) };

    /// Takes a connection back, whose serving ended so. One has to be out. It can't fail.
    fn back(&mut self, source: Self::S, sink: Self::K, end: ServeEnd)
        requires { (state self.old).out ≡ true }
        ensures returned { state self.new ≡ went_back (state self.old) (record {
          end = end;
          pair = record {
            left = Self.S.left source;
            over = Self.S.over source;
            source_faults = Self.S.faults source;
            taken = Self.K.taken sink;
            sink_faults = Self.K.faults sink;
          };
        }) }
        ensures same { faults self.new ≡ faults self.old };
}
