ghost use Rattle.std.specs.Prelude.{◌≡◌, ℕ, List};
ghost use Rattle.http_front.specs.Logins.{IsNamed};
ghost use Rattle.dav_machine.specs.States.{State};
ghost use Rattle.dav_machine.specs.Histories.{HistoryEntry};
ghost use Rattle.dav_machine.specs.Origins.{Origin};
ghost use Rattle.dav_machine.specs.Turns.{Turned};

use crate::answer::Answer;
use crate::call::Call;

/// What a connection asks: its calls are answered one after another, over one history that others may
/// extend between any two of them.
pub trait Turn {
    /// The state that the history begins with.
    ghost opening: { Self → State };

    /// The number of the pass by which these calls come.
    ghost pass: { Self → ℕ };

    /// Which start the pass is of.
    ghost origin: { Self → Origin };

    /// The history at the last call's point.
    ghost front: { Self → List HistoryEntry };

    /// The number of the pass by which these calls come.
    fn pass(&self) -> u64
        ensures { result ≡ pass self.now };

    /// Answers a call of this pass: with the reply over the state at one point of the history, which is
    /// no earlier than the last call's. The reply's change of the state, if it has one, is the
    /// history's last entry at that point, and the one entry of this pass that is new. The name of a
    /// user who is logged in has to be one of the users file's grammar.
    fn act(&mut self, call: &Call) -> Answer
        requires pass { call.now.pass ≡ pass self.old }
        requires named { IsNamed call.now.request.login }
        ensures turned { Turned (opening self.old) (front self.old) (pass self.old)
            call.now result (front self.new) }
        ensures opening { opening self.new ≡ opening self.old }
        ensures pass { pass self.new ≡ pass self.old }
        ensures origin { origin self.new ≡ origin self.old };
}
