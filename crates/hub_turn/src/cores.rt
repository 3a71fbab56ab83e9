ghost use Rattle.std.specs.Prelude.{◌≡◌, ◌<◌, ◌^◌, length};
ghost use Rattle.http_front.specs.Logins.{IsNamed};
ghost use Rattle.dav_machine.specs.Hubs.{IsHubOf};
ghost use Rattle.dav_machine.specs.Turns.{Acted};
ghost use Rattle.hub_turn.specs.Cores.{CoreTold};

use dav_machine::{Answer, Call, Hub};
use dsv_outside::Keeper;

/// What passes share: a machine that answers calls one after another, and adds to one history. It is a
/// trait so that what holds it may cross threads; a `Hub` is one.
pub trait Core {
    /// What the machine opened with, its history, its state, and what its keeper tells.
    ghost told: { Self → CoreTold };

    /// Answers a call by the state at the end of the history, and adds one entry of the call's own to
    /// it, or none. The name of a user who is logged in has to be one of the users file's grammar.
    fn act(&mut self, call: &Call) -> Answer
        requires named { IsNamed call.now.request.login }
        ensures acted { Acted (told self.old).opening (told self.old).history
            call.now result (told self.new).history }
        ensures opening { (told self.new).opening ≡ (told self.old).opening }
        ensures first { (told self.new).first ≡ (told self.old).first };

    /// How many entries the history has.
    fn front(&self) -> u64
        ensures count { result ≡ length (told self.now).history }
        ensures bound { length (told self.now).history < 2 ^ 63 };

    /// What holds of each such machine, which contracts don't see by themselves.
    fn learn(&self)
        ensures { IsHubOf (told self.now).opening (told self.now).state (told self.now).history
            (told self.now).first.faults (told self.now).now.faults };
}

impl<K: Keeper> Core for Hub<K> {
    ghost use Rattle.hub_turn.specs.Cores.{hub_told};

    ghost told = { hub_told K.faults K.kept };

    fn act(&mut self, call: &Call) -> Answer {
        self.act(call)
    }

    fn front(&self) -> u64 {
        self.front()
    }

    fn learn(&self) {
        self.learn();
    }
}
