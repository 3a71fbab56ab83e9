ghost use Rattle.std.specs.Prelude.{◌≡◌};

use crate::board::{Board, Place};
use crate::cores::Core;
use crate::holding::{give_hub, take_hub};
use dav_machine::{Answer, Call, Hub, Turn};
use std::alloc::Global;
use std::marker::Model;
use std::sync::{Arc, Wait};

/// A pass: a share in a hub, by which one connection at a time calls it. It has a clone of the runtime.
pub type Pass<K, R> = Share<Hub<K>, R>;

/// A share in a machine. Contracts see its number, which start it is of, what the machine opened with
/// there, and the history at its last call's point.
#[derive(Drop)]
pub struct Share<H: Core + Drop, R> {
    pub(crate) board: Arc<Board<H>, Global>,
    pub(crate) seat: Place<H>,
    pub(crate) rt: R,
    pub(crate) number: u64,
    /// How many passes its start gave.
    pub(crate) count: u64,
}

impl<H: Core + Drop, R> Model for Share<H, R> {
    ghost use Rattle.std.specs.Prelude.{◌≡◌, [], ◌∷◌};
    ghost use Rattle.std.specs.Arc.{arc_value};
    ghost use Rattle.hub_turn.specs.Passes.{PassState, first_front, origin_of, IsBoard, IsSeated};

    ghost Value = { PassState };

    ghost view = { λ p. record {
      opening = p.seat.me.0.about.opening;
      number = p.number;
      origin = origin_of p.seat.table_id p.seat.me.0.about;
      front = first_front p.seat.me.0.members;
    } };

    ghost invariant = { λ p. ((arc_value p.board).shared.table_id ≡ p.seat.table_id)
        × IsBoard p.seat.table_id × (p.seat.me.1 ≡ []) × IsSeated p.number p.count p.seat.me.0 };
}

impl<H: Core + Drop, R> Share<H, R> {
    /// How many passes its start gave.
    pub(crate) fn count(&self) -> u64
        ensures { result ≡ self.now.origin.passes }
    {
        self.count
    }
}

impl<H: Core + Drop, R: Wait> Turn for Share<H, R> {
    ghost opening = { λ p. p.opening };

    ghost pass = { λ p. p.number };

    ghost origin = { λ p. p.origin };

    ghost front = { λ p. p.front };

    fn pass(&self) -> u64 {
        self.number
    }

    fn act(&mut self, call: &Call) -> Answer {
        let shelf = &self.board.shared;
        let mut hub = take_hub(&self.rt, shelf, &mut self.seat);
        let answer = hub.act(call);
        give_hub(shelf, &mut self.seat, hub, u64::from(answer.own));
        answer
    }
}
