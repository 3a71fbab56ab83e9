ghost use Rattle.std.specs.Prelude.{◌≡◌, [], length};
ghost use Rattle.hub_turn.specs.Passes.{IsBoard};
ghost use Rattle.hub_turn.specs.Holding.{IsIdle, IsFounding, HoldsHub, MayGive, given_back};
ghost use Rattle.hub_turn.specs.Rule.{Stands};
ghost use Rattle.hub_turn.specs.Views.{Idle, with_stage};
ghost use Rattle.hub_turn.specs.Plays.{HasAll};

use crate::board::{COUNT, HUB, Place, SERVING, Shelf, TICKET};
use crate::cores::Core;
use crate::plays::{Count, Look, Open, PassOn, Take};
use std::sync::Wait;
use std::thread;

/// How many looks are made before the thread is yielded.
const LOOKS_BEFORE_YIELD: u64 = 100;

/// One look more was in vain: the thread is yielded after each hundredth.
fn pause(looks: u64) -> u64 {
    let looks = looks.wrapping_add(1);
    if looks % LOOKS_BEFORE_YIELD == 0 {
        thread::yield_now();
    }
    looks
}

/// Waits until no ticket is out. Another seat may take one at once: it only makes long queues rare,
/// since a thread whose turn comes while it doesn't run keeps all those behind it waiting.
fn wait_for_quiet<H: Core + Drop, R: Wait>(rt: &R, shelf: &Shelf<H>)
    requires { IsBoard shelf.now.table_id }
{
    let mut looks = 0;
    for _ in rt.forever() {
        if shelf.peek(TICKET) == shelf.peek(SERVING) {
            return;
        }
        looks = pause(looks);
    }
}

/// Waits for the seat's turn, and takes the hub.
pub(crate) fn take_hub<H: Core + Drop, R: Wait>(rt: &R, shelf: &Shelf<H>, seat: &mut Place<H>) -> H
    requires board { IsBoard shelf.now.table_id × (seat.old.table_id ≡ shelf.now.table_id) }
    requires idle { IsIdle seat.old.me }
    ensures same { (seat.new.table_id ≡ seat.old.table_id) × (seat.new.id ≡ seat.old.id) }
    ensures holds { HoldsHub H.told seat.old.me.0 result seat.new.me }
{
    wait_for_quiet(rt, shelf);
    let ticket = shelf.fetch_add::<Take>(seat, TICKET, 1);
    let mut looks = 0;
    for _ in rt.forever() {
        let serving = shelf.load::<Look>(seat, SERVING);
        if serving == ticket {
            return match shelf.exchange(seat, HUB, None) {
                Some(hub) => hub,
                None => unreachable!(),
            };
        }
        looks = pause(looks);
    }
    unreachable!()
}

/// Takes the hub by the one seat that there is.
pub(crate) fn take_hub_alone<H: Core + Drop>(shelf: &Shelf<H>, seat: &mut Place<H>) -> H
    requires board { IsBoard shelf.now.table_id × (seat.old.table_id ≡ shelf.now.table_id) }
    requires idle { IsIdle seat.old.me }
    requires whole { HasAll seat.old.me.0 }
    ensures holds { HoldsHub H.told seat.old.me.0 result seat.new.me }
{
    let ticket = shelf.fetch_add::<Take>(seat, TICKET, 1);
    let serving = shelf.load::<Look>(seat, SERVING);
    if serving != ticket {
        unreachable!()
    }
    match shelf.exchange(seat, HUB, None) {
        Some(hub) => hub,
        None => unreachable!(),
    }
}

/// Gives the hub back, with so many entries more, and passes the turn on.
pub(crate) fn give_hub<H: Core + Drop>(shelf: &Shelf<H>, seat: &mut Place<H>, hub: H, more: u64)
    requires board { IsBoard shelf.now.table_id × (seat.old.table_id ≡ shelf.now.table_id) }
    requires may { MayGive H.told seat.old.me hub more }
    ensures same { (seat.new.table_id ≡ seat.old.table_id) × (seat.new.id ≡ seat.old.id) }
    ensures given { seat.new.me ≡ (given_back seat.old.me.0 (H.told hub).history, []) }
{
    let _front = hub.front();
    let _ = shelf.exchange(seat, HUB, Some(hub));
    shelf.fetch_add::<Count>(seat, COUNT, more);
    shelf.fetch_add::<PassOn>(seat, SERVING, 1);
}

/// Puts the hub into the empty slot, by the first seat, and passes the turn on.
pub(crate) fn put_hub<H: Core + Drop>(shelf: &Shelf<H>, seat: &mut Place<H>, hub: H)
    requires board { IsBoard shelf.now.table_id × (seat.old.table_id ≡ shelf.now.table_id) }
    requires founding { IsFounding seat.old.me }
    requires stands { Stands H.told seat.old.me.0.about seat.old.me.0.about.history hub }
    ensures same { (seat.new.table_id ≡ seat.old.table_id) × (seat.new.id ≡ seat.old.id) }
    ensures idle { seat.new.me ≡ (with_stage seat.old.me.0 Idle, []) }
{
    shelf.load::<Open>(seat, SERVING);
    let _ = shelf.exchange(seat, HUB, Some(hub));
    shelf.fetch_add::<PassOn>(seat, SERVING, 1);
}
