ghost use Rattle.std.specs.Prelude.{◌≡◌, ◌<◌, ◌∷◌, [], true, false, length, MatchResult};
ghost use Rattle.std.specs.Arc.{arc_value};
ghost use Rattle.hub_turn.specs.Passes.{IsBoard, OfOneStart, AreFew, AreAll, Ended, member_of, origin_of};
ghost use Rattle.hub_turn.specs.Gatherings.{HasMembers, Gathered};

use crate::board::{Board, Place, Shelf};
use crate::cores::Core;
use crate::holding::take_hub_alone;
use crate::plays::Gather;
use crate::share::Share;
use std::alloc::Global;
use std::sync::Arc;

/// The seat of a pass, and its table.
struct Opened<H: Core + Drop> {
    board: Arc<Board<H>, Global>,
    seat: Place<H>,
}

/// Takes a pass apart.
fn open<H: Core + Drop, R: Drop>(pass: Share<H, R>) -> Opened<H>
    ensures board { ((arc_value result.board).shared.table_id ≡ result.seat.table_id)
        × IsBoard result.seat.table_id }
    ensures seat { HasMembers pass.origin (member_of pass ∷ []) result.seat.table_id result.seat.me }
{
    let Share {
        board,
        seat,
        rt: _,
        number: _,
        count: _,
    } = pass;
    Opened { board, seat }
}

/// Puts the seat of another pass to this one.
fn gather<H: Core + Drop, R: Drop>(shelf: &Shelf<H>, seat: &mut Place<H>, pass: Share<H, R>)
    requires board { IsBoard shelf.now.table_id × (seat.old.table_id ≡ shelf.now.table_id) }
    requires seat { HasMembers pass.origin seat.old.me.0.members seat.old.table_id seat.old.me }
    requires some { 0 < length seat.old.me.0.members }
    ensures same { seat.new.table_id ≡ seat.old.table_id }
    ensures seat { HasMembers pass.origin (member_of pass ∷ seat.old.me.0.members) seat.new.table_id seat.new.me }
{
    let Opened {
        board: _,
        seat: theirs,
    } = open(pass);
    shelf.join_seat::<Gather>(seat, theirs);
}

/// Whether there are fewer passes than their start gave, or none.
fn are_few<H: Core + Drop, R>(passes: &Vec<Share<H, R>>) -> bool
    ensures few { result ≡ true → AreFew passes.now.items }
    ensures all { result ≡ false → AreAll passes.now.items }
{
    match passes.as_slice().first() {
        Some(pass) => (passes.len() as u64) < pass.count(),
        None => true,
    }
}

/// Gives the hub, after all calls of all passes of a start, which the passes have to be of. It takes no
/// memory, and waits for nobody.
///
/// # Errors
/// Gives the passes back where there are none, or fewer than their start gave.
pub fn end<H: Core + Drop, R: Drop>(mut passes: Vec<Share<H, R>>) -> Result<H, Vec<Share<H, R>>>
    requires { OfOneStart passes.items }
    ensures { MatchResult result
        (λ hub. Ended H.told passes.items hub)
        (λ back. (back.items ≡ passes.items) × AreFew passes.items) }
{
    if are_few(&passes) {
        return Err(passes);
    }
    let last = match passes.pop() {
        Some(last) => last,
        None => unreachable!(),
    };
    let Opened { board, mut seat } = open(last);
    for _ in 0..passes.len() {
        let pass = match passes.pop() {
            Some(pass) => pass,
            None => unreachable!(),
        };
        gather(&board.shared, &mut seat, pass);
    }
    let hub = take_hub_alone(&board.shared, &mut seat);
    hub.learn();
    Ok(hub)
}
