ghost use Rattle.std.specs.Prelude.{◌≡◌, ◌≤◌, ◌<◌, ◌∷◌, [], vec_len, vec_capacity, IfSome, MatchResult};
ghost use Rattle.dav_machine.specs.Origins.{Origin};
ghost use Rattle.hub_turn.specs.Rooms.{Only, SplitsNext};
ghost use Rattle.hub_turn.specs.Plays.{all_but_first};
ghost use Rattle.hub_turn.specs.Passes.{IsStart, passes_from, origin_of, IsBoard};
ghost use Rattle.hub_turn.specs.Starts.{members_from, start_over, whole};
ghost use Rattle.std.specs.Arc.{arc_value};
ghost use Rattle.hub_turn.specs.Views.{Idle};

use crate::board::{Board, Key, Place};
use crate::cores::Core;
use crate::holding::put_hub;
use crate::plays::Deal;
use crate::rooms::{Room, rooms};
use crate::share::Share;
use atomic_table::Table;
use std::alloc::Global;
use std::snapshot::Snapshot;
use std::sync::Arc;

/// Gives a room its pass: the first of those that the seat has.
fn split<H: Core + Drop, R: Drop>(
    room: Room<H, R>,
    seat: &mut Place<H>,
    number: u64,
    count: u64,
) -> Share<H, R>
    requires board { seat.old.table_id ≡ room }
    requires seat { SplitsNext number count seat.old.me }
    ensures seat { (seat.new.table_id ≡ seat.old.table_id) × (seat.new.me ≡ (all_but_first seat.old.me.0, [])) }
    ensures pass { result ≡ record {
      opening = seat.old.me.0.about.opening;
      number = number;
      origin = origin_of seat.old.table_id seat.old.me.0.about;
      front = seat.old.me.0.about.history;
    } }
{
    let Room { board, rt } = room;
    let theirs = board.shared.split_seat::<Deal>(seat);
    Share {
        board,
        seat: theirs,
        rt,
        number,
        count,
    }
}

/// Gives each room its pass, numbered from 0.
fn deal<H: Core + Drop, R: Drop>(
    mut rooms: Vec<Room<H, R>>,
    mut seat: Place<H>,
    mut passes: Vec<Share<H, R>>,
    count: u64,
) -> Vec<Share<H, R>>
    requires board { IsBoard seat.table_id }
    requires rooms { Only seat.table_id rooms.items × (vec_len rooms ≡ count) }
    requires seat { seat.me ≡ (
      record {
        members = members_from count seat.me.0.about.history 0;
        stage = Idle;
        about = seat.me.0.about;
      },
      [],
    ) }
    requires count { count ≡ seat.me.0.about.passes }
    requires passes { (passes.items ≡ []) × (count ≤ vec_capacity passes) }
    ensures { result.items ≡ passes_from count (origin_of seat.table_id seat.me.0.about) 0 }
{
    for number in 0..count {
        let room = match rooms.pop() {
            Some(room) => room,
            None => unreachable!(),
        };
        passes.push_reserved(split(room, &mut seat, number, count));
    }
    passes
}

/// All that a start needs but the hub.
struct Ready<H: Core + Drop, R> {
    board: Arc<Board<H>, Global>,
    seat: Place<H>,
    rooms: Vec<Room<H, R>>,
    passes: Vec<Share<H, R>>,
}

/// Finds the memory for a start.
fn prepare<H: Core + Drop, R: Clone + Drop>(
    alloc: Global,
    rt: &R,
    hub: &H,
    count: usize,
) -> Option<Ready<H, R>>
    requires { (1 ≤ count) × (count ≤ 64) }
    ensures board { IfSome result
        (λ r. ((arc_value r.board).shared.table_id ≡ r.seat.table_id) × IsBoard r.seat.table_id) }
    ensures seat { IfSome result (λ r. r.seat.me ≡ (whole (start_over H.told hub.now count), [])) }
    ensures rooms { IfSome result (λ r. Only r.seat.table_id r.rooms.items × (vec_len r.rooms ≡ count)) }
    ensures passes { IfSome result (λ r. (r.passes.items ≡ []) × (count ≤ vec_capacity r.passes)) }
{
    let key = Key {
        hub: Snapshot::of(hub),
        passes: count as u64,
    };
    let words = [1, 0, hub.front()];
    let (table, seat) = match Table::vacant(alloc, &words, 1, &key) {
        Ok(made) => made,
        Err(_) => return None,
    };
    let board = match Arc::new(alloc, table) {
        Ok(board) => board,
        Err(_) => return None,
    };
    let rooms = match rooms(alloc, rt, &board, count) {
        Some(rooms) => rooms,
        None => return None,
    };
    let passes = match Vec::with_capacity(alloc, count) {
        Ok(passes) => passes,
        Err(_) => return None,
    };
    Some(Ready {
        board,
        seat,
        rooms,
        passes,
    })
}

/// Gives 1 to 64 passes over one hub, numbered from 0 in the list's order. Each has the hub's history as
/// its front, and all have one origin.
///
/// # Errors
/// Want of memory gives the hub back, as it was.
pub fn start<H: Core + Drop, R: Clone + Drop>(
    alloc: Global,
    rt: &R,
    hub: H,
    passes: u32,
) -> Result<Vec<Share<H, R>>, H>
    requires { (1 ≤ passes) × (passes ≤ 64) }
    ensures { MatchResult result
        (λ given. (origin : Origin) × IsStart H.told hub passes origin
        × (given.items ≡ passes_from passes origin 0))
        (λ back. back ≡ hub) }
{
    let ready = match prepare(alloc, rt, &hub, passes as usize) {
        Some(ready) => ready,
        None => return Err(hub),
    };
    let Ready {
        board,
        mut seat,
        rooms,
        passes: list,
    } = ready;
    put_hub(&board.shared, &mut seat, hub);
    Ok(deal(rooms, seat, list, u64::from(passes)))
}
