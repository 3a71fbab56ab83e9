ghost use Rattle.std.specs.Prelude.{◌≡◌, ◌≤◌, ◌++◌, ◌+◌, [], All, false, IfSome, map, length, MatchResult, vec_capacity, vec_len};
ghost use Rattle.dsv_outside.specs.DoorStates.{DoorState};
ghost use Rattle.dav_serve.specs.Stations.{door_of, turn_of};
ghost use Rattle.davsvn_run.specs.ServedDoors.{ServedDoors, clock_of, limit_of};

use dav_serve::{Station, serve_stations_into};
use dsv_outside::{Clock, Door};
use http_front::Users;
use hub_turn::{Core, Share, end, start};
use std::alloc::Global;
use std::sync::Wait;
use std::thread::Threads;

/// Room for stations, for their turns and for their doors.
#[derive(Drop)]
struct Rooms<T, D, C> {
    stations: Vec<Station<T, D, C>>,
    turns: Vec<T>,
    doors: Vec<D>,
}

/// Room for so many of each; none where memory is wanting.
fn rooms_for<T: Drop, D: Drop, C: Drop>(alloc: Global, count: usize) -> Option<Rooms<T, D, C>>
    ensures stations { IfSome result (λ r. (r.stations.items ≡ []) × (count ≤ vec_capacity r.stations)) }
    ensures turns { IfSome result (λ r. (r.turns.items ≡ []) × (count ≤ vec_capacity r.turns)) }
    ensures doors { IfSome result (λ r. (r.doors.items ≡ []) × (count ≤ vec_capacity r.doors)) }
{
    let stations = match Vec::with_capacity(alloc, count) {
        Ok(stations) => stations,
        Err(_) => return None,
    };
    let turns = match Vec::with_capacity(alloc, count) {
        Ok(turns) => turns,
        Err(_) => return None,
    };
    let doors = match Vec::with_capacity(alloc, count) {
        Ok(doors) => doors,
        Err(_) => return None,
    };
    Some(Rooms {
        stations,
        turns,
        doors,
    })
}

/// The stations of these turns, doors and clocks, each with this limit, behind those that were there.
fn assembled<T: Drop, D: Drop, C: Drop>(
    mut turns: Vec<T>,
    mut doors: Vec<D>,
    mut clocks: Vec<C>,
    limit: Option<u32>,
    mut stations: Vec<Station<T, D, C>>,
) -> Vec<Station<T, D, C>>
    requires doors { vec_len doors ≡ vec_len turns }
    requires clocks { vec_len clocks ≡ vec_len turns }
    requires room { vec_len stations + vec_len turns ≤ vec_capacity stations }
    ensures turns { map turn_of result.items ≡ map turn_of stations.items ++ turns.items }
    ensures doors { map door_of result.items ≡ map door_of stations.items ++ doors.items }
    ensures clocks { map clock_of result.items ≡ map clock_of stations.items ++ clocks.items }
    ensures limits { All (λ s. limit_of s ≡ limit) stations.items → All (λ s. limit_of s ≡ limit) result.items }
    ensures room { (vec_len result ≡ vec_len stations + vec_len turns)
        × (vec_capacity result ≡ vec_capacity stations) }
{
    match turns.pop() {
        Some(turn) => {
            let door = match doors.pop() {
                Some(door) => door,
                None => unreachable!(),
            };
            let clock = match clocks.pop() {
                Some(clock) => clock,
                None => unreachable!(),
            };
            let mut stations = assembled(turns, doors, clocks, limit, stations);
            stations.push_reserved(Station {
                turn,
                door,
                clock,
                limit,
            });
            stations
        }
        None => stations,
    }
}

/// Serves the doors side by side, each by a pass over the machine and by the clock of its place, and
/// gives them back, in order, with the machine. There are 1 to 64 doors, as many clocks, and no door
/// has a connection out.
///
/// # Errors
/// Want of memory gives the doors back as they were; no door was asked.
pub fn serve_doors<H, D, C, R>(
    alloc: Global,
    rt: &R,
    machine: H,
    doors: Vec<D>,
    clocks: Vec<C>,
    limit: Option<u32>,
    users: &Users,
) -> Result<(Vec<D>, H), Vec<D>>
where
    H: Core + Drop + Send,
    D: Door + Drop + Send,
    C: Clock + Drop + Send,
    R: Threads + Wait + Sync + Send + Clone + Drop,
    requires some { 1 ≤ length doors.items }
    requires few { length doors.items ≤ 64 }
    requires clocks { length clocks.items ≡ length doors.items }
    requires none_out { All (λ d. (D.state d).out ≡ false) doors.items }
    ensures { MatchResult result
        (λ served. ServedDoors H.told D.state D.faults C.readings users.now limit (length doors.items)
        machine doors.items clocks.items served.0.items served.1)
        (λ back. back.items ≡ doors.items) }
{
    let rooms = match rooms_for(alloc, doors.len()) {
        Some(rooms) => rooms,
        None => return Err(doors),
    };
    let passes = match start(alloc, rt, machine, doors.len() as u32) {
        Ok(passes) => passes,
        Err(_) => return Err(doors),
    };
    let Rooms {
        stations,
        turns,
        doors: room,
    } = rooms;
    let stations = assembled(passes, doors, clocks, limit, stations);
    let (turns, doors) = serve_stations_into(alloc, rt, stations, users, turns, room);
    match end(turns) {
        Ok(machine) => Ok((doors, machine)),
        Err(_) => unreachable!(),
    }
}
