ghost use Rattle.std.specs.Prelude.{◌≡◌, ◌+◌, ◌≤◌, ◌++◌, [], All, false, map, MatchResult, vec_capacity, vec_len};
ghost use Rattle.dsv_outside.specs.DoorStates.{DoorState};
ghost use Rattle.dav_serve.specs.SideBySide.{EachStation, ServedStations};
ghost use Rattle.dav_serve.specs.Stations.{door_of, turn_of};

use crate::station::{Station, serve_station};
use dav_machine::Turn;
use dsv_outside::{Clock, Door};
use http_front::Users;
use std::alloc::Global;
use std::thread;
use std::thread::Threads;

/// Serves each station to its end, all of them side by side, each in a thread of its own. No door may
/// have a connection out.
///
/// A station takes connections from its door, one after another, serves each by its turn and clock, and
/// gives it back with its end before it asks for the next. It ends where its door is shut or has
/// failed, or where as many connections were taken as its limit says.
pub fn serve_all<T, D, C, R: Threads + Sync>(
    alloc: Global,
    rt: &R,
    stations: &mut [Station<T, D, C>],
    users: &Users,
)
where
    T: Turn + Send,
    D: Door + Send,
    C: Clock + Send,
    requires { All (λ s. (D.state s.door).out ≡ false) stations.old }
    ensures { EachStation T.opening T.pass T.origin T.front D.state D.faults C.readings users.now
        stations.old stations.new }
{
    let threads = stations.len().max(1);
    thread::for_each_mut(
        rt,
        stations,
        threads,
        &|_, station: &mut Station<T, D, C>|
            requires { (D.state station.old.door).out ≡ false }
        { serve_station(alloc, station, users) },
    );
}

/// Serves all stations as [`serve_all`] does, and gives back their turns and doors, in the stations'
/// order. No door may have a connection out.
///
/// # Errors
/// Want of memory gives the stations back as they were.
pub fn serve_stations<T, D, C, R: Threads + Sync>(
    alloc: Global,
    rt: &R,
    stations: Vec<Station<T, D, C>>,
    users: &Users,
) -> Result<(Vec<T>, Vec<D>), Vec<Station<T, D, C>>>
where
    T: Turn + Drop + Send,
    D: Door + Drop + Send,
    C: Clock + Drop + Send,
    requires { All (λ s. (D.state s.door).out ≡ false) stations.items }
    ensures { MatchResult result
        (λ parts. ServedStations T.opening T.pass T.origin T.front D.state D.faults C.readings users.now
        stations.items parts.0.items parts.1.items)
        (λ back. back.items ≡ stations.items) }
{
    let turns = match Vec::with_capacity(alloc, stations.len()) {
        Ok(turns) => turns,
        Err(_) => return Err(stations),
    };
    let doors = match Vec::with_capacity(alloc, stations.len()) {
        Ok(doors) => doors,
        Err(_) => return Err(stations),
    };
    Ok(serve_stations_into(alloc, rt, stations, users, turns, doors))
}

/// The same, without taking memory: the turns and the doors are put into these vectors, which have room
/// for them and are empty.
pub fn serve_stations_into<T, D, C, R: Threads + Sync>(
    alloc: Global,
    rt: &R,
    mut stations: Vec<Station<T, D, C>>,
    users: &Users,
    turns: Vec<T>,
    doors: Vec<D>,
) -> (Vec<T>, Vec<D>)
where
    T: Turn + Drop + Send,
    D: Door + Drop + Send,
    C: Clock + Drop + Send,
    requires none_out { All (λ s. (D.state s.door).out ≡ false) stations.items }
    requires turns { (turns.items ≡ []) × (vec_len stations ≤ vec_capacity turns) }
    requires doors { (doors.items ≡ []) × (vec_len stations ≤ vec_capacity doors) }
    ensures { ServedStations T.opening T.pass T.origin T.front D.state D.faults C.readings users.now
        stations.items result.0.items result.1.items }
{
    serve_all(alloc, rt, stations.as_mut_slice(), users);
    taken_apart(stations, turns, doors)
}

/// The turns and the doors of the stations, in their order, behind those that were there.
fn taken_apart<T: Drop, D: Drop, C: Drop>(
    mut stations: Vec<Station<T, D, C>>,
    mut turns: Vec<T>,
    mut doors: Vec<D>,
) -> (Vec<T>, Vec<D>)
    requires turns { vec_len turns + vec_len stations ≤ vec_capacity turns }
    requires doors { vec_len doors + vec_len stations ≤ vec_capacity doors }
    ensures turns { result.0.items ≡ turns.items ++ map turn_of stations.items }
    ensures doors { result.1.items ≡ doors.items ++ map door_of stations.items }
    ensures turns_room { (vec_len result.0 ≡ vec_len turns + vec_len stations)
        × (vec_capacity result.0 ≡ vec_capacity turns) }
    ensures doors_room { (vec_len result.1 ≡ vec_len doors + vec_len stations)
        × (vec_capacity result.1 ≡ vec_capacity doors) }
{
    match stations.pop() {
        Some(station) => {
            let Station {
                turn,
                door,
                clock: _,
                limit: _,
            } = station;
            let (mut turns, mut doors) = taken_apart(stations, turns, doors);
            turns.push_reserved(turn);
            doors.push_reserved(door);
            (turns, doors)
        }
        None => (turns, doors),
    }
}
