ghost use Rattle.std.specs.Prelude.{◌≡◌, false};
ghost use Rattle.dsv_outside.specs.DoorStates.{DoorState};
ghost use Rattle.dav_serve.specs.Stations.{told_by};
ghost use Rattle.dav_serve.specs.Visits.{Attends, Stationed, most_of};

use crate::serving::serve_connection;
use dav_machine::Turn;
use dsv_outside::{Accepted, Clock, Door};
use http_front::Users;
use std::alloc::Global;

/// A turn, the door that its connections come from, and the clock that they are served by.
#[derive(Debug, Drop)]
pub struct Station<T, D, C> {
    pub turn: T,
    pub door: D,
    pub clock: C,
    /// How many connections it takes at most, where that is limited.
    pub limit: Option<u32>,
}

/// Serves a station to its end: takes connections from its door, one after another, serves each by its
/// turn and clock, and gives it back with its end before it asks for the next.
///
/// It ends where the door is shut or has failed, or where as many connections were taken as the limit
/// says.
pub(crate) fn serve_station<T: Turn, D: Door, C: Clock>(
    alloc: Global,
    station: &mut Station<T, D, C>,
    users: &Users,
)
    requires { (D.state station.old.door).out ≡ false }
    ensures { Stationed users.now
        (told_by T.opening T.pass T.origin T.front D.state D.faults C.readings station.old)
        (told_by T.opening T.pass T.origin T.front D.state D.faults C.readings station.new) }
{
    'connections: for _ in 0..most_of(station.limit) {
        if !serve_next(alloc, station, users) {
            return;
        }
    }
}

/// How many connections a station with this limit takes at most: without one, as many as can be counted.
fn most_of(limit: Option<u32>) -> u64
    ensures { result ≡ most_of limit }
{
    match limit {
        Some(limit) => u64::from(limit),
        None => u64::MAX,
    }
}

/// Takes the next connection, serves it and gives it back. It answers whether there was one.
fn serve_next<T: Turn, D: Door, C: Clock>(
    alloc: Global,
    station: &mut Station<T, D, C>,
    users: &Users,
) -> bool
    requires { (D.state station.old.door).out ≡ false }
    ensures { Attends users.now
        (told_by T.opening T.pass T.origin T.front D.state D.faults C.readings station.old)
        (told_by T.opening T.pass T.origin T.front D.state D.faults C.readings station.new)
        result }
{
    let (mut source, mut sink) = match station.door.accept() {
        Accepted::Pair(source, sink) => (source, sink),
        Accepted::End => return false,
        Accepted::Failed => return false,
    };
    let end = serve_connection(
        alloc,
        &mut station.turn,
        &mut source,
        &mut sink,
        &mut station.clock,
        users,
    );
    station.door.back(source, sink, end);
    true
}
