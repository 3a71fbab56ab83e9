//! Serving connections: requests from a source, each answered by a turn, and the replies into a sink;
//! and stations, each of which serves the connections of a door, side by side.
#![tactic(auto)]

mod laws;
mod serving;
mod side_by_side;
mod station;
mod steps;

pub use dsv_outside::ServeEnd;
pub use laws::beginnings_are_first;
pub use serving::serve_connection;
pub use side_by_side::{serve_all, serve_stations, serve_stations_into};
pub use station::Station;
