//! One hub for many threads: passes take turns at it, by the tickets of one table.
#![tactic(auto)]

mod board;
mod cores;
mod crossing;
mod ending;
mod holding;
mod plays;
mod rooms;
mod share;
mod starting;

pub use cores::Core;
pub use crossing::{Work, work_shares};
pub use ending::end;
pub use share::{Pass, Share};
pub use starting::start;
