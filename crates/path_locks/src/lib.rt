//! Locks of paths: at each path at most one, to be found at a path or under it.
#![tactic(auto)]

mod lock;
mod locks;

pub use lock::Lock;
pub use locks::Locks;
