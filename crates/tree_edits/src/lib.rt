//! Changes of a commit as edits over a table of shared nodes, which stays as it is.
#![tactic(auto)]

mod applying;
mod changes;
mod copy;
mod edits;
mod glance;
mod glancing;
mod hanging;
mod held;
mod looking;
mod names;
mod place;
mod props;
mod sight;
mod store;
mod touch;

pub use edits::Edits;
pub use glance::Glance;
pub use held::Held;
pub use place::Place;
pub use touch::Touch;
