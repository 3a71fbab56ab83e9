//! A repository's revisions as trees of nodes, and the commits that are pushed onto them.
#![tactic(auto)]

mod changed_list;
mod draft;
mod next;
mod push_fault;
mod ready;
mod revision;
mod seen;
mod trees;

pub use draft::Draft;
pub use push_fault::PushFault;
pub use ready::Ready;
pub use seen::Seen;
pub use trees::Trees;
