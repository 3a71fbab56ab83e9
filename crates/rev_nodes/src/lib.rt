//! Nodes, changes and commits of a repository as plain values, with all that is said of trees as flat lists.
#![tactic(auto)]

mod cell;
mod change;
mod changed;
mod commit;
mod entry;
mod height;
mod kind;
mod line;
mod mark;
mod node;
mod node_id;
mod property_name;
mod shared;
mod summed;
mod text;
mod unfit;

pub use cell::Cell;
pub use change::Change;
pub use changed::Changed;
pub use commit::Commit;
pub use entry::Entry;
pub use height::Height;
pub use kind::Kind;
pub use line::Line;
pub use mark::Mark;
pub use node::Node;
pub use node_id::NodeId;
pub use property_name::{is_property_name, is_revision_property};
pub use shared::Shared;
pub use text::Text;
pub use unfit::Unfit;
