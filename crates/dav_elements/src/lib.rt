//! Elements of a document while it is read: their names with namespaces, what a start tag opens, and
//! the elements that are open.
#![tactic(auto)]

mod around;
mod attrs;
mod binding;
mod bound;
mod bounds;
mod distinct;
mod elem;
mod frame;
mod growing;
mod layer;
mod name_parts;
mod names;
mod opening;
mod progress;
mod tag;
mod unread;

pub use around::Around;
pub use bound::Bound;
pub use bounds::Bounds;
pub use elem::{Attr, Elem, Part};
pub use frame::{Frame, Opened, Scope};
pub use growing::{declare, enter, leave, pushed, refer, say};
pub use names::{begins_name, is_white};
pub use progress::Progress;
pub use tag::{Raw, Tag};
pub use unread::Unread;
