use crate::change::Change;
use dsv_base::{Bytes, List, Moment, Prop};

/// A commit: who made it and when, the properties of its revision, and its changes in order.
#[derive(Debug, Drop)]
pub struct Commit {
    /// A user's name, or empty where there is none.
    pub author: Bytes,
    pub moment: Moment,
    /// In byte order of the name, each name once.
    pub props: List<Prop>,
    pub changes: List<Change>,
}
