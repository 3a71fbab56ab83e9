use crate::kind::Kind;
use crate::mark::Mark;
use dsv_base::{Path, Rev};

/// A path that a commit changed.
#[derive(Debug, Drop)]
pub struct Changed {
    pub path: Path,
    pub mark: Mark,
    /// What is there after the commit, or before it where that deleted it.
    pub kind: Kind,
    /// The path and revision that it was copied from, where it was added or replaced by a copy.
    pub source: Option<(Path, Rev)>,
}
