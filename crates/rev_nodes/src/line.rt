ghost use Rattle.std.specs.Prelude.{◌≡◌, IfOk};
ghost use Rattle.rev_nodes.specs.Trees.{new_line};

use dsv_base::{NoMemory, Path, Rev};

/// Where the line of a node at its path begins.
#[derive(Debug, Drop)]
pub struct Line {
    /// The revision in which the node began at this path.
    pub since: Rev,
    /// The path and revision that it was copied from, where it began by a copy.
    pub source: Option<(Path, Rev)>,
}

impl Line {
    /// The line of what begins in this revision, by no copy.
    pub fn new(rev: Rev) -> Line
        ensures { result ≡ new_line rev }
    {
        Line {
            since: rev,
            source: None,
        }
    }

    /// The same line. Its one error is want of memory.
    pub fn copy(&self) -> Result<Line, NoMemory>
        ensures { IfOk result (λ copy. copy ≡ self.now) }
    {
        let source = match &self.source {
            Some((path, rev)) => Some((path.copy()?, *rev)),
            None => None,
        };
        Ok(Line {
            since: self.since,
            source,
        })
    }
}
