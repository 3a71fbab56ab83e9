ghost use Rattle.std.specs.Prelude.{◌≡◌, IfOk};

use crate::text::Text;
use dsv_base::{Bytes, NoMemory, Path, Rev};

/// One change of a commit.
#[derive(Debug, Drop)]
pub enum Change {
    /// Sets the text of a file, or adds a file without properties.
    Put {
        path: Path,
        text: Text,
    },
    /// Sets a property of a node.
    SetProp {
        path: Path,
        name: Bytes,
        value: Bytes,
    },
    /// Removes a property of a node, if it is there.
    DelProp {
        path: Path,
        name: Bytes,
    },
    /// Adds an empty directory.
    Mkdir {
        path: Path,
    },
    /// Removes a node and all below it.
    Delete {
        path: Path,
    },
    /// Copies a node of a revision, and all below it.
    Copy {
        source: Path,
        source_rev: Rev,
        path: Path,
    },
}

impl Change {
    /// The same change, which has its paths and texts together with this one. Its one error is want
    /// of memory.
    pub fn copy(&self) -> Result<Change, NoMemory>
        ensures { IfOk result (λ copy. copy ≡ self.now) }
    {
        Ok(match self {
            Change::Put { path, text } => Change::Put {
                path: path.copy()?,
                text: text.share()?,
            },
            Change::SetProp { path, name, value } => Change::SetProp {
                path: path.copy()?,
                name: name.copy()?,
                value: value.copy()?,
            },
            Change::DelProp { path, name } => Change::DelProp {
                path: path.copy()?,
                name: name.copy()?,
            },
            Change::Mkdir { path } => Change::Mkdir { path: path.copy()? },
            Change::Delete { path } => Change::Delete { path: path.copy()? },
            Change::Copy {
                source,
                source_rev,
                path,
            } => Change::Copy {
                source: source.copy()?,
                source_rev: *source_rev,
                path: path.copy()?,
            },
        })
    }
}
