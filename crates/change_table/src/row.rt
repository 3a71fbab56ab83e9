ghost use Rattle.std.specs.Prelude.{◌≡◌, IfOk, OnOk};
ghost use Rattle.rev_nodes.specs.ChangedPaths.{path_of};
ghost use Rattle.change_table.specs.ChangeTables.{noted, no_last};
ghost use Rattle.change_table.specs.Rows.{last_in};

use dsv_base::{NoMemory, Path, Rev};
use rev_nodes::Change;

/// The last copy to a path: the number of the change, and what it was taken from.
#[derive(Debug, Drop)]
pub struct LastCopy {
    pub number: u32,
    pub source: Path,
    pub source_rev: Rev,
}

/// What changes did last to a path that one of them names.
#[derive(Debug, Drop)]
pub struct Row {
    pub path: Path,
    pub copy: Option<LastCopy>,
    /// The number of the last change that deletes the path.
    pub delete: Option<u32>,
}

impl Row {
    /// A path to which nothing was done so far.
    pub(crate) fn new(path: &Path) -> Result<Row, NoMemory>
        ensures path { IfOk result (λ row. row.path ≡ path.now) }
        ensures last { IfOk result (λ row. last_in row ≡ no_last) }
    {
        Ok(Row {
            path: path.copy()?,
            copy: None,
            delete: None,
        })
    }

    /// Notes a change at its path, which has this number.
    pub(crate) fn note(&mut self, change: &Change, number: u32) -> Result<(), NoMemory>
        ensures path { OnOk result (self.new.path ≡ self.old.path) }
        ensures last { OnOk result (last_in self.new ≡ noted number change.now (last_in self.old)) }
    {
        match change {
            Change::Delete { .. } => self.delete = Some(number),
            Change::Copy {
                source,
                source_rev,
                ..
            } => {
                self.copy = Some(LastCopy {
                    number,
                    source: source.copy()?,
                    source_rev: *source_rev,
                });
            }
            Change::Put { .. }
            | Change::SetProp { .. }
            | Change::DelProp { .. }
            | Change::Mkdir { .. } => (),
        }
        Ok(())
    }
}

/// The path that a change names.
pub(crate) fn path_of(change: &Change) -> &Path
    ensures { result.now ≡ path_of change.now }
{
    match change {
        Change::Put { path, .. } => path,
        Change::SetProp { path, .. } => path,
        Change::DelProp { path, .. } => path,
        Change::Mkdir { path } => path,
        Change::Delete { path } => path,
        Change::Copy { path, .. } => path,
    }
}
