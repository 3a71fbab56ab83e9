ghost use Rattle.std.specs.Prelude.{ℕ, ◌≡◌, ◌<◌, ◌≤◌, None, IfOk, is_some, length};
ghost use Rattle.std.specs.List.{filter_map};
ghost use Rattle.rev_nodes.specs.Trees.{Tree};
ghost use Rattle.rev_nodes.specs.ChangedPaths.{changed_paths};
ghost use Rattle.node_table.specs.Tables.{IsSoundTable};
ghost use Rattle.node_table.specs.Shown.{IsShown};
ghost use Rattle.tree_edits.specs.Edits.{AreShown};
ghost use Rattle.tree_edits.specs.AreEdits.{AreEdits};
ghost use Rattle.change_table.specs.ChangeTables.{deleted, source_of};
ghost use Rattle.rev_nodes.specs.declared.mark.Mark.TheVariants as marks;
ghost use Rattle.rev_trees.specs.ChangedKinds.{kind_before, kept_kind, changed_kind, row_between};

use change_table::ChangeTable;
use dsv_base::{List, NoMemory, Path};
use node_table::{cell_of, place_at};
use rev_nodes::{Cell, Change, Changed, Kind, Mark, NodeId};
use std::alloc::Global;
use tree_edits::Edits;

/// The paths that the changes changed, from the tree of a root to that of the edits: one pass over the
/// changes, and for each path that they name a look at those above it.
#[tactic(auto, using(crate::proofs::KindsTold::all_told))]
pub fn changed_paths(
    alloc: Global,
    changes: &[Change],
    cells: &[Cell],
    root: NodeId,
    edits: &Edits,
) -> Result<List<Changed>, NoMemory>
    requires few { length changes.now ≤ 4294967295 }
    requires sound { IsSoundTable cells.now }
    requires within { root < length cells.now }
    requires are { (rev : ℕ) × AreEdits rev cells.now edits.now }
    ensures { (before : Tree) (after : Tree) → IsShown cells.now root before → AreShown cells.now edits.now after
        → IfOk result (λ list. list ≡ changed_paths changes.now before after) }
{
    let table = ChangeTable::of(alloc, changes)?;
    let list = changed_in(alloc, &table, cells, root, edits)?;
    Ok(list)
}

/// The changed paths that a table tells.
fn changed_in(
    alloc: Global,
    table: &ChangeTable,
    cells: &[Cell],
    root: NodeId,
    edits: &Edits,
) -> Result<List<Changed>, NoMemory>
    requires sound { IsSoundTable cells.now }
    requires within { root < length cells.now }
    requires are { (rev : ℕ) × AreEdits rev cells.now edits.now }
    ensures { IfOk result (λ list. list ≡ filter_map (row_between table.now cells.now root edits.now) table.now) }
{
    let mut list = Vec::new(alloc);
    'rows: for row in table.rows(alloc)? {
        let path = row.path();
        let was = kind_before(cells, root, path);
        let now = edits.kind_at(cells, path);
        if let Some(changed) = changed_at(table, was, now, path)? {
            list.push(changed)?;
        }
    }
    Ok(List::of(list))
}

/// The kind of what a root shows at a path.
fn kind_before(cells: &[Cell], root: NodeId, path: &Path) -> Option<Kind>
    requires sound { IsSoundTable cells.now }
    requires within { root < length cells.now }
    ensures { result ≡ kind_before cells.now root path.now }
{
    match place_at(cells, root, path) {
        None => None,
        Some(id) => Some(cell_of(cells, id).node.kind),
    }
}

/// What the changes did to a path, if a node is or was there.
fn changed_at(
    table: &ChangeTable,
    was: Option<Kind>,
    now: Option<Kind>,
    path: &Path,
) -> Result<Option<Changed>, NoMemory>
    ensures { IfOk result (λ changed. changed
        ≡ changed_kind path.now (is_some (deleted table.now path.now)) (source_of table.now path.now) was now) }
{
    match (was, now) {
        (None, None) => Ok(None),
        (None, Some(kind)) => Ok(Some(added(table, path, kind)?)),
        (Some(kind), None) => Ok(Some(unsourced(path, Mark::Deleted, kind)?)),
        (Some(_), Some(kind)) => Ok(Some(kept(table, path, kind)?)),
    }
}

/// A path at which a node is, and was none.
fn added(table: &ChangeTable, path: &Path, kind: Kind) -> Result<Changed, NoMemory>
    ensures { IfOk result (λ changed. changed
        ≡ record { path = path.now; mark = marks.Added; kind = kind; source = source_of table.now path.now }) }
{
    Ok(Changed {
        path: path.copy()?,
        mark: Mark::Added,
        kind,
        source: table.source(path)?,
    })
}

/// A path that was changed by no copy.
fn unsourced(path: &Path, mark: Mark, kind: Kind) -> Result<Changed, NoMemory>
    ensures { IfOk result (λ changed. changed
        ≡ record { path = path.now; mark = mark; kind = kind; source = None }) }
{
    Ok(Changed {
        path: path.copy()?,
        mark,
        kind,
        source: None,
    })
}

/// A path at which a node is and was.
fn kept(table: &ChangeTable, path: &Path, kind: Kind) -> Result<Changed, NoMemory>
    ensures { IfOk result (λ changed. changed
        ≡ kept_kind path.now (source_of table.now path.now) kind (is_some (deleted table.now path.now))) }
{
    if table.is_deleted(path) {
        return Ok(Changed {
            path: path.copy()?,
            mark: Mark::Replaced,
            kind,
            source: table.source(path)?,
        });
    }
    unsourced(path, Mark::Modified, kind)
}
