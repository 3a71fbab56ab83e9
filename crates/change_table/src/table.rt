ghost use Rattle.std.specs.Prelude.{◌≡◌, ◌≤◌, IsTrue, IfOk, OnOk, is_some, [], length};
ghost use Rattle.std.specs.FinMap.{find};
ghost use Rattle.std.specs.List.{list_all};
ghost use Rattle.std.specs.Option.{option_map, option_copied};
ghost use Rattle.std.specs.Ordering.{nat_cmp};
ghost use Rattle.std.specs.Cmp.Lexicographic.{slice_cmp};
ghost use Rattle.dsv_base.specs.Paths.{is_path, ancestors};
ghost use Rattle.rev_nodes.specs.ChangedPaths.{path_of};
ghost use Rattle.change_table.specs.ChangeTables.{noted_in, noted_from, last_at, later, deleted_in, deleted, source_by, source_of, has_named_path};
ghost use Rattle.change_table.specs.Rows.{copy_in, last_in, table_in, are_at_paths, rows_in, AreRowsOf};

use crate::named_path::NamedPath;
use crate::row::{LastCopy, Row, path_of};
use dsv_base::{NoMemory, Path, Rev, parent_text};
use rev_nodes::Change;
use std::alloc::Global;
use std::collections::BTreeMap;
use std::marker::Model;

/// What the changes of a commit did last to each path that they name.
///
/// Contracts see the rows, in byte order of the path, each path once: what a row tells, with its
/// path.
#[derive(Debug, Drop)]
pub struct ChangeTable {
    rows: BTreeMap<Vec<u8>, Row>,
}

impl Model for ChangeTable {
    ghost use Rattle.std.specs.Prelude.{IsTrue, List, ℕ};
    ghost use Rattle.change_table.specs.ChangeTables.{LastChanges};
    ghost use Rattle.change_table.specs.Rows.{table_in, are_at_paths};

    ghost Value = { List (List ℕ × LastChanges) };

    ghost view = { λ t. table_in (λ k. k.items) t.rows.entries };

    ghost invariant = { λ t. IsTrue (are_at_paths (λ k. k.items) t.rows.entries) };
}

impl ChangeTable {
    /// The table of these changes, of which the first has number 0.
    pub fn of(alloc: Global, changes: &[Change]) -> Result<ChangeTable, NoMemory>
        requires { length changes.now ≤ 4294967295 }
        ensures noted { IfOk result (λ table. table ≡ noted_from 0 changes.now []) }
        ensures paths { IfOk result (λ table. IsTrue (list_all has_named_path changes.now)) }
    {
        let rows = rows_of(alloc, changes)?;
        Ok(ChangeTable { rows })
    }

    /// The rows, in byte order of the path. Its one error is want of memory.
    pub fn rows(&self, alloc: Global) -> Result<Vec<NamedPath<'_>>, NoMemory>
        ensures { IfOk result (λ rows. rows.items ≡ self.now) }
    {
        rows_in(alloc, &self.rows)
    }

    /// Whether a change deletes the path or one above it.
    pub fn is_deleted(&self, path: &Path) -> bool
        ensures { result ≡ is_some (deleted self.now path.now) }
    {
        self.last_delete(path.text()).is_some()
    }

    /// The source of the last copy to the path, where no later change deletes it or one above it.
    pub fn source(&self, path: &Path) -> Result<Option<(Path, Rev)>, NoMemory>
        ensures { IfOk result (λ source. source ≡ source_of self.now path.now) }
    {
        let Some(copy) = self.copy_at(path.text()) else {
            return Ok(None);
        };
        if let Some(delete) = self.last_delete(path.text()) {
            if copy.number < delete {
                return Ok(None);
            }
        }
        Ok(Some((copy.source.copy()?, copy.source_rev)))
    }

    /// The number of the last change that deletes the path or one above it.
    fn last_delete(&self, path: &[u8]) -> Option<u32>
        requires { IsTrue (is_path path.now) }
        ensures { result ≡ deleted_in self.now (ancestors path.now) }
    {
        let here = self.delete_at(path);
        match parent_text(path) {
            None => here,
            Some(parent) => later(here, self.last_delete(parent)),
        }
    }

    /// The number of the last change that deletes the path.
    fn delete_at(&self, path: &[u8]) -> Option<u32>
        ensures { result ≡ (last_at path.now self.now).delete }
    {
        match self.row_at(path) {
            Some(row) => row.delete,
            None => None,
        }
    }

    /// The last copy to the path.
    fn copy_at(&self, path: &[u8]) -> Option<&LastCopy>
        ensures { option_map copy_in (option_copied result) ≡ (last_at path.now self.now).copy }
    {
        match self.row_at(path) {
            Some(row) => match &row.copy {
                Some(copy) => Some(copy),
                None => None,
            },
            None => None,
        }
    }

    /// The row of the path, if a change names it.
    fn row_at(&self, path: &[u8]) -> Option<&Row>
        ensures { option_map last_in (option_copied result) ≡ find (slice_cmp nat_cmp) path.now self.now }
    {
        self.rows.get(path)
    }
}

fn rows_of(alloc: Global, changes: &[Change]) -> Result<BTreeMap<Vec<u8>, Row>, NoMemory>
    requires { length changes.now ≤ 4294967295 }
    ensures rows { IfOk result (λ rows. AreRowsOf (λ k. k.items) (noted_from 0 changes.now []) rows.entries) }
    ensures paths { IfOk result (λ rows. IsTrue (list_all has_named_path changes.now)) }
{
    let mut rows = BTreeMap::new(alloc);
    let mut number: u32 = 0;
    'changes: for change in changes {
        note(alloc, &mut rows, change, number)?;
        number += 1;
    }
    Ok(rows)
}

/// Notes a change of this number at its path.
fn note(
    alloc: Global,
    rows: &mut BTreeMap<Vec<u8>, Row>,
    change: &Change,
    number: u32,
) -> Result<(), NoMemory>
    requires { IsTrue (are_at_paths (λ k. k.items) rows.old.entries) }
    ensures noted { OnOk result (AreRowsOf (λ k. k.items)
        (noted_in number change.now (table_in (λ k. k.items) rows.old.entries)) rows.new.entries) }
    ensures path { IsTrue (is_path (path_of change.now)) }
{
    let path = path_of(change);
    match rows.get_mut(path.text()) {
        Some(row) => row.note(change, number),
        None => {
            let mut row = Row::new(path)?;
            row.note(change, number)?;
            let key = Vec::from_slice(alloc, path.text())?;
            rows.insert(key, row)?;
            Ok(())
        }
    }
}

/// The rows of a map, each with its own path.
fn rows_in<'a>(
    alloc: Global,
    rows: &'a BTreeMap<Vec<u8>, Row>,
) -> Result<Vec<NamedPath<'a>>, NoMemory>
    ensures { IfOk result (λ all. all.items ≡ rows_in rows.now.entries) }
{
    let mut all = Vec::with_capacity(alloc, rows.len())?;
    'rows: for (_key, row) in rows {
        all.push(NamedPath::of(row))?;
    }
    Ok(all)
}

/// The later of two numbers.
fn later(one: Option<u32>, other: Option<u32>) -> Option<u32>
    ensures { result ≡ later one other }
{
    match (one, other) {
        (None, other) => other,
        (Some(one), None) => Some(one),
        (Some(one), Some(other)) => {
            if one < other {
                return Some(other);
            }
            Some(one)
        }
    }
}
