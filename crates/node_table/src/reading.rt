ghost use Rattle.std.specs.Prelude.{◌≡◌, ◌<◌, Some, None, length, IsTrue, IfOk, OnErr};
ghost use Rattle.std.specs.Ordering.{nat_cmp};
ghost use Rattle.std.specs.Cmp.Lexicographic.{slice_cmp};
ghost use Rattle.dsv_base.specs.Paths.{components};
ghost use Rattle.node_table.specs.Tables.{cell_at, child, entries_rise, IsEntryAt, child_in, reach, IsSoundTable};

use crate::names::first_name;
use rev_nodes::{Cell, Entry, NodeId};
use std::cmp::Ordering;

/// The cell of a number.
pub fn cell_of(cells: &[Cell], id: NodeId) -> &Cell
    requires { id < length cells.now }
    ensures { result.now ≡ cell_at cells.now id }
{
    &cells[id.get() as usize]
}

/// Where a name stands among entries in order, or else where it would stand.
fn search(entries: &[Entry], name: &[u8]) -> Result<usize, usize>
    requires { IsTrue (entries_rise entries.now) }
    ensures found { IfOk result (IsEntryAt entries.now name.now) }
    ensures missing { OnErr result (child name.now entries.now ≡ None) }
{
    entries.binary_search_by(
        |other: &Entry| -> Ordering
            ensures { result ≡ slice_cmp nat_cmp other.now.name name.entry.now }
        { other.name.get().cmp(name) },
    )
}

/// The number of the entry with a name, among entries in order.
#[tactic(auto, using(crate::proofs::EntriesFound::child_of_found))]
fn child_of(entries: &[Entry], name: &[u8]) -> Option<NodeId>
    requires { IsTrue (entries_rise entries.now) }
    ensures { result ≡ child name.now entries.now }
{
    match search(entries, name) {
        Ok(index) => Some(entries[index].id),
        Err(_) => None,
    }
}

/// The number at a name in a directory.
pub fn child_at(cells: &[Cell], id: NodeId, name: &[u8]) -> Option<NodeId>
    requires sound { IsSoundTable cells.now }
    requires within { id < length cells.now }
    ensures { result ≡ child_in cells.now name.now id }
{
    child_of(cell_of(cells, id).entries.get(), name)
}

/// The number that names lead to.
#[tactic(auto, using(crate::proofs::Growing::reach_none, crate::proofs::Growing::child_within))]
pub fn reached(cells: &[Cell], id: NodeId, rest: &[u8]) -> Option<NodeId>
    requires sound { IsSoundTable cells.now }
    requires within { id < length cells.now }
    ensures { result ≡ reach cells.now (Some id) (components rest.now) }
{
    match first_name(rest) {
        None => child_at(cells, id, rest),
        Some((name, after)) => match child_at(cells, id, name) {
            None => None,
            Some(child) => reached(cells, child, after),
        },
    }
}
