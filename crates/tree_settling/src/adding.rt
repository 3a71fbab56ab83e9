ghost use Rattle.std.specs.Prelude.{◌≡◌, ◌<◌, ◌+◌, ℕ, IfOk, OnOk, Some, length, reverse};
ghost use Rattle.node_table.specs.Tables.{IsSoundTable};
ghost use Rattle.tree_settling.specs.Listed.{AreBehind};
ghost use Rattle.tree_settling.specs.Settled.{IsCellOf, IsAdded};

use crate::inside::{Inside, settled_inside};
use crate::listing::listed;
use crate::made::Made;
use dsv_base::NoMemory;
use rev_nodes::{Cell, NodeId};
use std::alloc::Global;
use tree_edits::Held;

/// Adds the cell of what stands at a touched path, of which all below it was made before.
pub(crate) fn add(
    alloc: Global,
    cells: &[Cell],
    more: &mut Vec<Cell>,
    made: &[Made],
    path: &[u8],
    held: &Held,
) -> Result<NodeId, NoMemory>
    requires sound { IsSoundTable cells.now }
    requires within { (id : ℕ) → held.now.under ≡ Some id → id < length cells.now }
    requires behind { AreBehind path.now (reverse made.now) }
    ensures number { IfOk result (λ id. id ≡ length cells.now + length more.old.items) }
    ensures added { OnOk result (
        IsAdded cells.now (reverse made.now) path.now held.now more.old.items more.new.items) }
{
    let cell = cell_for(alloc, cells, more.as_slice(), made, path, held)?;
    let id = NodeId::of(cells.len() as u64 + more.len() as u64);
    more.push(cell)?;
    Ok(id)
}

fn cell_for(
    alloc: Global,
    cells: &[Cell],
    more: &[Cell],
    made: &[Made],
    path: &[u8],
    held: &Held,
) -> Result<Cell, NoMemory>
    requires sound { IsSoundTable cells.now }
    requires within { (id : ℕ) → held.now.under ≡ Some id → id < length cells.now }
    requires behind { AreBehind path.now (reverse made.now) }
    ensures { IfOk result (λ cell. IsCellOf cells.now more.now (reverse made.now) path.now held.now cell) }
{
    let names = listed(alloc, path, made)?;
    let inside = settled_inside(alloc, cells, more, names.as_slice(), held)?;
    let node = held.node.marked(held.node.created)?;
    let line = held.line.copy()?;
    let Inside { entries, height } = inside;
    Ok(Cell {
        node,
        line,
        entries,
        height,
    })
}
