ghost use Rattle.std.specs.Prelude.{◌≡◌, ◌++◌};
ghost use Rattle.node_table.specs.Tables.{cell_at, height_over};

use node_table::height_with;
use rev_nodes::{Cell, Entry, Height, NodeId};

/// The height of a directory with these entries, whose cells stand in the table or behind it.
pub(crate) fn height_among(cells: &[Cell], more: &[Cell], entries: &[Entry]) -> Height
    ensures { result ≡ height_over (cells.now ++ more.now) entries.now }
{
    let mut height = Height { names: 0, bytes: 0 };
    'entries: for entry in entries {
        let below = height_at(cells, more, entry.id);
        height = height_with(height, entry.name.get(), below);
    }
    height
}

/// The height of a cell of the table or behind it.
pub(crate) fn height_at(cells: &[Cell], more: &[Cell], id: NodeId) -> Height
    ensures { result ≡ (cell_at (cells.now ++ more.now) id).height }
{
    let index = id.get() as usize;
    if index < cells.len() {
        return cells[index].height;
    }
    match more.get(index - cells.len()) {
        Some(cell) => cell.height,
        None => Height { names: 0, bytes: 0 },
    }
}
