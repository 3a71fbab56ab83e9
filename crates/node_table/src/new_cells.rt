ghost use Rattle.std.specs.Prelude.{◌≡◌};
ghost use Rattle.node_table.specs.Steps.{new_cell};

use dsv_base::Rev;
use rev_nodes::{Cell, Height, Kind, Line, Node, Shared, Text};

/// A cell that begins in this revision, by no copy, without properties and with nothing in it.
pub fn new_cell(kind: Kind, text: Text, rev: Rev) -> Cell
    ensures { result ≡ new_cell rev kind text }
{
    Cell {
        node: Node::new(kind, text, rev),
        line: Line::new(rev),
        entries: Shared::none(),
        height: Height { names: 0, bytes: 0 },
    }
}
