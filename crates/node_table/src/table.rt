ghost use Rattle.std.specs.Prelude.{◌≡◌, ◌≤◌, ◌<◌, ◌∷◌, ◌++◌, [], IfOk, OnOk, OnErr, Some, length};
ghost use Rattle.dsv_base.specs.Paths.{root_text};
ghost use Rattle.rev_nodes.specs.Trees.{new_dir};
ghost use Rattle.node_table.specs.Shown.{IsShown};
ghost use Rattle.node_table.specs.Ways.{names_in};
ghost use Rattle.node_table.specs.Tables.{cell_at, reach, IsSoundTable};
ghost use Rattle.node_table.specs.Rebuilt.{root_spot, IsLonger};
ghost use Rattle.node_table.specs.Steps.{IsBase};
ghost use Rattle.node_table.specs.Rooms.{KeepsCells};
ghost use Rattle.node_table.specs.Lines.{line_seen, ComeFromPaths};

use crate::lines::line_at;
use crate::new_cells::new_cell;
use crate::places::place_at;
use crate::reading::cell_of;
use dsv_base::{NoMemory, Path, Rev};
use rev_nodes::{Cell, Entry, Kind, Line, Node, NodeId, Text};
use std::alloc::Global;
use std::marker::Model;

/// A growing table of nodes that trees share, linked by number.
///
/// A number's node and entries never change. A root is the number of a tree's `/`. Contracts see the
/// list of cells, with the room for more, and say what flat tree a root shows.
#[derive(Debug, Drop)]
pub struct Table {
    nodes: Vec<Cell>,
}

impl Model for Table {
    ghost use Rattle.std.specs.Prelude.{◌-◌, vec_len, vec_capacity};
    ghost use Rattle.node_table.specs.Tables.{IsSoundTable};
    ghost use Rattle.node_table.specs.Rooms.{RoomyTable, table_of};

    ghost Value = { RoomyTable };

    ghost view = { λ t. table_of t.nodes.items (vec_capacity t.nodes - vec_len t.nodes) };

    ghost invariant = { λ t. IsSoundTable t.nodes.items };
}

impl Table {
    /// A table without nodes.
    pub fn new(alloc: Global) -> Table
        ensures { result.cells ≡ [] }
    {
        Table {
            nodes: Vec::new(alloc),
        }
    }

    /// Adds the tree of a revision that has the root alone, and gives its root.
    pub fn add_root(&mut self, rev: Rev) -> Result<NodeId, NoMemory>
        ensures base { IfOk result (λ root. IsBase rev self.new.cells root) }
        ensures shown { IfOk result (λ root. IsShown self.new.cells root ((root_text, new_dir rev) ∷ [])) }
        ensures longer { IsLonger self.old.cells self.new.cells }
    {
        push(&mut self.nodes, new_cell(Kind::Dir, Text::empty(), rev))
    }

    /// Its cells, by their numbers.
    pub fn cells(&self) -> &[Cell]
        ensures cells { result.now ≡ self.now.cells }
        ensures sound { IsSoundTable self.now.cells }
    {
        self.nodes.as_slice()
    }

    /// How many nodes it has. Each number is below that.
    pub fn count(&self) -> u64
        ensures { result ≡ length self.now.cells }
    {
        self.nodes.len() as u64
    }

    /// The node of a number.
    pub fn node(&self, id: NodeId) -> &Node
        requires { id < length self.now.cells }
        ensures { result.now ≡ (cell_at self.now.cells id).node }
    {
        &cell_of(self.nodes.as_slice(), id).node
    }

    /// What stands in it, in byte order of the names; nothing in a file.
    pub fn entries(&self, id: NodeId) -> &[Entry]
        requires { id < length self.now.cells }
        ensures { result.now ≡ (cell_at self.now.cells id).entries }
    {
        cell_of(self.nodes.as_slice(), id).entries.get()
    }

    /// The number at a path of the tree of a root.
    pub fn look(&self, root: NodeId, path: &Path) -> Option<NodeId>
        requires { root < length self.now.cells }
        ensures { result ≡ reach self.now.cells (Some root) (names_in path.now) }
    {
        place_at(self.nodes.as_slice(), root, path)
    }

    /// Where the line of the node at a path of the tree of a root begins. Its one error is want of
    /// memory.
    pub fn line(&self, root: NodeId, path: &Path) -> Result<Option<Line>, NoMemory>
        requires within { root < length self.now.cells }
        requires paths { ComeFromPaths self.now.cells (root_spot self.now.cells root) }
        ensures { IfOk result (λ found.
            found ≡ line_seen self.now.cells (root_spot self.now.cells root) (names_in path.now)) }
    {
        line_at(self.nodes.as_slice(), root, path)
    }

    /// Makes room for so many cells more. The table stays as it is.
    pub fn reserve(&mut self, count: usize) -> Result<(), NoMemory>
        ensures kept { KeepsCells self.old self.new }
        ensures room { OnOk result (count ≤ self.new.room) }
    {
        self.nodes.reserve(count)?;
        Ok(())
    }

    /// Adds cells, for which there is room. It takes no memory.
    pub fn append(&mut self, cells: Vec<Cell>)
        requires room { length cells.items ≤ self.old.room }
        requires sound { IsSoundTable (self.old.cells ++ cells.items) }
        ensures { self.new.cells ≡ self.old.cells ++ cells.items }
    {
        let mut cells = cells;
        match self.nodes.append(&mut cells) {
            Ok(()) => (),
            Err(_) => unreachable!(),
        }
    }
}

/// Adds a cell to the table.
fn push(cells: &mut Vec<Cell>, cell: Cell) -> Result<NodeId, NoMemory>
    ensures number { IfOk result (λ id. id ≡ length cells.old.items) }
    ensures cells { OnOk result (cells.new.items ≡ cells.old.items ++ cell ∷ []) }
    ensures full { OnErr result (cells.new.items ≡ cells.old.items) }
    ensures longer { IsLonger cells.old.items cells.new.items }
{
    let id = NodeId::of(cells.len() as u64);
    match cells.push(cell) {
        Ok(()) => Ok(id),
        Err(_) => Err(NoMemory),
    }
}
