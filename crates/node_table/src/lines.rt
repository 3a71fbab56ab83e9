ghost use Rattle.std.specs.Prelude.{◌≡◌, ◌<◌, IsTrue, IfOk, length};
ghost use Rattle.dsv_base.specs.Paths.{is_path, components, join_text};
ghost use Rattle.rev_nodes.specs.SoundNodes.{is_from_path};
ghost use Rattle.node_table.specs.Ways.{names_in};
ghost use Rattle.node_table.specs.Tables.{carried_line, below_line, IsSoundTable};
ghost use Rattle.node_table.specs.Rebuilt.{root_spot};
ghost use Rattle.node_table.specs.Lines.{spot_with, line_seen, ComeFromPaths};

use crate::names::first_name;
use crate::places::below_root;
use crate::reading::{cell_of, child_at};
use dsv_base::{NoMemory, Path, PathFault};
use rev_nodes::{Cell, Line, NodeId};

/// The path with a name behind it.
fn joined(path: &Path, name: &[u8]) -> Result<Path, NoMemory>
    requires { IsTrue (is_path (join_text path.now name.now)) }
    ensures { IfOk result (λ joined. joined ≡ join_text path.now name.now) }
{
    match path.join(name) {
        Ok(joined) => Ok(joined),
        Err(PathFault::NoMemory) => Err(NoMemory),
        Err(PathFault::BadPath) => unreachable!(),
    }
}

/// The line that a copy of the directory above gives to what stands in it.
fn carried(above: &Line, name: &[u8]) -> Result<Line, NoMemory>
    requires { IsTrue (is_from_path (carried_line above.now name.now).source) }
    ensures { IfOk result (λ line. line ≡ carried_line above.now name.now) }
{
    let source = match &above.source {
        Some((path, rev)) => Some((joined(path, name)?, *rev)),
        None => None,
    };
    Ok(Line {
        since: above.since,
        source,
    })
}

/// The line of a place, of the two that it may have: the younger.
fn line_below(above: &Line, name: &[u8], own: &Line) -> Result<Line, NoMemory>
    requires { IsTrue (is_from_path (below_line above.now name.now own.now).source) }
    ensures { IfOk result (λ line. line ≡ below_line above.now name.now own.now) }
{
    if above.since.get() <= own.since.get() {
        return own.copy();
    }
    carried(above, name)
}

/// The line where names lead to from a place with this line.
fn line_from(cells: &[Cell], id: NodeId, line: &Line, rest: &[u8]) -> Result<Option<Line>, NoMemory>
    requires sound { IsSoundTable cells.now }
    requires within { id < length cells.now }
    requires paths { ComeFromPaths cells.now (spot_with id line.now) }
    ensures { IfOk result (λ found. found ≡ line_seen cells.now (spot_with id line.now) (components rest.now)) }
{
    match first_name(rest) {
        None => match child_at(cells, id, rest) {
            None => Ok(None),
            Some(child) => Ok(Some(line_below(line, rest, &cell_of(cells, child).line)?)),
        },
        Some((name, after)) => match child_at(cells, id, name) {
            None => Ok(None),
            Some(child) => {
                let line = line_below(line, name, &cell_of(cells, child).line)?;
                line_from(cells, child, &line, after)
            }
        },
    }
}

/// The line at a path of the tree of a root.
pub fn line_at(cells: &[Cell], root: NodeId, path: &Path) -> Result<Option<Line>, NoMemory>
    requires sound { IsSoundTable cells.now }
    requires within { root < length cells.now }
    requires paths { ComeFromPaths cells.now (root_spot cells.now root) }
    ensures { IfOk result (λ found.
        found ≡ line_seen cells.now (root_spot cells.now root) (names_in path.now)) }
{
    let line = &cell_of(cells, root).line;
    match below_root(path.text()) {
        None => Ok(Some(line.copy()?)),
        Some(rest) => line_from(cells, root, line, rest),
    }
}
