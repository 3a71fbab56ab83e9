ghost use Rattle.std.specs.Prelude.{◌≡◌, ◌<◌, [], Some, length, MatchOption, IsTrue};
ghost use Rattle.dsv_base.specs.Paths.{components, is_path};
ghost use Rattle.node_table.specs.Ways.{names_in};
ghost use Rattle.node_table.specs.Tables.{reach, IsSoundTable};

use crate::reading::reached;
use dsv_base::Path;
use rev_nodes::{Cell, NodeId};

/// What of a path's text stands behind its first `/`, if anything does.
pub fn below_root(text: &[u8]) -> Option<&[u8]>
    ensures { MatchOption result (names_in text.now ≡ []) (λ rest. names_in text.now ≡ components rest.now) }
{
    match text {
        [] => None,
        [_] => None,
        [_, _, ..] => Some(&text[1..]),
    }
}

/// The number at a path.
pub fn place_at(cells: &[Cell], root: NodeId, path: &Path) -> Option<NodeId>
    requires sound { IsSoundTable cells.now }
    requires within { root < length cells.now }
    ensures place { result ≡ reach cells.now (Some root) (names_in path.now) }
    ensures path { IsTrue (is_path path.now) }
{
    match below_root(path.text()) {
        None => Some(root),
        Some(rest) => reached(cells, root, rest),
    }
}
