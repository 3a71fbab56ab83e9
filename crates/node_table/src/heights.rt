ghost use Rattle.std.specs.Prelude.{◌≡◌, ◌<◌, ◌+◌, min, true, false, length};
ghost use Rattle.node_table.specs.Heights.{height_below, higher};
ghost use Rattle.node_table.specs.Tables.{IsSoundTable};
ghost use Rattle.node_table.specs.Limits.{AllFit, HasLong};

use crate::reading::cell_of;
use rev_nodes::{Cell, Height, NodeId};

/// The most bytes that are told of a way.
const MOST_BYTES: usize = 65_535;

/// The bytes of a way with a name before it.
fn bytes_below(name: &[u8], below: u16) -> u16
    ensures { result ≡ min 65535 (below + length name.now + 1) }
{
    let bytes = below as usize + name.len() + 1;
    bytes.min(MOST_BYTES) as u16
}

/// The height with one more entry, by its name and the height of its node.
pub fn height_with(height: Height, name: &[u8], below: Height) -> Height
    ensures { result ≡ higher (height_below name.now below) height }
{
    let names = below.names.saturating_add(1);
    let bytes = bytes_below(name, below.bytes);
    Height {
        names: names.max(height.names),
        bytes: bytes.max(height.bytes),
    }
}

/// Whether all below a number has at most so many names, and so many bytes with a slash before each.
pub fn fits_below(cells: &[Cell], id: NodeId, levels: u64, bytes: u64) -> bool
    requires sound { IsSoundTable cells.now }
    requires within { id < length cells.now }
    requires few { levels < 255 }
    requires short { bytes < 65535 }
    ensures all { result ≡ true → AllFit cells.now levels bytes id }
    ensures some { result ≡ false → HasLong cells.now levels bytes id }
{
    let height = cell_of(cells, id).height;
    if height.names as u64 > levels {
        return false;
    }
    height.bytes as u64 <= bytes
}
