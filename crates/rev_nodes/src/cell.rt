use crate::entry::Entry;
use crate::height::Height;
use crate::line::Line;
use crate::node::Node;
use crate::shared::Shared;

/// A node as a table of nodes holds it, with what stands in it.
#[derive(Debug, Drop)]
pub struct Cell {
    pub node: Node,
    /// Where its line began, unless a copy of a directory above it is younger.
    pub line: Line,
    /// What stands in it, in byte order of the names; nothing in a file.
    pub entries: Shared<Entry>,
    /// How long the longest ways below it are.
    pub height: Height,
}
