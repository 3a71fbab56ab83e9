use rev_nodes::{Line, Node, NodeId};

/// What stands at a place: its node, its line, and the number of the table whose entries stand in it
/// where no edit says otherwise.
#[derive(Debug, Drop)]
pub struct Held {
    pub node: Node,
    pub line: Line,
    pub under: Option<NodeId>,
}
