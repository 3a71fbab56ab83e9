use crate::node_id::NodeId;
use crate::shared::Shared;

/// A child of a directory: its last component, and the number of its node.
#[derive(Debug, Drop)]
pub struct Entry {
    pub name: Shared<u8>,
    pub id: NodeId,
}
