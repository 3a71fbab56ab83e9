use dsv_base::{Path, Rev};
use rev_nodes::Node;
use std::marker::Model;

/// A node, with the revision and the path at which it is asked about.
#[derive(Debug, Drop)]
pub struct NodePlace<'a> {
    pub rev: Rev,
    pub path: &'a Path,
    pub node: &'a Node,
}

impl<'a> Model for NodePlace<'a> {
    ghost use Rattle.prop_values.specs.Places.{NodePlace as Place};

    ghost Value = { Place };

    ghost view = { λ p. record { rev = p.rev; path = p.path.now; node = p.node.now } };
}

/// What has properties.
#[derive(Debug, Drop)]
pub enum Subject<'a> {
    /// A node that is asked about as one of the youngest revision.
    YoungestNode(NodePlace<'a>),
    /// A node that is asked about as one of a revision that was named.
    RevisionNode(NodePlace<'a>),
    /// A revision.
    WholeRevision(Rev),
}
