ghost use Rattle.std.specs.Prelude.{◌≡◌};

use crate::glance::Glance;
use dsv_base::Rev;
use rev_nodes::{Node, NodeId};

/// What is read at a place on the way to another: what a glance sees, and the number of the table
/// whose entries stand in it where no edit says otherwise.
#[derive(Clone, Copy, Debug)]
pub struct Sight {
    pub glance: Glance,
    pub under: Option<NodeId>,
}

impl Sight {
    /// A node at a place whose line began in `since`, with the number of what stands in it.
    pub fn of(node: &Node, since: Rev, under: Option<NodeId>) -> Sight
        ensures { result ≡ record {
          glance = record { kind = node.now.kind; created = node.now.created; since = since };
          under = under;
        } }
    {
        Sight {
            glance: Glance {
                kind: node.kind,
                created: node.created,
                since,
            },
            under,
        }
    }
}
