ghost use Rattle.std.specs.Prelude.{◌≡◌, [], IfOk};

use crate::kind::Kind;
use crate::shared::Shared;
use crate::text::Text;
use dsv_base::{NoMemory, Prop, Rev};

/// A node of a tree, as far as it is the same at every place where it stands.
#[derive(Debug, Drop)]
pub struct Node {
    pub kind: Kind,
    /// In byte order of the name, each name once.
    pub props: Shared<Prop>,
    /// Empty for a directory.
    pub text: Text,
    /// The revision of the last change at the node or below it.
    pub created: Rev,
}

impl Node {
    /// A node without properties whose last change is of this revision.
    pub fn new(kind: Kind, text: Text, rev: Rev) -> Node
        ensures { result ≡ record { kind = kind; props = []; text = text; created = rev } }
    {
        Node {
            kind,
            props: Shared::none(),
            text,
            created: rev,
        }
    }

    /// The node as a change of this revision at or below it leaves it; it has its properties and its
    /// text together with this one. Its one error is want of memory.
    pub fn marked(&self, rev: Rev) -> Result<Node, NoMemory>
        ensures { IfOk result (λ node. node ≡ record self.now { created = rev }) }
    {
        Ok(Node {
            kind: self.kind,
            props: self.props.share()?,
            text: self.text.share()?,
            created: rev,
        })
    }
}
