ghost use Rattle.std.specs.Prelude.{◌≡◌, ℕ, Some, IfOk};
ghost use Rattle.node_table.specs.Tables.{below_line};
ghost use Rattle.tree_edits.specs.Hanging.{marked_held, held_with_text, held_with_props};

use crate::held::Held;
use dsv_base::{NoMemory, Prop, Rev};
use rev_nodes::{Line, Node, NodeId, Shared, Text};
use std::marker::Model;

/// What stands at a place, read without a copy of its node. Contracts see it as what is held there.
#[derive(Drop)]
pub struct Place<'a> {
    node: &'a Node,
    line: Line,
    under: Option<NodeId>,
}

impl<'a> Model for Place<'a> {
    ghost use Rattle.tree_edits.specs.Edits.{Held};

    ghost Value = { Held };

    ghost view = { λ p. record { node = p.node.now; line = p.line; under = p.under } };
}

impl<'a> Place<'a> {
    /// A node at a place of this line, with the number of what stands in it.
    pub(crate) fn of(node: &'a Node, line: Line, under: Option<NodeId>) -> Place<'a>
        ensures { result ≡ record { node = node.now; line = line; under = under } }
    {
        Place { node, line, under }
    }

    /// The node.
    pub fn node(&self) -> &Node
        ensures { result.now ≡ self.now.node }
    {
        self.node
    }

    /// Its line.
    pub fn line(&self) -> &Line
        ensures { result.now ≡ self.now.line }
    {
        &self.line
    }

    /// The number of the table whose entries stand in it where no edit says otherwise.
    pub fn under(&self) -> Option<NodeId>
        ensures { result ≡ self.now.under }
    {
        self.under
    }

    /// What is held there after a change of this revision at or below it.
    pub(crate) fn into_held(self, rev: Rev) -> Result<Held, NoMemory>
        ensures { IfOk result (λ held. held ≡ marked_held rev self.entry) }
    {
        let node = self.node.marked(rev)?;
        Ok(Held {
            node,
            line: self.line,
            under: self.under,
        })
    }

    /// The same with another text.
    pub(crate) fn into_held_with_text(self, text: &Text, rev: Rev) -> Result<Held, NoMemory>
        ensures { IfOk result (λ held. held ≡ held_with_text rev text.now self.entry) }
    {
        let node = Node {
            kind: self.node.kind,
            props: self.node.props.share()?,
            text: text.share()?,
            created: rev,
        };
        Ok(Held {
            node,
            line: self.line,
            under: self.under,
        })
    }

    /// The same with other properties.
    pub(crate) fn into_held_with_props(
        self,
        props: Shared<Prop>,
        rev: Rev,
    ) -> Result<Held, NoMemory>
        ensures { IfOk result (λ held. held ≡ held_with_props rev props self.entry) }
    {
        let node = Node {
            kind: self.node.kind,
            props,
            text: self.node.text.share()?,
            created: rev,
        };
        Ok(Held {
            node,
            line: self.line,
            under: self.under,
        })
    }
}

/// The line of a place by that of its directory: the younger of the two, and its own where both are
/// as young. A source's text with a name behind it is a path wherever the source had what was
/// copied; where it is none, this answers want of memory.
pub(crate) fn below_line(above: &Line, name: &[u8], own: &Line) -> Result<Line, NoMemory>
    ensures { IfOk result (λ line. line ≡ below_line above.now name.now own.now) }
{
    if above.since.get() <= own.since.get() {
        return own.copy();
    }
    let source = match &above.source {
        None => None,
        Some((path, rev)) => match path.join(name) {
            Ok(path) => Some((path, *rev)),
            Err(_) => return Err(NoMemory),
        },
    };
    Ok(Line {
        since: above.since,
        source,
    })
}
