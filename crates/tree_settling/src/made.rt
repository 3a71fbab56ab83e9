ghost use Rattle.std.specs.Prelude.{◌≡◌};

use rev_nodes::NodeId;
use std::marker::Model;

/// What came to stand at a path, or at a name in a directory: the number of a cell, or nothing.
#[derive(Drop)]
pub(crate) struct Made<'a> {
    at: &'a [u8],
    id: Option<NodeId>,
}

impl<'a> Model for Made<'a> {
    ghost use Rattle.std.specs.Prelude.{ℕ, List, Option};

    ghost Value = { List ℕ × Option ℕ };

    ghost view = { λ m. (m.at.now, m.id) };
}

impl<'a> Made<'a> {
    pub(crate) fn of(at: &'a [u8], id: Option<NodeId>) -> Made<'a>
        ensures { result ≡ (at.now, id) }
    {
        Made { at, id }
    }

    /// The path or the name.
    pub(crate) fn at(&self) -> &'a [u8]
        ensures { result.now ≡ self.now.0 }
    {
        self.at
    }

    pub(crate) fn id(&self) -> Option<NodeId>
        ensures { result ≡ self.now.1 }
    {
        self.id
    }
}
