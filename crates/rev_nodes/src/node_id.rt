use std::marker::Model;

/// The number of a node among the trees of a repository.
#[derive(Clone, Copy, Debug, PartialEq, Eq)]
pub struct NodeId {
    number: u64,
}

impl Model for NodeId {
    ghost use Rattle.std.specs.Prelude.{ℕ};

    ghost Value = { ℕ };

    ghost view = { λ i. i.number };

    ghost inverse = { λ n. record { number = n } };
}

impl NodeId {
    ghost use Rattle.std.specs.Prelude.{◌≡◌};

    /// The id of this number. It names a node only where trees say so.
    pub fn of(number: u64) -> NodeId
        ensures { result ≡ number }
    {
        NodeId { number }
    }

    /// The number.
    pub fn get(&self) -> u64
        ensures { result ≡ self.now }
    {
        self.number
    }
}
