ghost use Rattle.std.specs.Prelude.{◌≡◌, ℕ};

use std::marker::Model;

/// The number of a node in an arena: its place among the nodes, from 0. A contract sees the number.
#[derive(Clone, Copy, Debug, Default, PartialEq, Eq, PartialOrd, Ord, Hash)]
pub struct NodeId {
    place: u32,
}

impl Model for NodeId {
    ghost Value = { ℕ };

    ghost view = { λ id. id.place };

    ghost inverse = { λ number. record { place = number } };
}

impl NodeId {
    pub(crate) fn at(place: u32) -> NodeId
        ensures { result ≡ place }
    {
        NodeId { place }
    }

    /// The node's place in its arena.
    pub fn number(self) -> u32
        ensures { result ≡ self }
    {
        self.place
    }
}
