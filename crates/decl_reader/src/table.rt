//! The nodes of the descriptors that were read whole.

ghost use Rattle.std.specs.Prelude.{◌≡◌, ◌<◌, List, [], ℕ, length, OnOk, IfSome, option_map};
ghost use Rattle.type_terms.specs.declared.descriptors.Node.{Node};
ghost use Rattle.decl_spelling.specs.Tables.{at, free_to};
ghost use Rattle.decl_reader.specs.Blocks.{made_of, table_of, finished_of, with_entry, AllInside};
ghost use Rattle.decl_reader.specs.Places.{AllPlaced, IsStacked};

use crate::places::{Place, Places};
use smallvec::SmallVec;
use std::alloc::{AllocError, Global};
use std::marker::Model;
use type_terms::NodeId;

/// Where a descriptor ends in the data section, and the node of its type.
#[derive(Clone, Copy, Debug)]
pub(crate) struct Finished {
    pub(crate) end: u64,
    pub(crate) node: NodeId,
}

/// Such descriptors by their offsets. Contracts see them as a list, in the order of their places.
#[derive(Drop)]
pub(crate) struct Table {
    places: Places,
    /// The nodes by the indices of the places.
    nodes: SmallVec<NodeId, 8>,
}

impl Model for Table {
    ghost use Rattle.std.specs.Prelude.{List, length};
    ghost use Rattle.decl_reader.specs.Blocks.{Entry, made_of};
    ghost use Rattle.decl_reader.specs.Places.{AllPlaced};

    ghost Value = { List Entry };

    ghost view = { λ t. made_of t.nodes.items t.places };

    ghost invariant = { λ t. AllPlaced (length t.nodes.items) t.places };
}

impl Table {
    /// No descriptor has a node. It takes no memory.
    pub(crate) fn new(alloc: Global) -> Table
        ensures { result ≡ [] }
    {
        Table {
            places: Places::new(alloc),
            nodes: SmallVec::new(alloc),
        }
    }

    /// What is finished at the offset.
    pub(crate) fn at(&self, offset: u64) -> Option<Finished>
        ensures found { (nodes : List Node)
            → option_map (finished_of nodes) result ≡ at (table_of nodes self.now) offset }
        ensures inside { (size : ℕ) → AllInside size self.now → IfSome result (λ finished. finished.node < size) }
    {
        made_at(&self.places, self.nodes.as_slice(), offset)
    }

    /// The first byte from the offset on that one of the descriptors has, or else the limit. It takes two look-ups.
    pub(crate) fn free_to(&self, offset: u64, limit: u64) -> u64
        ensures { (nodes : List Node) → IsStacked (table_of nodes self.now)
            → result ≡ free_to offset limit (table_of nodes self.now) }
    {
        self.places.free_to(offset, limit)
    }

    /// Adds the node of a descriptor that starts at the offset.
    pub(crate) fn insert(&mut self, offset: u64, finished: Finished) -> Result<(), AllocError>
        ensures added { OnOk result (self.new ≡ with_entry self.old offset finished) }
    {
        let Finished { end, node } = finished;
        let index = self.nodes.len();
        self.nodes.push(node)?;
        self.places.insert(offset, Place { end, index })?;
        Ok(())
    }
}

/// What is finished at the offset, by its place.
fn made_at(places: &Places, nodes: &[NodeId], offset: u64) -> Option<Finished>
    requires inside { AllPlaced (length nodes.now) places.now }
    ensures found { (trees : List Node)
        → option_map (finished_of trees) result ≡ at (table_of trees (made_of nodes.now places.now)) offset }
    ensures inside { (size : ℕ) → AllInside size (made_of nodes.now places.now)
        → IfSome result (λ finished. finished.node < size) }
{
    match places.at(offset) {
        Some(Place { end, index }) => Some(Finished {
            end,
            node: nodes[index],
        }),
        None => None,
    }
}
