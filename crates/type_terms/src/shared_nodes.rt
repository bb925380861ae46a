ghost use Rattle.std.specs.Prelude.{◌≡◌, ◌↔◌, true, false, ◌≢◌, ◌<◌, ◌≤◌, ◌^◌, ◌++◌, ◌∷◌, [], ℕ, Ok, Err, Some, IfOk};
ghost use Rattle.std.specs.Prelude.{OnErr, OnOk, IsErrOf, IsTrue, IfSome, IfNone, length};
ghost use Rattle.type_terms.specs.Additions.{AddsOnly, Outgrows};
ghost use Rattle.type_terms.specs.Arenas.{IsNode, IsNew, AllBelow, IsArena, Extends, Inserted};
ghost use Rattle.type_terms.specs.Denotation.{tree};
ghost use Rattle.type_terms.specs.NodeShapes.{node_shape, children};
ghost use Rattle.type_terms.specs.Parts.{MeetsBase};
ghost use Rattle.type_terms.specs.Shapes.{retype};
ghost use Rattle.type_terms.specs.Trees.{tree_of};

use crate::descriptors::Node;
use crate::node_numbers::NodeId;
use indexmap::IndexSet;
use std::alloc::{AllocError, Global};
use std::marker::Model;

/// The most nodes that an arena may have.
pub const MAX_NODES: u32 = 1 << 28;

/// Why an arena takes no node.
#[derive(Clone, Copy, Debug, PartialEq, Eq)]
pub enum ArenaError {
    /// The node isn't there, and the arena has as many as its limit.
    Full,
    OutOfMemory,
}

/// Nodes that share their parts: a node stands behind the nodes that it holds, and no node stands twice, so two
/// numbers denote the same type exactly where they are equal. A contract sees the nodes in order, and the limit.
#[derive(Drop)]
pub struct Arena {
    nodes: IndexSet<Node>,
    limit: u32,
}

impl Model for Arena {
    ghost use Rattle.std.specs.Prelude.{◌≤◌, length};
    ghost use Rattle.type_terms.specs.Arenas.{Contents, IsArena};
    ghost use Rattle.type_terms.specs.declared.shared_nodes.TheConstants.{MAX_NODES};

    ghost Value = { Contents };

    ghost view = { λ arena. record { nodes = arena.nodes.keys; limit = arena.limit } };

    ghost invariant = { λ arena. IsArena arena.nodes.keys × (length arena.nodes.keys ≤ arena.limit)
        × (arena.limit ≤ MAX_NODES) };
}

impl Arena {
    /// An arena with no nodes, that may have as many as the limit. Takes no memory.
    pub fn new(alloc: Global, limit: u32) -> Arena
        requires small { limit ≤ MAX_NODES }
        ensures { result ≡ record { nodes = []; limit = limit } }
    {
        Arena {
            nodes: IndexSet::new(alloc),
            limit,
        }
    }

    /// How many nodes the arena has. Takes no memory.
    pub fn len(&self) -> u32
        ensures count { result ≡ length self.now.nodes }
        ensures arena { IsArena self.now.nodes }
        ensures within { length self.now.nodes ≤ self.now.limit }
        ensures small { self.now.limit ≤ MAX_NODES }
    {
        self.nodes.len() as u32
    }

    /// Whether the arena has no nodes.
    pub fn is_empty(&self) -> bool
        ensures { IsTrue result ↔ (length self.now.nodes ≡ 0) }
    {
        self.nodes.is_empty()
    }

    /// How many nodes the arena may have.
    pub fn limit(&self) -> u32
        ensures { result ≡ self.now.limit }
    {
        self.limit
    }

    /// The node with a number. Takes no memory.
    pub fn node(&self, id: NodeId) -> &Node
        requires there { id < length self.now.nodes }
        ensures node { IsNode self.now.nodes id result.now }
        ensures denotes { tree self.now.nodes id ≡ tree_of (retype (tree self.now.nodes) (node_shape result.now)) }
        ensures falls { AllBelow id (children result.now) }
        ensures arena { IsArena self.now.nodes }
    {
        self.nodes.get_index(id.number() as usize).unwrap()
    }

    /// The number of an equal node, if there is one. Takes no memory.
    pub fn find(&self, node: &Node) -> Option<NodeId>
        ensures found { IfSome result (λ id. IsNode self.now.nodes id node.now) }
        ensures within { IfSome result (λ id. id < length self.now.nodes) }
        ensures missing { IfNone result (IsNew self.now.nodes node.now) }
    {
        let (place, _) = self.nodes.get_full(node)?;
        Some(NodeId::at(place as u32))
    }

    /// The number of the node, which is added where no equal one is there. Costs the hash of the node, however many
    /// there are. Its children have to be in the arena, and an instance has the name of a generic type and an argument.
    pub fn add(&mut self, node: Node) -> Result<NodeId, ArenaError>
        requires children { AllBelow (length self.old.nodes) (children node) }
        requires generic { MeetsBase (retype (tree self.old.nodes) (node_shape node)) }
        ensures node { IfOk result (λ id. IsNode self.new.nodes id node) }
        ensures within { IfOk result (λ id. id < length self.new.nodes) }
        ensures denotes { IfOk result (λ id.
            tree self.new.nodes id ≡ tree_of (retype (tree self.old.nodes) (node_shape node))) }
        // an equal node is there
        ensures present { (id : ℕ) → IsNode self.old.nodes id node → (result ≡ Ok id) × (self.new ≡ self.old) }
        ensures new { IsNew self.old.nodes node
            → IfOk result (λ id. (id ≡ length self.old.nodes) × (self.new.nodes ≡ self.old.nodes ++ node ∷ [])) }
        ensures full { IsErrOf result ArenaError.Full → IsNew self.old.nodes node
            × (length self.old.nodes ≡ self.old.limit) }
        ensures exact { IsNew self.old.nodes node → length self.old.nodes ≡ self.old.limit
            → result ≡ Err ArenaError.Full }
        ensures refused { OnErr result (self.new ≡ self.old) }
        ensures extends { Extends self.old self.new }
        ensures adds { AddsOnly (tree_of (retype (tree self.old.nodes) (node_shape node)) ∷ []) self.old self.new }
        ensures outgrown { IsErrOf result ArenaError.Full
            → Outgrows self.old (tree_of (retype (tree self.old.nodes) (node_shape node)) ∷ []) }
        ensures arena { IsArena self.new.nodes }
    {
        if !self.takes(&node) {
            return Err(ArenaError::Full);
        }
        let Ok(place) = insert(&mut self.nodes, node) else {
            return Err(ArenaError::OutOfMemory);
        };
        Ok(NodeId::at(place as u32))
    }

    /// Whether the node is there, or the limit allows one more.
    fn takes(&self, node: &Node) -> bool
        ensures refuses { result ≡ false → IsNew self.now.nodes node.now × (length self.now.nodes ≡ self.now.limit) }
        ensures room { result ≡ true → IsNew self.now.nodes node.now → length self.now.nodes < self.now.limit }
    {
        self.nodes.len() < self.limit as usize || self.nodes.contains(node)
    }
}

/// The place of the node among these, where it is put behind them if no equal one is there.
fn insert(nodes: &mut IndexSet<Node>, node: Node) -> Result<usize, AllocError>
    requires arena { IsArena nodes.old.keys }
    requires children { AllBelow (length nodes.old.keys) (children node) }
    requires generic { MeetsBase (retype (tree nodes.old.keys) (node_shape node)) }
    ensures inserted { IfOk result (λ place. Inserted nodes.old.keys nodes.new.keys place node) }
    ensures within { IfOk result (λ place. place < length nodes.new.keys) }
    ensures refused { OnErr result ((nodes.new.keys ≡ nodes.old.keys) × IsNew nodes.old.keys node) }
{
    let (place, _) = nodes.insert_full(node)?;
    Ok(place)
}
