//! The nodes that were made, and for which.

ghost use Rattle.std.specs.Prelude.{◌≡◌, ◌<◌, [], ℕ, List, Some, length, OnOk, OnErr, IfOk};
ghost use Rattle.type_terms.specs.declared.descriptors.Node.{Node as Descriptor};
ghost use Rattle.std.specs.List.{AllByRecursion};
ghost use Rattle.type_terms.specs.Arenas.{AllBelow, IsArena, Extends};
ghost use Rattle.type_terms.specs.Declarations.{decl_nodes, decl_of};
ghost use Rattle.type_terms.specs.Denotation.{tree};
ghost use Rattle.written_types.specs.Written.{full, written, decl_written};
ghost use Rattle.written_nodes.specs.Pools.{made_for, IsPoolOf, AreWritten, IsMade, HasChildren, Grows};
ghost use Rattle.written_nodes.specs.Searching.{Notes};

use crate::declarations::declaration_written;
use crate::nodes::node_written;
use crate::parts::{Made, number_for};
use crate::reaching::wanted;
use indexmap::IndexMap;
use std::alloc::{AllocError, Global};
use std::marker::Model;
use type_terms::{Arena, DeclNode, MAX_NODES, NodeId, push_decl};

/// Nodes of what is written of types, in an arena of their own: two types are one descriptor of a file exactly where
/// one node was made for both. A contract sees this arena, and for which nodes of another one each was made.
#[derive(Drop)]
pub struct WrittenNodes {
    nodes: Arena,
    made: Made,
}

impl Model for WrittenNodes {
    ghost use Rattle.written_nodes.specs.Pools.{Pool};

    ghost Value = { Pool };

    ghost view = { λ pool. record { nodes = pool.nodes; made = pool.made.entries } };
}

impl WrittenNodes {
    /// No nodes. Takes no memory.
    pub fn new(alloc: Global) -> WrittenNodes
        ensures empty { result.nodes.nodes ≡ [] }
        ensures pool { (from : List Descriptor) → IsPoolOf from result }
    {
        WrittenNodes {
            nodes: Arena::new(alloc, MAX_NODES),
            made: IndexMap::new(alloc),
        }
    }

    /// The arena of the nodes that were made. Takes no memory.
    pub fn nodes(&self) -> &Arena
        ensures { result.now ≡ self.now.nodes }
    {
        &self.nodes
    }

    /// The node that was made for a node, if one was. Takes no memory.
    pub fn written(&self, id: NodeId) -> Option<NodeId>
        ensures { result ≡ made_for self.now.made id }
    {
        self.made.get(&id).copied()
    }

    /// The node of what is written of the type of an arena's node. All calls are given the same arena, to which nodes
    /// may be added between them. Takes time and memory for those nodes of the type for which none was made yet, and
    /// for their uses, however deep types nest.
    pub fn write(&mut self, alloc: Global, arena: &Arena, id: NodeId) -> Result<NodeId, AllocError>
        requires there { id < length arena.now.nodes }
        requires pool { IsPoolOf arena.now.nodes self.old }
        ensures denotes { IfOk result (λ own. tree self.new.nodes.nodes own ≡ written full (tree arena.now.nodes id)) }
        ensures within { IfOk result (λ own. own < length self.new.nodes.nodes) }
        ensures made { IfOk result (λ own. made_for self.new.made id ≡ Some own) }
        ensures pool { IsPoolOf arena.now.nodes self.new }
        ensures grows { Grows self.old self.new }
    {
        let mut left = wanted(alloc, arena, &self.made, id)?;
        while let Some(next) = left.pop() {
            make(alloc, arena, &mut self.nodes, &mut self.made, next)?;
        }
        Ok(number_for(&self.made, id))
    }

    /// What is written of a declaration, over the nodes of what is written of its types. All calls are given the same
    /// arena, as those of `write` are. Takes time and memory for the declaration, and for its types as `write` does.
    pub fn write_declaration(
        &mut self,
        alloc: Global,
        arena: &Arena,
        decl: &DeclNode,
    ) -> Result<DeclNode, AllocError>
        requires there { AllBelow (length arena.now.nodes) (decl_nodes decl.now) }
        requires pool { IsPoolOf arena.now.nodes self.old }
        ensures denotes { IfOk result (λ own. decl_of self.new.nodes.nodes own
            ≡ decl_written full (decl_of arena.now.nodes decl.now)) }
        ensures within { IfOk result (λ own. AllBelow (length self.new.nodes.nodes) (decl_nodes own)) }
        ensures pool { IsPoolOf arena.now.nodes self.new }
        ensures grows { Grows self.old self.new }
    {
        let mut types = Vec::new(alloc);
        push_decl(decl, &mut types)?;
        self.write_all(alloc, arena, &types)?;
        declaration_written(alloc, decl, &self.made)
    }

    /// Makes nodes for some of an arena.
    fn write_all(&mut self, alloc: Global, arena: &Arena, ids: &[NodeId]) -> Result<(), AllocError>
        requires there { AllBelow (length arena.now.nodes) ids.now }
        requires pool { IsPoolOf arena.now.nodes self.old }
        ensures made { OnOk result (AllByRecursion (IsMade self.new.made) ids.now) }
        ensures pool { IsPoolOf arena.now.nodes self.new }
        ensures grows { Grows self.old self.new }
    {
        for id in ids {
            self.write(alloc, arena, *id)?;
        }
        Ok(())
    }
}

/// Makes the node for a node, where those for its children are made.
fn make(
    alloc: Global,
    arena: &Arena,
    nodes: &mut Arena,
    made: &mut Made,
    id: NodeId,
) -> Result<(), AllocError>
    requires there { id < length arena.now.nodes }
    requires written { AreWritten arena.now.nodes nodes.old.nodes made.old.entries }
    requires children { HasChildren arena.now.nodes made.old.entries id }
    ensures written { AreWritten arena.now.nodes nodes.new.nodes made.new.entries }
    ensures kept { (other : ℕ) → IsMade made.old.entries other → IsMade made.new.entries other }
    ensures made { OnOk result (IsMade made.new.entries id) }
    ensures extends { Extends nodes.old nodes.new }
{
    let own = node_for(alloc, arena, nodes, made, id)?;
    note(made, id, own)
}

/// Notes what was made for a node.
fn note(made: &mut Made, id: NodeId, own: NodeId) -> Result<(), AllocError>
    ensures noted { OnOk result (Notes made.old.entries made.new.entries id own) }
    ensures refused { OnErr result (made.new.entries ≡ made.old.entries) }
{
    made.insert(id, own)?;
    Ok(())
}

/// The node for a node.
fn node_for(
    alloc: Global,
    arena: &Arena,
    nodes: &mut Arena,
    made: &Made,
    id: NodeId,
) -> Result<NodeId, AllocError>
    requires there { id < length arena.now.nodes }
    requires written { AreWritten arena.now.nodes nodes.old.nodes made.now.entries }
    requires children { HasChildren arena.now.nodes made.now.entries id }
    ensures denotes { IfOk result (λ own. tree nodes.new.nodes own ≡ written full (tree arena.now.nodes id)) }
    ensures within { IfOk result (λ own. own < length nodes.new.nodes) }
    ensures extends { Extends nodes.old nodes.new }
    ensures arena { IsArena nodes.new.nodes }
{
    let node = node_written(alloc, arena.node(id), nodes, made)?;
    // There are no more than an arena may have: one at most for each node of another.
    nodes.add(node).map_err(|_| AllocError)
}
