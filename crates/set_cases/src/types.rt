//! Types as nodes of an arena, each made of earlier ones.

ghost use Rattle.std.specs.Prelude.{◌≡◌, ◌<◌, ℕ, length, true};
ghost use Rattle.type_terms.specs.Arenas.{AllBelow};
ghost use Rattle.type_terms.specs.Parts.{MeetsBase};
ghost use Rattle.type_terms.specs.NodeShapes.{node_shape};
ghost use Rattle.type_terms.specs.Shapes.{retype};
ghost use Rattle.type_terms.specs.Trees.{Tree as Meant};

use crate::no_answer::NoAnswer;
use std::alloc::Global;
use type_terms::{Arena, Node, NodeId, push_children};

/// Adds a node that is no instance, and whose parts are there.
pub fn add(alloc: Global, arena: &mut Arena, node: Node) -> Result<NodeId, NoAnswer> {
    if !is_plain(&node) {
        return Err(NoAnswer::NoCase);
    }
    let mut parts = Vec::new(alloc);
    push_children(&node, &mut parts)?;
    if !are_there(arena, &parts) {
        return Err(NoAnswer::NoCase);
    }
    match arena.add(node) {
        Ok(id) => Ok(id),
        Err(_) => Err(NoAnswer::OutOfMemory),
    }
}

/// Whether a node is no instance.
fn is_plain(node: &Node) -> bool
    ensures { result ≡ true → (types : ℕ → Meant) → MeetsBase (retype types (node_shape node.now)) }
{
    match node {
        Node::Instance(..) => false,
        Node::Predeclared(_) => true,
        Node::Named(_) => true,
        Node::Param(_) => true,
        Node::AliasName(_) => true,
        Node::Pointer(_) => true,
        Node::Slice(_) => true,
        Node::Array(..) => true,
        Node::Chan(..) => true,
        Node::MapOf(..) => true,
        Node::FuncOf(..) => true,
        Node::StructOf(..) => true,
        Node::Iface(..) => true,
        Node::Union(_) => true,
    }
}

/// Whether all of these nodes are in the arena.
fn are_there(arena: &Arena, ids: &[NodeId]) -> bool
    ensures { result ≡ true → AllBelow (length arena.now.nodes) ids.now }
{
    for id in ids {
        if !is_there(arena, *id) {
            return false;
        }
    }
    true
}

/// Whether a node is in the arena.
pub fn is_there(arena: &Arena, id: NodeId) -> bool
    ensures { result ≡ true → id < length arena.now.nodes }
{
    id.number() < arena.len()
}
