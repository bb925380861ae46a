//! What is found in a type.

ghost use Rattle.std.specs.Prelude.{◌≡◌, ◌<◌, ℕ, length, option_map, slice_get};
ghost use Rattle.dangling_types.specs.NodeReferences.{base_reference, reference_at};

use go_values::QName;
use type_terms::{Arena, Node, NodeId};

/// What is found in a type or a declaration.
#[derive(Clone, Copy, Debug, PartialEq, Eq)]
pub enum Finding {
    /// None of its references dangles.
    Sound,
    /// The first that does is the one that this node makes.
    Dangles(NodeId),
}

/// The name to which a node refers: its own, or that of an instance's base. It takes no memory.
pub fn name_at(arena: &Arena, id: NodeId) -> Option<&QName>
    requires there { id < length arena.now.nodes }
    ensures { option_map (λ q. q.now) result ≡ option_map (λ r. r.name) (reference_at arena.now.nodes id) }
{
    match arena.node(id) {
        Node::Named(q) | Node::Param(q) | Node::AliasName(q) => Some(q),
        Node::Instance(base, _) => base_name(arena, *base),
        _ => None,
    }
}

fn base_name(arena: &Arena, base: NodeId) -> Option<&QName>
    requires there { base < length arena.now.nodes }
    ensures { (count : ℕ) → option_map (λ q. q.now) result
        ≡ option_map (λ r. r.name) (base_reference (slice_get arena.now.nodes base) count) }
{
    match arena.node(base) {
        Node::Named(q) | Node::AliasName(q) => Some(q),
        _ => None,
    }
}
