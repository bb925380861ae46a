//! Embedded elements of interfaces.

ghost use Rattle.std.specs.Prelude.{◌≡◌, ◌<◌, length, map, IfOk};
ghost use Rattle.type_terms.specs.Arenas.{AllBelow};
ghost use Rattle.written_nodes.specs.Nodes.{only_term, element_in};

use std::alloc::{AllocError, Global};
use type_terms::{Arena, Node, NodeId, Term};

/// The embedded elements as they are written: the type of each that is one term without a tilde.
pub(crate) fn elements(
    alloc: Global,
    nodes: &Arena,
    ids: &[NodeId],
) -> Result<Vec<NodeId>, AllocError>
    requires { AllBelow (length nodes.now.nodes) ids.now }
    ensures { IfOk result (λ all. all.items ≡ map (element_in nodes.now.nodes) ids.now) }
{
    let mut all = Vec::with_capacity(alloc, ids.len())?;
    for id in ids {
        all.push(element(nodes, *id))?;
    }
    Ok(all)
}

/// The type of an element that is one term without a tilde, and else the element.
fn element(nodes: &Arena, id: NodeId) -> NodeId
    requires { id < length nodes.now.nodes }
    ensures { result ≡ element_in nodes.now.nodes id }
{
    match nodes.node(id) {
        Node::Union(terms) => only_term(terms.items(), id),
        Node::Predeclared(_)
        | Node::Named(_)
        | Node::Param(_)
        | Node::AliasName(_)
        | Node::Pointer(_)
        | Node::Slice(_)
        | Node::Array(_, _)
        | Node::Chan(_, _)
        | Node::MapOf(_, _)
        | Node::FuncOf(_, _)
        | Node::StructOf(_, _)
        | Node::Iface(_, _, _)
        | Node::Instance(_, _) => id,
    }
}

/// The type of the one term without a tilde, if there is just this.
fn only_term(terms: &[Term], id: NodeId) -> NodeId
    ensures { result ≡ only_term terms.now id }
{
    match terms {
        [Term { tilde: false, ty }] => *ty,
        _ => id,
    }
}
