//! A node with those that stand in it moved.

ghost use Rattle.std.specs.Prelude.{◌≡◌, map, IfOk};
ghost use Rattle.replacement.specs.Moves.{moved, method_moved, node_moved};

use crate::parts::{Moves, all_with_moved, moved, sig_with_moved};
use go_values::Bytes;
use std::alloc::{AllocError, Global};
use type_terms::{Fields, IMethod, Methods, Node, NodeId, Nodes, Terms};

/// The type with those that stand in it moved.
pub fn node_with_moved(alloc: Global, node: &Node, moves: &Moves) -> Result<Node, AllocError>
    ensures { IfOk result (λ made. made ≡ node_moved (moved moves.now.entries) node.now) }
{
    match node {
        Node::Pointer(id) => Ok(Node::Pointer(moved(moves, *id))),
        Node::Slice(id) => Ok(Node::Slice(moved(moves, *id))),
        Node::Array(size, id) => Ok(Node::Array(*size, moved(moves, *id))),
        Node::Chan(dir, id) => Ok(Node::Chan(*dir, moved(moves, *id))),
        Node::MapOf(key, id) => Ok(Node::MapOf(moved(moves, *key), moved(moves, *id))),
        Node::FuncOf(home, sig) => {
            let sig = sig_with_moved(alloc, sig, moves)?;
            Ok(Node::FuncOf(home.clone()?, sig))
        }
        Node::StructOf(home, fields) => {
            let fields = all_with_moved(alloc, fields.items(), moves)?;
            Ok(Node::StructOf(home.clone()?, Fields::from_items(fields)))
        }
        Node::Iface(home, embedded, methods) => {
            interface_with_moved(alloc, home, embedded.items(), methods.items(), moves)
        }
        Node::Instance(base, args) => {
            let args = all_with_moved(alloc, args.items(), moves)?;
            Ok(Node::Instance(moved(moves, *base), Nodes::from_items(args)))
        }
        Node::Union(terms) => {
            let terms = all_with_moved(alloc, terms.items(), moves)?;
            Ok(Node::Union(Terms::from_items(terms)))
        }
        Node::Predeclared(_) | Node::Named(_) | Node::Param(_) | Node::AliasName(_) => node.clone(),
    }
}

/// An interface with its types moved.
fn interface_with_moved(
    alloc: Global,
    home: &Bytes,
    embedded: &[NodeId],
    methods: &[IMethod],
    moves: &Moves,
) -> Result<Node, AllocError>
    ensures { IfOk result (λ made.
        made ≡ Node.Iface home.now (map (moved moves.now.entries) embedded.now)
        (map (method_moved (moved moves.now.entries)) methods.now)) }
{
    let embedded = all_with_moved(alloc, embedded, moves)?;
    let methods = all_with_moved(alloc, methods, moves)?;
    Ok(Node::Iface(
        home.clone()?,
        Nodes::from_items(embedded),
        Methods::from_items(methods),
    ))
}
