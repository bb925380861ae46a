//! A node as it is written.

ghost use Rattle.std.specs.Prelude.{◌≡◌, map, length, IfOk};
ghost use Rattle.type_terms.specs.Arenas.{AllBelow};
ghost use Rattle.type_terms.specs.NodeShapes.{children};
ghost use Rattle.written_nodes.specs.Pools.{number_for};
ghost use Rattle.written_nodes.specs.Making.{method_made, InOrder};
ghost use Rattle.written_nodes.specs.Nodes.{element_in, MakesInterface, MakesNode};

use crate::elements::elements;
use crate::methods::sort_methods;
use crate::parts::{Made, all_written, number_for, sig_written};
use go_values::Bytes;
use std::alloc::{AllocError, Global};
use type_terms::{Arena, Fields, IMethod, Methods, Node, NodeId, Nodes, Terms};

/// The type as it is written, over the nodes that were made for the types that stand in it.
pub(crate) fn node_written(
    alloc: Global,
    node: &Node,
    nodes: &Arena,
    made: &Made,
) -> Result<Node, AllocError>
    requires { AllBelow (length nodes.now.nodes) (map (number_for made.now.entries) (children node.now)) }
    ensures { IfOk result (λ own. MakesNode nodes.now.nodes (number_for made.now.entries) node.now own) }
{
    match node {
        Node::Pointer(id) => Ok(Node::Pointer(number_for(made, *id))),
        Node::Slice(id) => Ok(Node::Slice(number_for(made, *id))),
        Node::Array(size, id) => Ok(Node::Array(*size, number_for(made, *id))),
        Node::Chan(dir, id) => Ok(Node::Chan(*dir, number_for(made, *id))),
        Node::MapOf(key, id) => Ok(Node::MapOf(number_for(made, *key), number_for(made, *id))),
        Node::FuncOf(home, sig) => {
            let sig = sig_written(alloc, sig, made)?;
            Ok(Node::FuncOf(home.clone()?, sig))
        }
        Node::StructOf(home, fields) => {
            let fields = all_written(alloc, fields.items(), made)?;
            Ok(Node::StructOf(home.clone()?, Fields::from_items(fields)))
        }
        Node::Iface(home, embedded, methods) => {
            interface_written(alloc, home, embedded.items(), methods.items(), nodes, made)
        }
        Node::Instance(base, args) => {
            let args = all_written(alloc, args.items(), made)?;
            Ok(Node::Instance(number_for(made, *base), Nodes::from_items(args)))
        }
        Node::Union(terms) => {
            let terms = all_written(alloc, terms.items(), made)?;
            Ok(Node::Union(Terms::from_items(terms)))
        }
        Node::Predeclared(_) | Node::Named(_) | Node::Param(_) | Node::AliasName(_) => node.clone(),
    }
}

/// An interface as it is written.
fn interface_written(
    alloc: Global,
    home: &Bytes,
    embedded: &[NodeId],
    methods: &[IMethod],
    nodes: &Arena,
    made: &Made,
) -> Result<Node, AllocError>
    requires { AllBelow (length nodes.now.nodes) (map (number_for made.now.entries) embedded.now) }
    ensures { IfOk result (λ own. MakesInterface nodes.now.nodes (number_for made.now.entries) home.now embedded.now
        methods.now own) }
{
    let embedded = elements_written(alloc, embedded, nodes, made)?;
    let methods = methods_written(alloc, methods, made)?;
    Ok(Node::Iface(
        home.clone()?,
        Nodes::from_items(embedded),
        Methods::from_items(methods),
    ))
}

fn elements_written(
    alloc: Global,
    embedded: &[NodeId],
    nodes: &Arena,
    made: &Made,
) -> Result<Vec<NodeId>, AllocError>
    requires { AllBelow (length nodes.now.nodes) (map (number_for made.now.entries) embedded.now) }
    ensures { IfOk result (λ all.
        all.items ≡ map (element_in nodes.now.nodes) (map (number_for made.now.entries) embedded.now)) }
{
    let embedded = all_written(alloc, embedded, made)?;
    elements(alloc, nodes, &embedded)
}

/// The methods of an interface as they are written, in order.
fn methods_written(
    alloc: Global,
    methods: &[IMethod],
    made: &Made,
) -> Result<Vec<IMethod>, AllocError>
    ensures { IfOk result (λ all. InOrder (map (method_made (number_for made.now.entries)) methods.now) all.items) }
{
    let mut methods = all_written(alloc, methods, made)?;
    sort_methods(&mut methods)?;
    Ok(methods)
}
