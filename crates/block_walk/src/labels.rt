//! The numbers of predeclared types.

ghost use Rattle.std.specs.Prelude.{◌≡◌, ◌<◌, length, OnOk};
ghost use Rattle.std.specs.List.{AllByRecursion};
ghost use Rattle.type_terms.specs.Arenas.{AllBelow};
ghost use Rattle.type_terms.specs.Declarations.{decl_nodes};
ghost use Rattle.type_terms.specs.NodeShapes.{children};
ghost use Rattle.block_walk.specs.Labels.{Labels, IsLabelled};

use code_tables::basics;
use std::alloc::{AllocError, Global};
use type_terms::{Arena, DeclNode, Node, NodeId, push_children, push_decl};

/// Sets the numbers of the predeclared types that stand in a type.
pub(crate) fn label_children(
    alloc: Global,
    nodes: &Arena,
    node: &Node,
    numbers: &mut Vec<u64>,
) -> Result<(), AllocError>
    requires there { AllBelow (length nodes.now.nodes) (children node.now) }
    requires room { length numbers.old.items ≡ length nodes.now.nodes }
    ensures labels { Labels nodes.now.nodes numbers.old.items numbers.new.items }
    ensures labelled { OnOk result (AllByRecursion (IsLabelled nodes.now.nodes numbers.new.items) (children node.now)) }
{
    let mut inner = Vec::new(alloc);
    push_children(node, &mut inner)?;
    label_all(nodes, &inner, numbers);
    Ok(())
}

/// Sets the numbers of the predeclared types that stand in a declaration.
pub(crate) fn label_types(
    alloc: Global,
    nodes: &Arena,
    decl: &DeclNode,
    numbers: &mut Vec<u64>,
) -> Result<(), AllocError>
    requires there { AllBelow (length nodes.now.nodes) (decl_nodes decl.now) }
    requires room { length numbers.old.items ≡ length nodes.now.nodes }
    ensures labels { Labels nodes.now.nodes numbers.old.items numbers.new.items }
    ensures labelled { OnOk result (AllByRecursion (IsLabelled nodes.now.nodes numbers.new.items)
        (decl_nodes decl.now)) }
{
    let mut types = Vec::new(alloc);
    push_decl(decl, &mut types)?;
    label_all(nodes, &types, numbers);
    Ok(())
}

fn label_all(nodes: &Arena, ids: &[NodeId], numbers: &mut Vec<u64>)
    requires there { AllBelow (length nodes.now.nodes) ids.now }
    requires room { length numbers.old.items ≡ length nodes.now.nodes }
    ensures labels { Labels nodes.now.nodes numbers.old.items numbers.new.items }
    ensures labelled { AllByRecursion (IsLabelled nodes.now.nodes numbers.new.items) ids.now }
{
    for id in ids {
        label(nodes, *id, numbers);
    }
}

/// Sets the number of a node that is a predeclared type.
fn label(nodes: &Arena, id: NodeId, numbers: &mut Vec<u64>)
    requires there { id < length nodes.now.nodes }
    requires room { length numbers.old.items ≡ length nodes.now.nodes }
    ensures labels { Labels nodes.now.nodes numbers.old.items numbers.new.items }
    ensures labelled { IsLabelled nodes.now.nodes numbers.new.items id }
{
    if let Some(basic) = nodes.predeclared(id) {
        numbers[id.number() as usize] = u64::from(basics().code_of(basic));
    }
}
