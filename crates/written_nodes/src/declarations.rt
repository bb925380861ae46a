//! Declarations as they are written.

ghost use Rattle.std.specs.Prelude.{◌≡◌, map, IfOk};
ghost use Rattle.written_nodes.specs.Making.{receiver_made, decl_made};
ghost use Rattle.written_nodes.specs.Pools.{number_for};

use crate::parts::{Made, all_written, number_for, sig_written};
use crate::positions::position_written;
use go_values::Pos;
use std::alloc::{AllocError, Global};
use type_terms::{DeclNode, Method, MethodList, NodeId, Nodes, Sig};

/// The declaration as it is written, over the nodes that were made for its types.
pub(crate) fn declaration_written(
    alloc: Global,
    decl: &DeclNode,
    made: &Made,
) -> Result<DeclNode, AllocError>
    ensures { IfOk result (λ own. own ≡ decl_made (number_for made.now.entries) decl.now) }
{
    match decl {
        DeclNode::Var { pos, ty } => Ok(DeclNode::Var {
            pos: position_written(pos)?,
            ty: number_for(made, *ty),
        }),
        DeclNode::Func { pos, tparams, sig } => function_written(alloc, pos, tparams, sig, made),
        DeclNode::Constant { pos, ty, value } => Ok(DeclNode::Constant {
            pos: position_written(pos)?,
            ty: number_for(made, *ty),
            value: value.clone()?,
        }),
        DeclNode::Defined {
            pos,
            tparams,
            underlying,
            methods,
        } => defined_written(alloc, pos, tparams, *underlying, methods, made),
        DeclNode::Alias { pos, tparams, ty } => Ok(DeclNode::Alias {
            tparams: nodes_written(alloc, tparams, made)?,
            pos: position_written(pos)?,
            ty: number_for(made, *ty),
        }),
        DeclNode::Parameter {
            pos,
            implicit,
            constraint,
        } => Ok(DeclNode::Parameter {
            pos: position_written(pos)?,
            implicit: *implicit,
            constraint: number_for(made, *constraint),
        }),
    }
}

fn function_written(
    alloc: Global,
    pos: &Pos,
    tparams: &Nodes,
    sig: &Sig,
    made: &Made,
) -> Result<DeclNode, AllocError>
    ensures { IfOk result (λ own. own ≡ decl_made (number_for made.now.entries)
        (DeclNode.Func pos.now tparams.now sig.now)) }
{
    let tparams = nodes_written(alloc, tparams, made)?;
    let sig = sig_written(alloc, sig, made)?;
    Ok(DeclNode::Func {
        pos: position_written(pos)?,
        tparams,
        sig,
    })
}

fn defined_written(
    alloc: Global,
    pos: &Pos,
    tparams: &Nodes,
    underlying: NodeId,
    methods: &MethodList,
    made: &Made,
) -> Result<DeclNode, AllocError>
    ensures { IfOk result (λ own. own ≡ decl_made (number_for made.now.entries)
        (DeclNode.Defined pos.now tparams.now underlying methods.now)) }
{
    let tparams = nodes_written(alloc, tparams, made)?;
    let methods = receivers_written(alloc, methods, made)?;
    Ok(DeclNode::Defined {
        pos: position_written(pos)?,
        tparams,
        underlying: number_for(made, underlying),
        methods,
    })
}

fn nodes_written(alloc: Global, nodes: &Nodes, made: &Made) -> Result<Nodes, AllocError>
    ensures { IfOk result (λ own. own ≡ map (number_for made.now.entries) nodes.now) }
{
    let nodes = all_written(alloc, nodes.items(), made)?;
    Ok(Nodes::from_items(nodes))
}

/// The methods of a defined type, in their order.
fn receivers_written(
    alloc: Global,
    methods: &MethodList,
    made: &Made,
) -> Result<MethodList, AllocError>
    ensures { IfOk result (λ own. own ≡ map (receiver_made (number_for made.now.entries)) methods.now) }
{
    let methods: Vec<Method> = all_written(alloc, methods.items(), made)?;
    Ok(MethodList::from_items(methods))
}
