//! Type parameters replaced by types, in a graph of shared nodes.

ghost use Rattle.std.specs.Prelude.{◌≡◌, ◌<◌, ℕ, List, ◌∷◌, [], map, length, OnOk, IfOk, IsErrOf};
ghost use Rattle.std.specs.List.{AllByRecursion};
ghost use Rattle.type_terms.specs.declared.descriptors.Node.{Node as Descriptor};
ghost use Rattle.type_terms.specs.Additions.{AddsOnly, Outgrows};
ghost use Rattle.type_terms.specs.Arenas.{IsNode, AllBelow, Extends};
ghost use Rattle.type_terms.specs.Denotation.{tree};
ghost use Rattle.type_terms.specs.NodeShapes.{children};
ghost use Rattle.type_terms.specs.Trees.{parameter};
ghost use Rattle.replacement.specs.Substitution.{replaced, substituted};
ghost use Rattle.replacement.specs.Moves.{put_of, AreMoves, IsMade, IsReplaced, Notes};

use crate::nodes::node_with_moved;
use crate::parts::{Moves, moved};
use crate::reaching::nodes_of;
use go_values::QName;
use indexmap::IndexMap;
use std::alloc::Global;
use type_terms::{Arena, ArenaError, Node, NodeId};

/// The type with each of these type parameters replaced by the argument in its place, and all else as it is. Of equal
/// parameters the first counts. It takes time and memory for the nodes of the type and their uses, however deep the
/// types nest and however often they are shared.
pub fn substitute(
    alloc: Global,
    arena: &mut Arena,
    node: NodeId,
    params: &[QName],
    args: &[NodeId],
) -> Result<NodeId, ArenaError>
    requires there { node < length arena.old.nodes }
    requires args { AllBelow (length arena.old.nodes) args.now }
    requires count { length params.now ≡ length args.now }
    ensures denotes { IfOk result (λ made. tree arena.new.nodes made
        ≡ substituted params.now (map (tree arena.old.nodes) args.now) (tree arena.old.nodes node)) }
    ensures within { IfOk result (λ made. made < length arena.new.nodes) }
    ensures extends { Extends arena.old arena.new }
    ensures adds { AddsOnly
        (substituted params.now (map (tree arena.old.nodes) args.now) (tree arena.old.nodes node) ∷ [])
        arena.old arena.new }
    ensures outgrown { IsErrOf result ArenaError.Full → Outgrows arena.old
        (substituted params.now (map (tree arena.old.nodes) args.now) (tree arena.old.nodes node) ∷ []) }
{
    let Ok(mut left) = nodes_of(alloc, arena, node) else {
        return Err(ArenaError::OutOfMemory);
    };
    let mut moves = IndexMap::new(alloc);
    while let Some(id) = left.pop() {
        move_node(alloc, arena, params, args, &mut moves, id)?;
    }
    Ok(moved(&moves, node))
}

/// Makes the node for a node, where those for its children are made.
fn move_node(
    alloc: Global,
    arena: &mut Arena,
    params: &[QName],
    args: &[NodeId],
    moves: &mut Moves,
    id: NodeId,
) -> Result<(), ArenaError>
    requires there { id < length arena.old.nodes }
    requires args { AllBelow (length arena.old.nodes) args.now }
    requires count { length params.now ≡ length args.now }
    requires moves { AreMoves arena.old.nodes (put_of arena.old.nodes params.now args.now) moves.old.entries }
    requires made { (node : Descriptor) → IsNode arena.old.nodes id node
        → AllByRecursion (IsMade moves.old.entries) (children node) }
    ensures moves { OnOk result
        (AreMoves arena.new.nodes (put_of arena.old.nodes params.now args.now) moves.new.entries) }
    ensures kept { OnOk result ((other : ℕ) → IsMade moves.old.entries other → IsMade moves.new.entries other) }
    ensures made { OnOk result (IsMade moves.new.entries id) }
    ensures extends { Extends arena.old arena.new }
    ensures adds { AddsOnly
        (replaced (put_of arena.old.nodes params.now args.now) (tree arena.old.nodes id) ∷ []) arena.old arena.new }
    ensures outgrown { IsErrOf result ArenaError.Full → Outgrows arena.old
        (replaced (put_of arena.old.nodes params.now args.now) (tree arena.old.nodes id) ∷ []) }
{
    let made = made_node(alloc, arena, params, args, moves, id)?;
    note(moves, id, made)
}

/// Notes what was made for a node.
fn note(moves: &mut Moves, id: NodeId, made: NodeId) -> Result<(), ArenaError>
    ensures noted { OnOk result (Notes moves.old.entries moves.new.entries id made) }
    ensures room { IsErrOf result ArenaError.Full → ⊥ }
{
    match moves.insert(id, made) {
        Ok(_) => Ok(()),
        Err(_) => Err(ArenaError::OutOfMemory),
    }
}

/// The node for a node: the argument for a parameter, and else the same over what was made for its children.
fn made_node(
    alloc: Global,
    arena: &mut Arena,
    params: &[QName],
    args: &[NodeId],
    moves: &Moves,
    id: NodeId,
) -> Result<NodeId, ArenaError>
    requires there { id < length arena.old.nodes }
    requires args { AllBelow (length arena.old.nodes) args.now }
    requires count { length params.now ≡ length args.now }
    requires moves { AreMoves arena.old.nodes (put_of arena.old.nodes params.now args.now) moves.now.entries }
    requires made { (node : Descriptor) → IsNode arena.old.nodes id node
        → AllByRecursion (IsMade moves.now.entries) (children node) }
    ensures denotes { IfOk result (λ made. tree arena.new.nodes made
        ≡ replaced (put_of arena.old.nodes params.now args.now) (tree arena.old.nodes id)) }
    ensures within { IfOk result (λ made. made < length arena.new.nodes) }
    ensures extends { Extends arena.old arena.new }
    ensures adds { AddsOnly
        (replaced (put_of arena.old.nodes params.now args.now) (tree arena.old.nodes id) ∷ []) arena.old arena.new }
    ensures outgrown { IsErrOf result ArenaError.Full → Outgrows arena.old
        (replaced (put_of arena.old.nodes params.now args.now) (tree arena.old.nodes id) ∷ []) }
{
    let node = arena.node(id);
    if let Node::Param(q) = node {
        return Ok(argument_of(params, args, q, id));
    }
    let Ok(made) = node_with_moved(alloc, node, moves) else {
        return Err(ArenaError::OutOfMemory);
    };
    arena.add(made)
}

/// The argument for the first parameter of this name, or the parameter's own node where there is none.
fn argument_of(params: &[QName], args: &[NodeId], q: &QName, id: NodeId) -> NodeId
    requires count { length params.now ≡ length args.now }
    ensures denotes { (nodes : List Descriptor) → tree nodes id ≡ parameter q.now
        → tree nodes result ≡ put_of nodes params.now args.now q.now }
    ensures within { (bound : ℕ) → id < bound → AllBelow bound args.now → result < bound }
{
    for k in 0..params.len() {
        if *q == params[k] {
            return args[k];
        }
    }
    id
}
