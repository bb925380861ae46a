//! Underlying types.

ghost use Rattle.std.specs.Prelude.{◌≡◌, ◌<◌, List, length, option_map, IfOk, IfSome};
ghost use Rattle.type_terms.specs.Arenas.{AllBelow};
ghost use Rattle.type_terms.specs.Denotation.{tree};
ghost use Rattle.replacement.specs.Expansion.{defined_use, defined_right, beneath, underlying};
ghost use Rattle.environments.specs.Kept.{world, Kept};
ghost use Rattle.replacement.specs.Calls.{Gives, applied, OpensSide};
ghost use Rattle.replacement.specs.Calls.{AsksDefined, OpensDefined, AsksUnder, OpensUnder};

use crate::expanding::{Head, expand, given_for, put_in, with_args, wrong_kind};
use crate::faults::SetFault;
use environments::Env;
use go_values::QName;
use std::alloc::{AllocError, Global};
use type_terms::{Arena, DeclNode, Node, NodeId};

/// The underlying type, once no alias is at the head: of a defined type the right side, in which the arguments stand
/// for the type parameters, and of all others the type itself, type parameters among them. It asks the environment for
/// the names at the heads alone.
pub fn under<'a, E: Env<'a>>(
    alloc: Global,
    env: &mut E,
    arena: &mut Arena,
    node: NodeId,
) -> Result<NodeId, SetFault>
    requires stands { E.stands env.old arena.old.nodes }
    requires there { node < length arena.old.nodes }
    ensures exact { Gives
        (OpensUnder (E.entries env.old arena.old.nodes) (E.names env.old) (tree arena.old.nodes node))
        arena.old arena.new (E.full env.new) result
        (underlying (E.entries env.old arena.old.nodes) (E.names env.old) (tree arena.old.nodes node)) }
    ensures kept { Kept
        (AsksUnder (E.entries env.old arena.old.nodes) (E.names env.old) (tree arena.old.nodes node))
        (OpensUnder (E.entries env.old arena.old.nodes) (E.names env.old) (tree arena.old.nodes node))
        (world (E.entries env.old arena.old.nodes) (E.names env.old) (E.packages env.old) (E.asked env.old))
        (world (E.entries env.new arena.new.nodes) (E.names env.new) (E.packages env.new) (E.asked env.new))
        arena.old arena.new }
    ensures stands_after { E.stands env.new arena.new.nodes }
{
    let found = expand(alloc, env, arena, node)?;
    right_beneath(alloc, env, arena, found)
}

/// The right side of the defined type at the head, or the type itself where there is none: the underlying type of a
/// type that has no alias at its head.
pub fn right_beneath<'a, E: Env<'a>>(
    alloc: Global,
    env: &mut E,
    arena: &mut Arena,
    node: NodeId,
) -> Result<NodeId, SetFault>
    requires stands { E.stands env.old arena.old.nodes }
    requires there { node < length arena.old.nodes }
    ensures exact { Gives (OpensDefined (E.entries env.old arena.old.nodes) (tree arena.old.nodes node))
        arena.old arena.new (E.full env.new) result
        (beneath (E.entries env.old arena.old.nodes) (tree arena.old.nodes node)
        (defined_use (tree arena.old.nodes node))) }
    ensures kept { Kept (AsksDefined (tree arena.old.nodes node))
        (OpensDefined (E.entries env.old arena.old.nodes) (tree arena.old.nodes node))
        (world (E.entries env.old arena.old.nodes) (E.names env.old) (E.packages env.old) (E.asked env.old))
        (world (E.entries env.new arena.new.nodes) (E.names env.new) (E.packages env.new) (E.asked env.new))
        arena.old arena.new }
    ensures stands_after { E.stands env.new arena.new.nodes }
{
    let Ok(used) = defined_at_head(alloc, arena, node) else {
        return Err(SetFault::OutOfMemory);
    };
    let Some(head) = used else {
        return Ok(node);
    };
    right_of_defined(alloc, env, arena, &head.name, &head.args)
}

/// The name of the defined type at the head of a type, if there is one. Takes no memory.
pub fn defined_name(arena: &Arena, id: NodeId) -> Option<&QName>
    requires there { id < length arena.now.nodes }
    ensures { option_map (λ head. head.name) (defined_use (tree arena.now.nodes id)) ≡ option_map (λ q. q.now) result }
{
    if let Node::Instance(base, _) = arena.node(id) {
        return arena.defined_name(*base);
    }
    arena.defined_name(id)
}

/// The defined type at the head of a type, with its arguments.
fn defined_at_head(alloc: Global, arena: &Arena, id: NodeId) -> Result<Option<Head>, AllocError>
    requires there { id < length arena.now.nodes }
    ensures head { IfOk result (λ used. defined_use (tree arena.now.nodes id)
        ≡ option_map (λ head. applied arena.now.nodes head.name head.args.items) used) }
    ensures args { IfOk result (λ used. IfSome used (λ head. AllBelow (length arena.now.nodes) head.args.items)) }
{
    if let Node::Instance(base, args) = arena.node(id) {
        return with_args(alloc, arena.defined_name(*base), args.items());
    }
    with_args(alloc, arena.defined_name(id), &[])
}

/// The right side of a defined type with the arguments put in.
fn right_of_defined<'a, E: Env<'a>>(
    alloc: Global,
    env: &mut E,
    arena: &mut Arena,
    q: &QName,
    args: &[NodeId],
) -> Result<NodeId, SetFault>
    requires stands { E.stands env.old arena.old.nodes }
    requires args { AllBelow (length arena.old.nodes) args.now }
    ensures exact { Gives (OpensSide (E.entries env.old arena.old.nodes q.now)
        (defined_right (E.entries env.old arena.old.nodes) (applied arena.old.nodes q.now args.now)))
        arena.old arena.new (E.full env.new) result
        (defined_right (E.entries env.old arena.old.nodes) (applied arena.old.nodes q.now args.now)) }
    ensures kept { Kept (λ name. name ≡ q.now) (OpensSide (E.entries env.old arena.old.nodes q.now)
        (defined_right (E.entries env.old arena.old.nodes) (applied arena.old.nodes q.now args.now)))
        (world (E.entries env.old arena.old.nodes) (E.names env.old) (E.packages env.old) (E.asked env.old))
        (world (E.entries env.new arena.new.nodes) (E.names env.new) (E.packages env.new) (E.asked env.new))
        arena.old arena.new }
    ensures stands_after { E.stands env.new arena.new.nodes }
{
    let given = given_for(env, arena, q)?;
    match given.decl() {
        DeclNode::Defined {
            tparams,
            underlying,
            ..
        } => put_in(alloc, arena, q, args, tparams.items(), *underlying),
        DeclNode::Var { .. }
        | DeclNode::Func { .. }
        | DeclNode::Constant { .. }
        | DeclNode::Alias { .. }
        | DeclNode::Parameter { .. } => Err(wrong_kind(q)),
    }
}
