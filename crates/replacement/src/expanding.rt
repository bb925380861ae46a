//! Aliases at the head of a type, replaced by their right sides.

ghost use Rattle.std.specs.Prelude.{◌≡◌, ◌<◌, ◌⊎◌, ℕ, List, Option, Some, None, map, length, option_map, IfOk, IfSome};
ghost use Rattle.std.specs.List.{All, Contains};
ghost use Rattle.environments.specs.Environments.{entry_types};
ghost use Rattle.type_terms.specs.declared.descriptors.Node.{Node as Descriptor};
ghost use Rattle.type_terms.specs.Arenas.{AllBelow, Extends};
ghost use Rattle.type_terms.specs.DeclarationRules.{IsTypeParameter};
ghost use Rattle.type_terms.specs.Denotation.{tree};
ghost use Rattle.replacement.specs.Expansion.{Applied, known, alias_use, parameter_names, capped, put_each};
ghost use Rattle.replacement.specs.Expansion.{alias_right, expanded};
ghost use Rattle.environments.specs.Kept.{world, Kept};
ghost use Rattle.replacement.specs.Calls.{Gives, GivesDecl, GivesSide, AddsSide};
ghost use Rattle.replacement.specs.Calls.{applied, Meets, AsksAlias, OpensAlias, OpensSide, Leads};
ghost use Rattle.replacement.specs.Calls.{AsksExpanding, OpensExpanding};

use crate::faults::SetFault;
use crate::substituting::substitute;
use environments::{Env, Given};
use go_values::QName;
use indexmap::IndexSet;
use std::alloc::{AllocError, Global};
use type_terms::{Arena, ArenaError, DeclNode, Node, NodeId};

/// A name with its arguments, of which there are none where it stands alone.
#[derive(Debug, Drop)]
pub(crate) struct Head {
    pub(crate) name: QName,
    pub(crate) args: Vec<NodeId>,
}

/// The type with an alias at its head replaced by the right side, in which the arguments stand for the type parameters,
/// until the head is no alias. It asks the environment for those aliases alone.
pub fn expand<'a, E: Env<'a>>(
    alloc: Global,
    env: &mut E,
    arena: &mut Arena,
    node: NodeId,
) -> Result<NodeId, SetFault>
    requires stands { E.stands env.old arena.old.nodes }
    requires there { node < length arena.old.nodes }
    ensures exact { Gives (OpensExpanding (E.entries env.old arena.old.nodes) (tree arena.old.nodes node))
        arena.old arena.new (E.full env.new) result
        (expanded (E.entries env.old arena.old.nodes) (E.names env.old) (tree arena.old.nodes node)) }
    ensures kept { Kept (AsksExpanding (E.entries env.old arena.old.nodes) (tree arena.old.nodes node))
        (OpensExpanding (E.entries env.old arena.old.nodes) (tree arena.old.nodes node))
        (world (E.entries env.old arena.old.nodes) (E.names env.old) (E.packages env.old) (E.asked env.old))
        (world (E.entries env.new arena.new.nodes) (E.names env.new) (E.packages env.new) (E.asked env.new))
        arena.old arena.new }
    ensures stands_after { E.stands env.new arena.new.nodes }
{
    let mut met = IndexSet::new(alloc);
    let mut found = node;
    while let Some(next) = follow(alloc, env, arena, &mut met, found)? {
        found = next;
    }
    Ok(found)
}

/// The right side of the alias at the head, where there is one, which comes to those that are met.
fn follow<'a, E: Env<'a>>(
    alloc: Global,
    env: &mut E,
    arena: &mut Arena,
    met: &mut IndexSet<QName>,
    node: NodeId,
) -> Result<Option<NodeId>, SetFault>
    requires stands { E.stands env.old arena.old.nodes }
    requires there { node < length arena.old.nodes }
    ensures exact { Leads (E.entries env.old arena.old.nodes) met.old.keys (tree arena.old.nodes node) met.new.keys
        arena.old arena.new (E.full env.new) result }
    ensures kept { Kept (AsksAlias (tree arena.old.nodes node))
        (OpensAlias (E.entries env.old arena.old.nodes) (tree arena.old.nodes node))
        (world (E.entries env.old arena.old.nodes) (E.names env.old) (E.packages env.old) (E.asked env.old))
        (world (E.entries env.new arena.new.nodes) (E.names env.new) (E.packages env.new) (E.asked env.new))
        arena.old arena.new }
    ensures stands_after { E.stands env.new arena.new.nodes }
{
    let Ok(used) = alias_at_head(alloc, arena, node) else {
        return Err(SetFault::OutOfMemory);
    };
    let Some(head) = used else {
        return Ok(None);
    };
    let Ok(fresh) = meet(met, &head.name) else {
        return Err(SetFault::OutOfMemory);
    };
    if !fresh {
        return Err(SetFault::AliasCycle { q: head.name });
    }
    let right = right_of_alias(alloc, env, arena, &head.name, &head.args)?;
    Ok(Some(right))
}

/// Puts a name to those that are met, and tells whether it is new.
fn meet(met: &mut IndexSet<QName>, q: &QName) -> Result<bool, AllocError>
    ensures { IfOk result (λ fresh. Meets met.old.keys q.now met.new.keys fresh) }
{
    let name = q.clone()?;
    Ok(met.insert(name)?)
}

/// The alias at the head of a type, with its arguments.
fn alias_at_head(alloc: Global, arena: &Arena, id: NodeId) -> Result<Option<Head>, AllocError>
    requires there { id < length arena.now.nodes }
    ensures head { IfOk result (λ used. alias_use (tree arena.now.nodes id)
        ≡ option_map (λ head. applied arena.now.nodes head.name head.args.items) used) }
    ensures args { IfOk result (λ used. IfSome used (λ head. AllBelow (length arena.now.nodes) head.args.items)) }
{
    if let Node::Instance(base, args) = arena.node(id) {
        return with_args(alloc, arena.alias_name(*base), args.items());
    }
    with_args(alloc, arena.alias_name(id), &[])
}

/// A name, where there is one, with arguments.
pub(crate) fn with_args(
    alloc: Global,
    q: Option<&QName>,
    args: &[NodeId],
) -> Result<Option<Head>, AllocError>
    ensures head { (nodes : List Descriptor)
        → IfOk result (λ used. option_map (λ head. applied nodes head.name head.args.items) used
        ≡ option_map (λ name. applied nodes name.now args.now) q.entry) }
    ensures args { IfOk result (λ used. IfSome used (λ head. head.args.items ≡ args.now)) }
{
    let Some(q) = q else {
        return Ok(None);
    };
    let name = q.clone()?;
    let args = Vec::from_slice(alloc, args)?;
    Ok(Some(Head { name, args }))
}

/// The right side of an alias with the arguments put in.
fn right_of_alias<'a, E: Env<'a>>(
    alloc: Global,
    env: &mut E,
    arena: &mut Arena,
    q: &QName,
    args: &[NodeId],
) -> Result<NodeId, SetFault>
    requires stands { E.stands env.old arena.old.nodes }
    requires args { AllBelow (length arena.old.nodes) args.now }
    ensures exact { Gives (OpensSide (E.entries env.old arena.old.nodes q.now)
        (alias_right (E.entries env.old arena.old.nodes) (applied arena.old.nodes q.now args.now)))
        arena.old arena.new (E.full env.new) result
        (alias_right (E.entries env.old arena.old.nodes) (applied arena.old.nodes q.now args.now)) }
    ensures kept { Kept (λ name. name ≡ q.now) (OpensSide (E.entries env.old arena.old.nodes q.now)
        (alias_right (E.entries env.old arena.old.nodes) (applied arena.old.nodes q.now args.now)))
        (world (E.entries env.old arena.old.nodes) (E.names env.old) (E.packages env.old) (E.asked env.old))
        (world (E.entries env.new arena.new.nodes) (E.names env.new) (E.packages env.new) (E.asked env.new))
        arena.old arena.new }
    ensures stands_after { E.stands env.new arena.new.nodes }
{
    let given = given_for(env, arena, q)?;
    match given.decl() {
        DeclNode::Alias { tparams, ty, .. } => put_in(alloc, arena, q, args, tparams.items(), *ty),
        DeclNode::Var { .. }
        | DeclNode::Func { .. }
        | DeclNode::Constant { .. }
        | DeclNode::Defined { .. }
        | DeclNode::Parameter { .. } => Err(wrong_kind(q)),
    }
}

/// The declaration of a name.
pub(crate) fn given_for<'a, E: Env<'a>>(
    env: &mut E,
    arena: &mut Arena,
    q: &QName,
) -> Result<Given<'a>, SetFault>
    requires stands { E.stands env.old arena.old.nodes }
    ensures exact { GivesDecl (Contains (entry_types (E.entries env.old arena.old.nodes q.now)))
        arena.old arena.new (E.full env.new) result (known (E.entries env.old arena.old.nodes q.now) q.now) }
    ensures kept { Kept (λ name. name ≡ q.now)
        (Contains (entry_types (E.entries env.old arena.old.nodes q.now)))
        (world (E.entries env.old arena.old.nodes) (E.names env.old) (E.packages env.old) (E.asked env.old))
        (world (E.entries env.new arena.new.nodes) (E.names env.new) (E.packages env.new) (E.asked env.new))
        arena.old arena.new }
    ensures stands_after { E.stands env.new arena.new.nodes }
{
    match env.declare(q, arena) {
        Ok(given) => Ok(given),
        Err(fault) => Err(SetFault::Env(fault)),
    }
}

/// A right side with the arguments put in for the type parameters.
pub(crate) fn put_in(
    alloc: Global,
    arena: &mut Arena,
    q: &QName,
    args: &[NodeId],
    tparams: &[NodeId],
    right: NodeId,
) -> Result<NodeId, SetFault>
    requires there { right < length arena.old.nodes }
    requires args { AllBelow (length arena.old.nodes) args.now }
    requires tparams { AllBelow (length arena.old.nodes) tparams.now }
    requires are { All IsTypeParameter (map (tree arena.old.nodes) tparams.now) }
    ensures exact { (full : _) → GivesSide arena.old arena.new full result
        (put_each (applied arena.old.nodes q.now args.now) (map (tree arena.old.nodes) tparams.now)
        (map (tree arena.old.nodes) args.now) (tree arena.old.nodes right)) }
    ensures extends { Extends arena.old arena.new }
    ensures adds { AddsSide arena.old arena.new
        (put_each (applied arena.old.nodes q.now args.now) (map (tree arena.old.nodes) tparams.now)
        (map (tree arena.old.nodes) args.now) (tree arena.old.nodes right)) }
{
    if tparams.is_empty() {
        if args.is_empty() {
            return Ok(right);
        }
        return Err(wrong_kind(q));
    }
    if args.len() != tparams.len() {
        return Err(wrong_number(q, tparams.len(), args.len()));
    }
    let Ok(names) = names_of(alloc, arena, tparams) else {
        return Err(SetFault::OutOfMemory);
    };
    match substitute(alloc, arena, right, &names, args) {
        Ok(made) => Ok(made),
        Err(ArenaError::Full) => Err(SetFault::Nodes),
        Err(ArenaError::OutOfMemory) => Err(SetFault::OutOfMemory),
    }
}

/// The names of type parameters.
fn names_of(alloc: Global, arena: &Arena, tparams: &[NodeId]) -> Result<Vec<QName>, AllocError>
    requires there { AllBelow (length arena.now.nodes) tparams.now }
    ensures { IfOk result (λ names. names.items ≡ parameter_names (map (tree arena.now.nodes) tparams.now)) }
{
    let mut names = Vec::new(alloc);
    for id in tparams {
        if let Some(q) = arena.parameter_name(*id) {
            names.push(q.clone()?)?;
        }
    }
    Ok(names)
}

/// That the name's declaration is of another kind, or that there was no memory to say so.
pub(crate) fn wrong_kind(q: &QName) -> SetFault
    ensures { (result ≡ SetFault.Kind q.now) ⊎ (result ≡ SetFault.OutOfMemory) }
{
    match q.clone() {
        Ok(q) => SetFault::Kind { q },
        Err(_) => SetFault::OutOfMemory,
    }
}

/// That the name has another number of type parameters, or that there was no memory to say so.
fn wrong_number(q: &QName, want: usize, have: usize) -> SetFault
    ensures { (result ≡ SetFault.Arity q.now (capped want) (capped have)) ⊎ (result ≡ SetFault.OutOfMemory) }
{
    match q.clone() {
        Ok(q) => SetFault::Arity {
            q,
            want: in_fault(want),
            have: in_fault(have),
        },
        Err(_) => SetFault::OutOfMemory,
    }
}

/// A number as a fault gives it.
fn in_fault(n: usize) -> u32
    ensures { result ≡ capped n }
{
    n.min(u32::MAX as usize) as u32
}
