//! What is asked of a type as interfaces are opened.

ghost use Rattle.std.specs.Prelude.{◌≡◌, ◌<◌, ◌||◌, length, true, IfOk, option_map};
ghost use Rattle.environments.specs.Kept.{world, Kept};
ghost use Rattle.interface_nodes.specs.Beneath.{GivesHeld};
ghost use Rattle.opened_interfaces.specs.Calls.{settled_for, seen};
ghost use Rattle.opened_interfaces.specs.Ways.{asks, opened_for, AtTerm, AtShown};
ghost use Rattle.replacement.specs.Calls.{Gives};
ghost use Rattle.replacement.specs.Expansion.{expanded, defined_use};
ghost use Rattle.type_sets.specs.TypeSets.{name_of};
ghost use Rattle.type_terms.specs.Arenas.{IsArena};
ghost use Rattle.type_terms.specs.Denotation.{tree};

use crate::run::Part;
use environments::Env;
use go_values::QName;
use interface_nodes::{Held, held_beneath};
use replacement::{SetFault, defined_name, expand};
use std::alloc::{AllocError, Global};
use term_tests::no_cycle;
use type_terms::{Arena, NodeId};
use whole_terms::whole;

/// The type of a term with no alias at its head. One of several terms, or one with a tilde, is tested first.
pub(crate) fn settle_part<'a, E: Env<'a>>(
    alloc: Global,
    env: &mut E,
    arena: &mut Arena,
    part: &Part,
) -> Result<NodeId, SetFault>
    requires stands { E.stands env.old arena.old.nodes }
    requires there { part.now.term.ty < length arena.old.nodes }
    ensures exact { Gives (AtTerm (E.entries env.old arena.old.nodes) (E.names env.old)
        (opened_for (E.entries env.old arena.old.nodes)) (part.now.several || part.now.term.tilde)
        (tree arena.old.nodes part.now.term.ty))
        arena.old arena.new (E.full env.new) result
        (settled_for (E.entries env.old arena.old.nodes) (E.names env.old)
        (part.now.several || part.now.term.tilde) (tree arena.old.nodes part.now.term.ty)) }
    ensures kept { Kept (AtTerm (E.entries env.old arena.old.nodes) (E.names env.old)
        (asks (E.entries env.old arena.old.nodes)) (part.now.several || part.now.term.tilde)
        (tree arena.old.nodes part.now.term.ty))
        (AtTerm (E.entries env.old arena.old.nodes) (E.names env.old)
        (opened_for (E.entries env.old arena.old.nodes)) (part.now.several || part.now.term.tilde)
        (tree arena.old.nodes part.now.term.ty))
        (world (E.entries env.old arena.old.nodes) (E.names env.old) (E.packages env.old) (E.asked env.old))
        (world (E.entries env.new arena.new.nodes) (E.names env.new) (E.packages env.new) (E.asked env.new))
        arena.old arena.new }
    ensures stands_after { E.stands env.new arena.new.nodes }
{
    let tested = is_tested(part);
    settle(alloc, env, arena, tested, part.term.ty)
}

/// Whether a term is tested before its type is looked at.
fn is_tested(part: &Part) -> bool
    ensures { result ≡ (part.now.several || part.now.term.tilde) }
{
    part.several || part.term.tilde
}

/// The type with no alias at its head, which is tested first where it has to be.
fn settle<'a, E: Env<'a>>(
    alloc: Global,
    env: &mut E,
    arena: &mut Arena,
    tested: bool,
    ty: NodeId,
) -> Result<NodeId, SetFault>
    requires stands { E.stands env.old arena.old.nodes }
    requires there { ty < length arena.old.nodes }
    ensures exact { Gives (AtTerm (E.entries env.old arena.old.nodes) (E.names env.old)
        (opened_for (E.entries env.old arena.old.nodes)) tested (tree arena.old.nodes ty))
        arena.old arena.new (E.full env.new) result
        (settled_for (E.entries env.old arena.old.nodes) (E.names env.old) tested (tree arena.old.nodes ty)) }
    ensures kept { Kept (AtTerm (E.entries env.old arena.old.nodes) (E.names env.old)
        (asks (E.entries env.old arena.old.nodes)) tested (tree arena.old.nodes ty))
        (AtTerm (E.entries env.old arena.old.nodes) (E.names env.old)
        (opened_for (E.entries env.old arena.old.nodes)) tested (tree arena.old.nodes ty))
        (world (E.entries env.old arena.old.nodes) (E.names env.old) (E.packages env.old) (E.asked env.old))
        (world (E.entries env.new arena.new.nodes) (E.names env.new) (E.packages env.new) (E.asked env.new))
        arena.old arena.new }
    ensures stands_after { E.stands env.new arena.new.nodes }
{
    if tested {
        return settle_tested(alloc, env, arena, ty);
    }
    expand(alloc, env, arena, ty)
}

/// The same of a type that is tested first.
fn settle_tested<'a, E: Env<'a>>(
    alloc: Global,
    env: &mut E,
    arena: &mut Arena,
    ty: NodeId,
) -> Result<NodeId, SetFault>
    requires stands { E.stands env.old arena.old.nodes }
    requires there { ty < length arena.old.nodes }
    ensures exact { Gives (AtTerm (E.entries env.old arena.old.nodes) (E.names env.old)
        (opened_for (E.entries env.old arena.old.nodes)) true (tree arena.old.nodes ty))
        arena.old arena.new (E.full env.new) result
        (settled_for (E.entries env.old arena.old.nodes) (E.names env.old) true (tree arena.old.nodes ty)) }
    ensures kept { Kept (AtTerm (E.entries env.old arena.old.nodes) (E.names env.old)
        (asks (E.entries env.old arena.old.nodes)) true (tree arena.old.nodes ty))
        (AtTerm (E.entries env.old arena.old.nodes) (E.names env.old)
        (opened_for (E.entries env.old arena.old.nodes)) true (tree arena.old.nodes ty))
        (world (E.entries env.old arena.old.nodes) (E.names env.old) (E.packages env.old) (E.asked env.old))
        (world (E.entries env.new arena.new.nodes) (E.names env.new) (E.packages env.new) (E.asked env.new))
        arena.old arena.new }
    ensures stands_after { E.stands env.new arena.new.nodes }
{
    no_cycle(alloc, env, arena, ty)?;
    expand(alloc, env, arena, ty)
}

/// What a type with no alias at its head holds if it is an interface. A term that is none is tested.
pub(crate) fn look_beneath<'a, E: Env<'a>>(
    alloc: Global,
    env: &mut E,
    arena: &mut Arena,
    x: NodeId,
    ty: NodeId,
) -> Result<Option<Held>, SetFault>
    requires stands { E.stands env.old arena.old.nodes }
    requires there { x < length arena.old.nodes }
    requires term { ty < length arena.old.nodes }
    ensures exact { GivesHeld (name_of (E.entries env.old arena.old.nodes) (E.names env.old) (tree arena.old.nodes x))
        (AtShown (E.entries env.old arena.old.nodes) (E.names env.old)
        (opened_for (E.entries env.old arena.old.nodes)) (tree arena.old.nodes x) (tree arena.old.nodes ty))
        arena.old arena.new (E.full env.new) result
        (seen (E.entries env.old arena.old.nodes) (E.names env.old)
        (tree arena.old.nodes x) (tree arena.old.nodes ty)) }
    ensures kept { Kept (AtShown (E.entries env.old arena.old.nodes) (E.names env.old)
        (asks (E.entries env.old arena.old.nodes)) (tree arena.old.nodes x) (tree arena.old.nodes ty))
        (AtShown (E.entries env.old arena.old.nodes) (E.names env.old)
        (opened_for (E.entries env.old arena.old.nodes)) (tree arena.old.nodes x) (tree arena.old.nodes ty))
        (world (E.entries env.old arena.old.nodes) (E.names env.old) (E.packages env.old) (E.asked env.old))
        (world (E.entries env.new arena.new.nodes) (E.names env.new) (E.packages env.new) (E.asked env.new))
        arena.old arena.new }
    ensures stands_after { E.stands env.new arena.new.nodes }
{
    match held_beneath(alloc, env, arena, x)? {
        Some(held) => Ok(Some(held)),
        None => {
            whole(alloc, env, arena, ty)?;
            Ok(None)
        }
    }
}

/// The name of a type, where it is a defined one.
pub(crate) fn name_at(arena: &Arena, x: NodeId) -> Result<Option<QName>, AllocError>
    requires there { x < length arena.now.nodes }
    ensures { IfOk result (λ name. option_map (λ head. head.name) (defined_use (tree arena.now.nodes x)) ≡ name) }
{
    match defined_name(arena, x) {
        Some(q) => Ok(Some(q.clone()?)),
        None => Ok(None),
    }
}

/// That two nodes of an arena are the same where they denote the same type.
pub(crate) fn told_apart(arena: &Arena)
    ensures { IsArena arena.now.nodes }
{
    let _count = arena.len();
}
