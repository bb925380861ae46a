//! The names from a type on, followed to a predeclared type.

ghost use Rattle.std.specs.Prelude.{◌≡◌, ◌<◌, length, IfOk, IsErrOf};
ghost use Rattle.type_terms.specs.Denotation.{tree};
ghost use Rattle.environments.specs.Kept.{world, Kept, OpensBehind};
ghost use Rattle.environments.specs.OpenedTypes.{OutgrowsAmong};
ghost use Rattle.basic_types.specs.BasicTypes.{IsReached};
ghost use Rattle.basic_types.specs.Calls.{AsksHead, OpensOnWay, IsBasicOf, GivesSide, Meets, Turns};

use crate::heads::{head_at, side_of};
use code_tables::Basic;
use environments::{Env, EnvError};
use go_values::QName;
use indexmap::IndexSet;
use std::alloc::{AllocError, Global};
use type_terms::{Arena, NodeId};

/// The predeclared type to which a type comes down: itself, or that of what stands behind the name at its head, which
/// for an instance is the name of the generic type, whatever the arguments are. It is None for any other type, where a
/// name is no type's, and where names lead round for ever. The environment is asked only for the names on the way, and
/// `Nodes` comes only where the nodes at entry and what is behind these names are more distinct trees than the arena's
/// limit.
pub fn basic_type<'a, E: Env<'a>>(
    alloc: Global,
    env: &mut E,
    arena: &mut Arena,
    node: NodeId,
) -> Result<Option<Basic>, EnvError>
    requires stands { E.stands env.old arena.old.nodes }
    requires there { node < length arena.old.nodes }
    ensures answer { IsBasicOf (E.entries env.old arena.old.nodes) (tree arena.old.nodes node) arena.new
        (E.full env.new) result }
    ensures kept { Kept (IsReached (E.entries env.old arena.old.nodes) (tree arena.old.nodes node))
        (OpensOnWay (E.entries env.old arena.old.nodes) (tree arena.old.nodes node))
        (world (E.entries env.old arena.old.nodes) (E.names env.old) (E.packages env.old) (E.asked env.old))
        (world (E.entries env.new arena.new.nodes) (E.names env.new) (E.packages env.new) (E.asked env.new))
        arena.old arena.new }
    ensures outgrown { IsErrOf result EnvError.Nodes → OutgrowsAmong
        (OpensOnWay (E.entries env.old arena.old.nodes) (tree arena.old.nodes node)) arena.old }
    ensures stands_after { E.stands env.new arena.new.nodes }
{
    let mut met = IndexSet::new(alloc);
    let mut found = node;
    while let Some(side) = follow(env, arena, &mut met, found)? {
        found = side;
    }
    Ok(arena.predeclared(found))
}

/// What stands behind the name at the head of a type, which comes to those that are met; nothing where the way ends.
fn follow<'a, E: Env<'a>>(
    env: &mut E,
    arena: &mut Arena,
    met: &mut IndexSet<QName>,
    node: NodeId,
) -> Result<Option<NodeId>, EnvError>
    requires stands { E.stands env.old arena.old.nodes }
    requires there { node < length arena.old.nodes }
    ensures turns { Turns (E.entries env.old arena.old.nodes) met.old.keys (tree arena.old.nodes node) met.new.keys
        arena.new (E.full env.new) result }
    ensures kept { Kept (AsksHead (tree arena.old.nodes node))
        (OpensBehind (E.entries env.old arena.old.nodes) (AsksHead (tree arena.old.nodes node)))
        (world (E.entries env.old arena.old.nodes) (E.names env.old) (E.packages env.old) (E.asked env.old))
        (world (E.entries env.new arena.new.nodes) (E.names env.new) (E.packages env.new) (E.asked env.new))
        arena.old arena.new }
    ensures outgrown { IsErrOf result EnvError.Nodes → OutgrowsAmong
        (OpensBehind (E.entries env.old arena.old.nodes) (AsksHead (tree arena.old.nodes node))) arena.old }
    ensures stands_after { E.stands env.new arena.new.nodes }
{
    let Ok(head) = head_at(arena, node) else {
        return Err(EnvError::OutOfMemory);
    };
    let Some(q) = head else {
        return Ok(None);
    };
    let Ok(fresh) = meet(met, &q) else {
        return Err(EnvError::OutOfMemory);
    };
    if !fresh {
        return Ok(None);
    }
    side_behind(env, arena, &q)
}

/// Puts a name to those that are met, and tells whether it is new.
fn meet(met: &mut IndexSet<QName>, q: &QName) -> Result<bool, AllocError>
    ensures { IfOk result (λ fresh. Meets met.old.keys q.now met.new.keys fresh) }
{
    let name = q.clone()?;
    Ok(met.insert(name)?)
}

/// The type behind a name: none where its declaration is no type's.
fn side_behind<'a, E: Env<'a>>(
    env: &mut E,
    arena: &mut Arena,
    q: &QName,
) -> Result<Option<NodeId>, EnvError>
    requires stands { E.stands env.old arena.old.nodes }
    ensures gives { GivesSide (E.entries env.old arena.old.nodes q.now) q.now arena.new (E.full env.new) result }
    ensures kept { Kept (λ name. name ≡ q.now)
        (OpensBehind (E.entries env.old arena.old.nodes) (λ name. name ≡ q.now))
        (world (E.entries env.old arena.old.nodes) (E.names env.old) (E.packages env.old) (E.asked env.old))
        (world (E.entries env.new arena.new.nodes) (E.names env.new) (E.packages env.new) (E.asked env.new))
        arena.old arena.new }
    ensures outgrown { IsErrOf result EnvError.Nodes
        → OutgrowsAmong (OpensBehind (E.entries env.old arena.old.nodes) (λ name. name ≡ q.now)) arena.old }
    ensures stands_after { E.stands env.new arena.new.nodes }
{
    match env.declare(q, arena) {
        Ok(given) => Ok(side_of(given.decl())),
        Err(fault) => Err(fault),
    }
}
