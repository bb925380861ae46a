//! Whether an interface is one that every type implements.

ghost use Rattle.std.specs.Prelude.{◌≡◌, ◌<◌, ◌&&◌, List, length, not, IfOk};
ghost use Rattle.go_values.specs.declared.qualified.QName.{QName as Name};
ghost use Rattle.environments.specs.Kept.{world, Kept};
ghost use Rattle.interface_opener.specs.Numbered.{state};
ghost use Rattle.opened_interfaces.specs.Meant.{known_meant, IsWithin};
ghost use Rattle.opened_interfaces.specs.Ways.{AsksOpening, OpensOpening};
ghost use Rattle.replacement.specs.Expansion.{Entries};
ghost use Rattle.term_tests.specs.Mentions.{Tells};
ghost use Rattle.type_sets.specs.TypeSets.{free};
ghost use Rattle.type_terms.specs.Arenas.{IsArena};
ghost use Rattle.type_terms.specs.Denotation.{tree};
ghost use Rattle.free_interfaces.specs.AllTypes.{free_by, is_none};

use crate::all_types::has_all_types;
use environments::Env;
use interface_nodes::SetMethod;
use interface_opener::Found;
use opened_interfaces::open_interfaces;
use replacement::SetFault;
use std::alloc::{AllocError, Global};
use type_terms::{Arena, NodeId};

/// Whether an interface has no methods, isn't `comparable`, and has all types. It is opened for that, with the faults
/// of an opening, and no terms are compared. It asks the environment for the names at the heads of the types that it
/// looks at, and for the aliases that terms mention.
pub fn is_free<'a, E: Env<'a>>(
    alloc: Global,
    env: &mut E,
    arena: &mut Arena,
    node: NodeId,
) -> Result<bool, SetFault>
    requires stands { E.stands env.old arena.old.nodes }
    requires there { node < length arena.old.nodes }
    ensures exact { Tells
        (OpensOpening (E.entries env.old arena.old.nodes) (E.names env.old) (tree arena.old.nodes node))
        arena.old (E.full env.new) result
        (free (E.entries env.old arena.old.nodes) (E.names env.old) (tree arena.old.nodes node)) }
    ensures kept { Kept
        (AsksOpening (E.entries env.old arena.old.nodes) (E.names env.old) (tree arena.old.nodes node))
        (OpensOpening (E.entries env.old arena.old.nodes) (E.names env.old) (tree arena.old.nodes node))
        (world (E.entries env.old arena.old.nodes) (E.names env.old) (E.packages env.old) (E.asked env.old))
        (world (E.entries env.new arena.new.nodes) (E.names env.new) (E.packages env.new) (E.asked env.new))
        arena.old arena.new }
    ensures stands_after { E.stands env.new arena.new.nodes }
{
    let found = open_interfaces(alloc, env, arena, node)?;
    match has_nothing(alloc, arena, &found, node) {
        Ok(free) => Ok(free),
        Err(_) => Err(SetFault::OutOfMemory),
    }
}

/// Whether a type has no methods, isn't `comparable`, and has all types, by what was opened for it.
fn has_nothing(
    alloc: Global,
    arena: &Arena,
    found: &Found,
    node: NodeId,
) -> Result<bool, AllocError>
    requires within { IsWithin (length arena.now.nodes) (state found.now) }
    requires there { node < length arena.now.nodes }
    ensures { (entries : Entries) (names : List Name) → IfOk result (λ free. free_by entries names
        (known_meant arena.now.nodes (state found.now)) (tree arena.now.nodes node) ≡ Ok free) }
{
    told_apart(arena);
    let all = has_all_types(alloc, &found.events, node)?;
    Ok(is_nothing(all, &found.methods, found.comparable))
}

/// Whether there are all types, no methods, and not the flag `comparable`.
fn is_nothing(all: bool, methods: &[SetMethod], comparable: bool) -> bool
    ensures { result ≡ ((all && is_none methods.now) && not comparable) }
{
    all && methods.is_empty() && !comparable
}

/// That two nodes of an arena are the same where they denote the same type.
fn told_apart(arena: &Arena)
    ensures { IsArena arena.now.nodes }
{
    let _count = arena.len();
}
