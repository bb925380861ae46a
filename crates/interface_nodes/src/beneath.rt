//! The interface beneath a type.

ghost use Rattle.std.specs.Prelude.{◌<◌, length, Option};
ghost use Rattle.go_values.specs.declared.qualified.QName.{QName as Name};
ghost use Rattle.type_terms.specs.Denotation.{tree};
ghost use Rattle.environments.specs.Kept.{world, Kept};
ghost use Rattle.replacement.specs.Calls.{AsksDefined};
ghost use Rattle.interface_nodes.specs.Beneath.{interface_beneath, OpensInterface, GivesHeld};

use crate::held::{Held, held_at};
use environments::Env;
use replacement::{SetFault, right_beneath};
use std::alloc::Global;
use type_terms::{Arena, ArenaError, NodeId};

/// What the underlying type of a type holds if it is an interface, where no alias is at the head of the type.
pub fn held_beneath<'a, E: Env<'a>>(
    alloc: Global,
    env: &mut E,
    arena: &mut Arena,
    node: NodeId,
) -> Result<Option<Held>, SetFault>
    requires stands { E.stands env.old arena.old.nodes }
    requires there { node < length arena.old.nodes }
    ensures exact { (name : Option Name) → GivesHeld name
        (OpensInterface (E.entries env.old arena.old.nodes) (tree arena.old.nodes node))
        arena.old arena.new (E.full env.new) result
        (interface_beneath (E.entries env.old arena.old.nodes) name (tree arena.old.nodes node)) }
    ensures kept { Kept (AsksDefined (tree arena.old.nodes node))
        (OpensInterface (E.entries env.old arena.old.nodes) (tree arena.old.nodes node))
        (world (E.entries env.old arena.old.nodes) (E.names env.old) (E.packages env.old) (E.asked env.old))
        (world (E.entries env.new arena.new.nodes) (E.names env.new) (E.packages env.new) (E.asked env.new))
        arena.old arena.new }
    ensures stands_after { E.stands env.new arena.new.nodes }
{
    let under = right_beneath(alloc, env, arena, node)?;
    match held_at(alloc, arena, under) {
        Ok(held) => Ok(held),
        Err(ArenaError::Full) => Err(SetFault::Nodes),
        Err(ArenaError::OutOfMemory) => Err(SetFault::OutOfMemory),
    }
}
