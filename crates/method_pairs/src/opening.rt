//! The interfaces of a type, opened once no alias is at its head.

ghost use Rattle.std.specs.Prelude.{◌≡◌, ◌<◌, length};
ghost use Rattle.environments.specs.Kept.{world, Kept};
ghost use Rattle.method_pairs.specs.Calls.{opened_type, AsksPairs, OpensPairs};
ghost use Rattle.opened_interfaces.specs.Calls.{GivesFound};
ghost use Rattle.type_terms.specs.Denotation.{tree};

use environments::Env;
use interface_opener::Found;
use opened_interfaces::open_interfaces;
use replacement::{SetFault, expand};
use std::alloc::Global;
use type_terms::{Arena, NodeId};

/// The interfaces of a type, opened depth first, each distinct one once, and what comes of them. An alias at the head of
/// the type is replaced by its right side first. `TooMany` where more than 65,536 would be opened.
pub fn open_type<'a, E: Env<'a>>(
    alloc: Global,
    env: &mut E,
    arena: &mut Arena,
    node: NodeId,
) -> Result<Found, SetFault>
    requires stands { E.stands env.old arena.old.nodes }
    requires there { node < length arena.old.nodes }
    ensures exact { GivesFound
        (OpensPairs (E.entries env.old arena.old.nodes) (E.names env.old) (tree arena.old.nodes node))
        arena.old arena.new (E.full env.new) result
        (opened_type (E.entries env.old arena.old.nodes) (E.names env.old) (tree arena.old.nodes node)) }
    ensures kept { Kept
        (AsksPairs (E.entries env.old arena.old.nodes) (E.names env.old) (tree arena.old.nodes node))
        (OpensPairs (E.entries env.old arena.old.nodes) (E.names env.old) (tree arena.old.nodes node))
        (world (E.entries env.old arena.old.nodes) (E.names env.old) (E.packages env.old) (E.asked env.old))
        (world (E.entries env.new arena.new.nodes) (E.names env.new) (E.packages env.new) (E.asked env.new))
        arena.old arena.new }
    ensures stands_after { E.stands env.new arena.new.nodes }
{
    let found = expand(alloc, env, arena, node)?;
    open_interfaces(alloc, env, arena, found)
}
