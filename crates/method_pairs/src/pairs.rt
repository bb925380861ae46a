//! The pairs of methods of one key.

ghost use Rattle.std.specs.Prelude.{◌≡◌, ◌<◌, length};
ghost use Rattle.environments.specs.Kept.{world, Kept};
ghost use Rattle.method_pairs.specs.Calls.{AsksPairs, OpensPairs, GivesPairs};
ghost use Rattle.type_sets.specs.TypeSets.{method_pairs};
ghost use Rattle.type_terms.specs.Denotation.{tree};

use crate::opening::open_type;
use environments::Env;
use replacement::SetFault;
use set_methods::{MethodPair, pairs_among};
use std::alloc::Global;
use type_terms::{Arena, NodeId};

/// The pairs of methods of one key among those of the interfaces of a type, in the order of the opening: each signature
/// that isn't the first of its key, with that first one. Where a type set is wanted, the two signatures of each pair
/// have to be identical (the Go specification, Interface types); this is asked by others. A type that is no interface
/// has none.
pub fn method_pairs<'a, E: Env<'a>>(
    alloc: Global,
    env: &mut E,
    arena: &mut Arena,
    node: NodeId,
) -> Result<Vec<MethodPair>, SetFault>
    requires stands { E.stands env.old arena.old.nodes }
    requires there { node < length arena.old.nodes }
    ensures exact { GivesPairs
        (OpensPairs (E.entries env.old arena.old.nodes) (E.names env.old) (tree arena.old.nodes node))
        arena.old arena.new (E.full env.new) result
        (method_pairs (E.entries env.old arena.old.nodes) (E.names env.old) (tree arena.old.nodes node)) }
    ensures kept { Kept
        (AsksPairs (E.entries env.old arena.old.nodes) (E.names env.old) (tree arena.old.nodes node))
        (OpensPairs (E.entries env.old arena.old.nodes) (E.names env.old) (tree arena.old.nodes node))
        (world (E.entries env.old arena.old.nodes) (E.names env.old) (E.packages env.old) (E.asked env.old))
        (world (E.entries env.new arena.new.nodes) (E.names env.new) (E.packages env.new) (E.asked env.new))
        arena.old arena.new }
    ensures stands_after { E.stands env.new arena.new.nodes }
{
    let found = open_type(alloc, env, arena, node)?;
    match pairs_among(alloc, found.methods) {
        Ok(pairs) => Ok(pairs),
        Err(_) => Err(SetFault::OutOfMemory),
    }
}
