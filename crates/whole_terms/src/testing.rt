//! Both tests of a term.

ghost use Rattle.std.specs.Prelude.{◌<◌, length};
ghost use Rattle.environments.specs.Kept.{world, Kept};
ghost use Rattle.type_terms.specs.Denotation.{tree};
ghost use Rattle.type_sets.specs.TermTests.{both, no_cycle, holds_none};
ghost use Rattle.term_tests.specs.Mentions.{IsMentioned, OpensMentioned, Tells};

use crate::breaches::fault;
use crate::looking::{Looked, look};
use crate::summaries::summaries;
use environments::Env;
use replacement::SetFault;
use std::alloc::Global;
use term_tests::ordered_aliases;
use type_terms::{Arena, NodeId};

/// Tests that no alias in a type mentions itself, and that the type holds no interface but the empty one once aliases are
/// replaced. No type is expanded for that. It asks the environment for the aliases that are mentioned alone.
pub fn whole<'a, E: Env<'a>>(
    alloc: Global,
    env: &mut E,
    arena: &mut Arena,
    node: NodeId,
) -> Result<(), SetFault>
    requires stands { E.stands env.old arena.old.nodes }
    requires there { node < length arena.old.nodes }
    ensures exact { Tells (OpensMentioned (E.entries env.old arena.old.nodes) (tree arena.old.nodes node))
        arena.old (E.full env.new) result
        (both (no_cycle (E.entries env.old arena.old.nodes) (E.names env.old) (tree arena.old.nodes node))
        (holds_none (E.entries env.old arena.old.nodes) (E.names env.old) (tree arena.old.nodes node))) }
    ensures kept { Kept (IsMentioned (E.entries env.old arena.old.nodes) (tree arena.old.nodes node))
        (OpensMentioned (E.entries env.old arena.old.nodes) (tree arena.old.nodes node))
        (world (E.entries env.old arena.old.nodes) (E.names env.old) (E.packages env.old) (E.asked env.old))
        (world (E.entries env.new arena.new.nodes) (E.names env.new) (E.packages env.new) (E.asked env.new))
        arena.old arena.new }
    ensures stands_after { E.stands env.new arena.new.nodes }
{
    let order = ordered_aliases(alloc, env, arena, node)?;
    let table = summaries(alloc, env, arena, &order)?;
    let Ok(found) = look(alloc, arena, &table, node) else {
        return Err(SetFault::OutOfMemory);
    };
    let Looked {
        looks: _looks,
        breach,
    } = found;
    match breach {
        None => Ok(()),
        Some(breach) => Err(fault(breach)),
    }
}
