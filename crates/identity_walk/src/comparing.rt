//! Comparing types.

ghost use Rattle.std.specs.Prelude.{◌≡◌, length, map};
ghost use Rattle.type_terms.specs.Arenas.{Extends};
ghost use Rattle.type_alike.specs.Comparing.{compared};
ghost use Rattle.type_demands.specs.NodeDemands.{pair_tree, AreInside};
ghost use Rattle.identity_walk.specs.Walking.{Answers};

use crate::answers::{IdFault, Verdict};
use crate::sides::Sides;
use crate::turns::turn;
use crate::visits::push_visits;
use indexmap::IndexSet;
use std::alloc::Global;
use type_demands::Pair;
use type_terms::Arena;

/// Whether the types of each pair are identical. All pairs are compared to which these lead, each once, in the order of
/// their parts.
pub fn compare<S: Sides>(
    alloc: Global,
    sides: &mut S,
    arena: &mut Arena,
    starts: &[Pair],
) -> Result<Verdict, IdFault>
    requires stands { S.stands sides.old arena.old.nodes }
    requires there { AreInside (length arena.old.nodes) starts.now }
    ensures answer { Answers result
        (compared (S.meant sides.old arena.old.nodes) (map (pair_tree arena.old.nodes) starts.now)).end }
    ensures meant { S.meant sides.new arena.new.nodes ≡ S.meant sides.old arena.old.nodes }
    ensures extends { Extends arena.old arena.new }
    ensures stands_after { S.stands sides.new arena.new.nodes }
{
    let mut stack = Vec::new(alloc);
    let mut met = IndexSet::new(alloc);
    if push_visits(&mut stack, starts, 0).is_err() {
        return Err(IdFault::OutOfMemory);
    }
    loop {
        let found = turn(alloc, sides, arena, &mut stack, &mut met)?;
        if let Some(verdict) = found {
            return Ok(verdict);
        }
    }
}
