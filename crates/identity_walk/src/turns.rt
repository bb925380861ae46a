//! One visit.

ghost use Rattle.std.specs.Prelude.{◌≡◌, ◌<◌, ◌++◌, ◌∷◌, [], length, false, Ok, None, OnOk};
ghost use Rattle.std.specs.List.{list_any};
ghost use Rattle.type_terms.specs.Arenas.{Extends, IsArena};
ghost use Rattle.type_alike.specs.Comparing.{steps};
ghost use Rattle.type_demands.specs.NodeDemands.{pair_tree, IsInside};
ghost use Rattle.identity_walk.specs.Walking.{GivesParts, same_nodes, due_of, rest_of, Turned, IsState, weight};

use crate::answers::{IdFault, Verdict};
use crate::sides::Sides;
use crate::visits::{Visit, push_visits};
use indexmap::IndexSet;
use replacement::SetFault;
use std::alloc::{AllocError, Global};
use type_demands::{Demand, Pair, demand_of};
use type_terms::Arena;

/// How many pairs may be compared.
const PAIR_LIMIT: usize = 65536;

/// Takes the visit that is due first. A pair that was met before leads no further; the parts of another one come before
/// all other visits.
pub(crate) fn turn<S: Sides>(
    alloc: Global,
    sides: &mut S,
    arena: &mut Arena,
    stack: &mut Vec<Visit>,
    met: &mut IndexSet<Pair>,
) -> Result<Option<Verdict>, IdFault>
    requires stands { S.stands sides.old arena.old.nodes }
    requires state { IsState (length arena.old.nodes) (due_of stack.old.items) met.old.keys }
    ensures turned { Turned result
        (rest_of (S.meant sides.old arena.old.nodes) arena.old.nodes (due_of stack.old.items) met.old.keys)
        (rest_of (S.meant sides.old arena.old.nodes) arena.new.nodes (due_of stack.new.items) met.new.keys) }
    ensures state { result ≡ Ok None → IsState (length arena.new.nodes) (due_of stack.new.items) met.new.keys }
    ensures lighter { result ≡ Ok None
        → weight (due_of stack.new.items) met.new.keys < weight (due_of stack.old.items) met.old.keys }
    ensures meant { S.meant sides.new arena.new.nodes ≡ S.meant sides.old arena.old.nodes }
    ensures extends { Extends arena.old arena.new }
    ensures stands_after { S.stands sides.new arena.new.nodes }
{
    let Some(visit) = stack.pop() else {
        return Ok(Some(Verdict::Same));
    };
    let pair = match sides.settle(alloc, arena, &visit.pair) {
        Ok(pair) => pair,
        Err(fault) => return Err(IdFault::Set(fault)),
    };
    if is_met(arena, met, &pair) {
        return Ok(None);
    }
    if met.len() >= PAIR_LIMIT {
        return Err(IdFault::TooMany {
            pairs: PAIR_LIMIT as u32 + 1,
        });
    }
    if put(met, &pair).is_err() {
        return Err(IdFault::OutOfMemory);
    }
    let parts = match parts_of(alloc, sides, arena, &pair) {
        Ok(Some(parts)) => parts,
        Ok(None) => {
            return Ok(Some(Verdict::Differ {
                depth: visit.depth + 1,
            }));
        }
        Err(fault) => return Err(IdFault::Set(fault)),
    };
    match push_visits(stack, &parts, visit.depth + 1) {
        Ok(()) => Ok(None),
        Err(_) => Err(IdFault::OutOfMemory),
    }
}

/// Puts a pair to those that were met, which is none of them.
fn put(met: &mut IndexSet<Pair>, pair: &Pair) -> Result<(), AllocError>
    requires new { list_any (same_nodes pair.now) met.old.keys ≡ false }
    ensures put { OnOk result (met.new.keys ≡ met.old.keys ++ pair.now ∷ []) }
{
    met.insert(Pair {
        left: pair.left,
        right: pair.right,
    })?;
    Ok(())
}

/// Whether a pair was met. The arena has each type once, so pairs of types are told apart by their numbers.
fn is_met(arena: &Arena, met: &IndexSet<Pair>, pair: &Pair) -> bool
    ensures tested { result ≡ list_any (same_nodes pair.now) met.now.keys }
    ensures once { IsArena arena.now.nodes }
{
    let _count = arena.len();
    met.contains(pair)
}

/// The pairs to which two types lead that have no alias at the head, or none where they differ at this level.
fn parts_of<S: Sides>(
    alloc: Global,
    sides: &mut S,
    arena: &mut Arena,
    pair: &Pair,
) -> Result<Option<Vec<Pair>>, SetFault>
    requires stands { S.stands sides.old arena.old.nodes }
    requires there { IsInside (length arena.old.nodes) pair.now }
    ensures exact { GivesParts arena.new.nodes result
        (steps (S.meant sides.old arena.old.nodes) (pair_tree arena.old.nodes pair.now)) }
    ensures meant { S.meant sides.new arena.new.nodes ≡ S.meant sides.old arena.old.nodes }
    ensures extends { Extends arena.old arena.new }
    ensures stands_after { S.stands sides.new arena.new.nodes }
{
    match demand_of(alloc, arena, pair) {
        Ok(Demand::Differ) => Ok(None),
        Ok(Demand::Parts(parts)) => Ok(Some(parts)),
        Ok(Demand::Sets) => sides.set_parts(alloc, arena, pair),
        Err(_) => Err(SetFault::OutOfMemory),
    }
}
