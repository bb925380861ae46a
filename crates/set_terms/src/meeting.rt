//! What two elements leave together, and the end of an element.

ghost use Rattle.std.specs.Prelude.{ℕ, length, IfOk, IfSome, OnOk};
ghost use Rattle.common_terms.specs.Calls.{AllWithin};
ghost use Rattle.environments.specs.Kept.{world, Kept};
ghost use Rattle.interface_opening.specs.Elements.{ends_element};
ghost use Rattle.interface_opening.specs.Terms.{meet};
ghost use Rattle.set_terms.specs.Needed.{AtMeet, AtEvent, changed};
ghost use Rattle.set_terms.specs.Known.{known_of, Holds};
ghost use Rattle.set_terms.specs.Meant.{choice_meant, sum_at, term_kept, GivesChoice, GivesSum};
ghost use Rattle.set_terms.specs.Shares.{listed};
ghost use Rattle.type_sets.specs.TypeSets.{same_term};
ghost use Rattle.type_terms.specs.TreeEquality.{same_tree};

use crate::shares::{Shares, put_whole, take_union, take_whole};
use common_terms::{Covering, common_terms};
use environments::Env;
use replacement::SetFault;
use std::alloc::Global;
use type_terms::{Arena, NodeId, Term};

/// What the elements that ended and the one that ends leave together: the terms that both have in common, or those of
/// the one of them that hasn't all types.
fn meet<'a, E: Env<'a>, C: Covering<'a, E>>(
    alloc: Global,
    env: &mut E,
    arena: &mut Arena,
    covering: &C,
    whole: Option<Vec<Term>>,
    union: Option<Vec<Term>>,
) -> Result<Option<Vec<Term>>, SetFault>
    requires stands { E.stands env.old arena.old.nodes }
    requires first { IfSome (listed whole) (AllWithin (length arena.old.nodes)) }
    requires second { IfSome (listed union) (AllWithin (length arena.old.nodes)) }
    ensures exact { GivesChoice
        (AtMeet same_term (C.covered (E.entries env.old arena.old.nodes) (E.names env.old))
        (C.opens (E.entries env.old arena.old.nodes) (E.names env.old))
        (choice_meant arena.old.nodes (listed whole)) (choice_meant arena.old.nodes (listed union)))
        arena.old (E.full env.new) result
        (meet same_term (C.covered (E.entries env.old arena.old.nodes) (E.names env.old))
        (choice_meant arena.old.nodes (listed whole)) (choice_meant arena.old.nodes (listed union))) }
    ensures within { (n : ℕ) → IfSome (listed whole) (AllWithin n) → IfSome (listed union) (AllWithin n)
        → IfOk result (λ left. IfSome (listed left) (AllWithin n)) }
    ensures kept { Kept
        (AtMeet same_term (C.covered (E.entries env.old arena.old.nodes) (E.names env.old))
        (C.asks (E.entries env.old arena.old.nodes) (E.names env.old))
        (choice_meant arena.old.nodes (listed whole)) (choice_meant arena.old.nodes (listed union)))
        (AtMeet same_term (C.covered (E.entries env.old arena.old.nodes) (E.names env.old))
        (C.opens (E.entries env.old arena.old.nodes) (E.names env.old))
        (choice_meant arena.old.nodes (listed whole)) (choice_meant arena.old.nodes (listed union)))
        (world (E.entries env.old arena.old.nodes) (E.names env.old) (E.packages env.old) (E.asked env.old))
        (world (E.entries env.new arena.new.nodes) (E.names env.new) (E.packages env.new) (E.asked env.new))
        arena.old arena.new }
    ensures stands_after { E.stands env.new arena.new.nodes }
{
    let Some(xs) = whole else {
        return Ok(union);
    };
    let Some(ys) = union else {
        return Ok(Some(xs));
    };
    let left = common_terms(alloc, env, arena, covering, &xs, &ys)?;
    Ok(Some(left))
}

/// Ends the element of an interface that is under way.
pub(crate) fn end_element<'a, E: Env<'a>, C: Covering<'a, E>>(
    alloc: Global,
    env: &mut E,
    arena: &mut Arena,
    covering: &C,
    shares: &mut Shares,
    holder: NodeId,
) -> Result<(), SetFault>
    requires stands { E.stands env.old arena.old.nodes }
    requires holds { Holds (length arena.old.nodes) (known_of shares.old) }
    ensures exact { GivesSum
        (AtEvent same_term (C.covered (E.entries env.old arena.old.nodes) (E.names env.old))
        (C.opens (E.entries env.old arena.old.nodes) (E.names env.old))
        (sum_at arena.old.nodes (known_of shares.old)) (ends_element holder))
        arena.old (E.full env.new) result holder (known_of shares.old) (known_of shares.new)
        (changed same_tree same_term (C.covered (E.entries env.old arena.old.nodes) (E.names env.old))
        (sum_at arena.old.nodes (known_of shares.old)) (term_kept arena.old.nodes) (ends_element holder)) }
    ensures within { (n : ℕ) → Holds n (known_of shares.old) → OnOk result (Holds n (known_of shares.new)) }
    ensures kept { Kept
        (AtEvent same_term (C.covered (E.entries env.old arena.old.nodes) (E.names env.old))
        (C.asks (E.entries env.old arena.old.nodes) (E.names env.old))
        (sum_at arena.old.nodes (known_of shares.old)) (ends_element holder))
        (AtEvent same_term (C.covered (E.entries env.old arena.old.nodes) (E.names env.old))
        (C.opens (E.entries env.old arena.old.nodes) (E.names env.old))
        (sum_at arena.old.nodes (known_of shares.old)) (ends_element holder))
        (world (E.entries env.old arena.old.nodes) (E.names env.old) (E.packages env.old) (E.asked env.old))
        (world (E.entries env.new arena.new.nodes) (E.names env.new) (E.packages env.new) (E.asked env.new))
        arena.old arena.new }
    ensures stands_after { E.stands env.new arena.new.nodes }
{
    let union = take_union(alloc, &mut shares.unions, holder);
    let whole = take_whole(&mut shares.wholes, holder);
    let left = meet(alloc, env, arena, covering, whole, union)?;
    match put_whole(&mut shares.wholes, holder, left) {
        Ok(()) => Ok(()),
        Err(_) => Err(SetFault::OutOfMemory),
    }
}
