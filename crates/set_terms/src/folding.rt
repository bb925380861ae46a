//! The terms of a type, by what came to the elements of the interfaces that were opened for it.

ghost use Rattle.std.specs.Prelude.{◌<◌, ℕ, [], length, map, IfOk, IfSome, OnOk};
ghost use Rattle.std.specs.List.{AllByRecursion};
ghost use Rattle.common_terms.specs.Calls.{AllWithin};
ghost use Rattle.environments.specs.Kept.{world, Kept};
ghost use Rattle.interface_opener.specs.Numbered.{event_of};
ghost use Rattle.interface_opening.specs.Terms.{terms_of};
ghost use Rattle.opened_interfaces.specs.Meant.{EventWithin};
ghost use Rattle.set_terms.specs.Needed.{AtEvent, AtEvents, changed};
ghost use Rattle.set_terms.specs.Known.{known_of, Holds};
ghost use Rattle.set_terms.specs.Meant.{events_meant, holder_of, sum_at, term_kept, GivesChoice, GivesSum};
ghost use Rattle.set_terms.specs.Shares.{listed};
ghost use Rattle.type_sets.specs.TypeSets.{same_term};
ghost use Rattle.type_terms.specs.Arenas.{IsArena};
ghost use Rattle.type_terms.specs.Denotation.{tree};
ghost use Rattle.type_terms.specs.TreeEquality.{same_tree};

use crate::meeting::end_element;
use crate::shares::{Shares, add_interface, add_term, take_union};
use common_terms::Covering;
use environments::Env;
use indexmap::IndexMap;
use interface_opener::Event;
use replacement::SetFault;
use std::alloc::{AllocError, Global};
use type_terms::{Arena, NodeId, Term};

/// The terms of a type whose opening, as a term of itself, brought these events, or `None` for all types. What an
/// interface embeds together leaves of two terms the one that the other covers; the first fault of a comparison ends it.
pub fn set_terms<'a, E: Env<'a>, C: Covering<'a, E>>(
    alloc: Global,
    env: &mut E,
    arena: &mut Arena,
    covering: &C,
    events: &[Event],
    node: NodeId,
) -> Result<Option<Vec<Term>>, SetFault>
    requires stands { E.stands env.old arena.old.nodes }
    requires events { AllByRecursion (EventWithin (length arena.old.nodes)) (map event_of events.now) }
    requires there { node < length arena.old.nodes }
    ensures exact { GivesChoice
        (AtEvents same_term (C.covered (E.entries env.old arena.old.nodes) (E.names env.old))
        (C.opens (E.entries env.old arena.old.nodes) (E.names env.old)) same_tree
        (events_meant arena.old.nodes events.now) [])
        arena.old (E.full env.new) result
        (terms_of same_tree same_term (C.covered (E.entries env.old arena.old.nodes) (E.names env.old))
        (events_meant arena.old.nodes events.now) (tree arena.old.nodes node)) }
    ensures within { IfOk result (λ terms. IfSome (listed terms) (AllWithin (length arena.old.nodes))) }
    ensures kept { Kept
        (AtEvents same_term (C.covered (E.entries env.old arena.old.nodes) (E.names env.old))
        (C.asks (E.entries env.old arena.old.nodes) (E.names env.old)) same_tree
        (events_meant arena.old.nodes events.now) [])
        (AtEvents same_term (C.covered (E.entries env.old arena.old.nodes) (E.names env.old))
        (C.opens (E.entries env.old arena.old.nodes) (E.names env.old)) same_tree
        (events_meant arena.old.nodes events.now) [])
        (world (E.entries env.old arena.old.nodes) (E.names env.old) (E.packages env.old) (E.asked env.old))
        (world (E.entries env.new arena.new.nodes) (E.names env.new) (E.packages env.new) (E.asked env.new))
        arena.old arena.new }
    ensures stands_after { E.stands env.new arena.new.nodes }
{
    told_apart(arena);
    let mut shares = Shares {
        wholes: IndexMap::new(alloc),
        unions: IndexMap::new(alloc),
    };
    for event in events {
        happen(alloc, env, arena, covering, &mut shares, event)?;
    }
    Ok(take_union(alloc, &mut shares.unions, node))
}

/// That two nodes of an arena are the same where they denote the same type.
fn told_apart(arena: &Arena)
    ensures { IsArena arena.now.nodes }
{
    let _count = arena.len();
}

/// Takes in what comes to an element, or that it ends.
fn happen<'a, E: Env<'a>, C: Covering<'a, E>>(
    alloc: Global,
    env: &mut E,
    arena: &mut Arena,
    covering: &C,
    shares: &mut Shares,
    event: &Event,
) -> Result<(), SetFault>
    requires stands { E.stands env.old arena.old.nodes }
    requires holds { Holds (length arena.old.nodes) (known_of shares.old) }
    ensures exact { GivesSum
        (AtEvent same_term (C.covered (E.entries env.old arena.old.nodes) (E.names env.old))
        (C.opens (E.entries env.old arena.old.nodes) (E.names env.old))
        (sum_at arena.old.nodes (known_of shares.old)) (event_of event.now))
        arena.old (E.full env.new) result (holder_of event.now) (known_of shares.old) (known_of shares.new)
        (changed same_tree same_term (C.covered (E.entries env.old arena.old.nodes) (E.names env.old))
        (sum_at arena.old.nodes (known_of shares.old)) (term_kept arena.old.nodes) (event_of event.now)) }
    ensures within { (n : ℕ) → EventWithin n (event_of event.now) → Holds n (known_of shares.old)
        → OnOk result (Holds n (known_of shares.new)) }
    ensures kept { Kept
        (AtEvent same_term (C.covered (E.entries env.old arena.old.nodes) (E.names env.old))
        (C.asks (E.entries env.old arena.old.nodes) (E.names env.old))
        (sum_at arena.old.nodes (known_of shares.old)) (event_of event.now))
        (AtEvent same_term (C.covered (E.entries env.old arena.old.nodes) (E.names env.old))
        (C.opens (E.entries env.old arena.old.nodes) (E.names env.old))
        (sum_at arena.old.nodes (known_of shares.old)) (event_of event.now))
        (world (E.entries env.old arena.old.nodes) (E.names env.old) (E.packages env.old) (E.asked env.old))
        (world (E.entries env.new arena.new.nodes) (E.names env.new) (E.packages env.new) (E.asked env.new))
        arena.old arena.new }
    ensures stands_after { E.stands env.new arena.new.nodes }
{
    match event {
        Event::Term { holder, term } => add_term(alloc, shares, *holder, *term),
        Event::Interface { holder, of } => add_interface(alloc, shares, *holder, *of),
        Event::Ends { holder } => end_element(alloc, env, arena, covering, shares, *holder),
    }
}
