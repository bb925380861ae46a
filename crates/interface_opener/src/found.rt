//! What becomes known as interfaces are opened.

ghost use Rattle.std.specs.Prelude.{◌≡◌, true, false, nat_eq, OnOk};
ghost use Rattle.std.specs.List.{list_any};
ghost use Rattle.interface_opening.specs.Elements.{has_interface};
ghost use Rattle.interface_opening.specs.Opening.{noting, marking, joined, opened_with};
ghost use Rattle.interface_opener.specs.Numbered.{by_number, event_of, state, shown, with_held, Joins};

use indexmap::IndexSet;
use interface_nodes::{Held, SetMethod};
use replacement::SetFault;
use std::alloc::{AllocError, Global};
use type_terms::{NodeId, Term};

/// What comes to the element of an interface that is under way: a term, or the terms of another interface; or that it
/// ends.
#[derive(Clone, Copy, Debug)]
pub enum Event {
    Term { holder: NodeId, term: Term },
    Interface { holder: NodeId, of: NodeId },
    Ends { holder: NodeId },
}

/// The interfaces that were opened, their methods in order, whether one is `comparable`, those that have methods or are
/// it, and what came to their elements.
#[derive(Debug, Drop)]
pub struct Found {
    pub types: IndexSet<NodeId>,
    pub methods: Vec<SetMethod>,
    pub comparable: bool,
    pub marked: IndexSet<NodeId>,
    pub events: Vec<Event>,
}

/// Notes what comes to an element.
pub fn note(found: &mut Found, event: Event) -> Result<(), AllocError>
    ensures { OnOk result (state found.new ≡ noting by_number (event_of event) (state found.old)) }
{
    found.events.push(event)?;
    Ok(())
}

/// Marks an interface that has methods or is `comparable`.
pub fn mark(found: &mut Found, x: NodeId) -> Result<(), AllocError>
    ensures { OnOk result (state found.new ≡ marking by_number x (state found.old)) }
{
    found.marked.insert(x)?;
    Ok(())
}

/// What an interface that was opened has comes to its holder. One with methods is none of several terms.
pub fn join(found: &mut Found, holder: NodeId, several: bool, of: NodeId) -> Result<(), SetFault>
    ensures { Joins result (joined by_number holder several of (state found.old)) (state found.new) }
{
    let has = found.marked.contains(&of);
    if has && several {
        return Err(SetFault::UnionMethods);
    }
    match take(found, holder, of, has) {
        Ok(()) => Ok(()),
        Err(_) => Err(SetFault::OutOfMemory),
    }
}

/// Notes an interface, and marks its holder where it is marked.
fn take(found: &mut Found, holder: NodeId, of: NodeId, has: bool) -> Result<(), AllocError>
    ensures marked { has ≡ true → OnOk result (state found.new
        ≡ marking by_number holder (noting by_number (has_interface holder of) (state found.old))) }
    ensures plain { has ≡ false
        → OnOk result (state found.new ≡ noting by_number (has_interface holder of) (state found.old)) }
{
    note(found, Event::Interface { holder, of })?;
    if has {
        mark(found, holder)?;
    }
    Ok(())
}

/// Opens an interface that holds this: its own methods come first.
pub fn enter(found: &mut Found, x: NodeId, held: Held) -> Result<(), AllocError>
    requires new { list_any (nat_eq x) found.old.types.keys ≡ false }
    ensures { OnOk result (state found.new ≡ opened_with by_number x (shown held) (state found.old)) }
{
    let has = held.comparable || !held.own.is_empty();
    add(found, x, held)?;
    if has {
        mark(found, x)?;
    }
    Ok(())
}

/// Adds what an interface that is new holds.
fn add(found: &mut Found, x: NodeId, held: Held) -> Result<(), AllocError>
    requires new { list_any (nat_eq x) found.old.types.keys ≡ false }
    ensures { OnOk result (state found.new ≡ with_held x held (state found.old)) }
{
    let mut own = held.own;
    found.types.insert(x)?;
    found.methods.append(&mut own)?;
    found.comparable = found.comparable || held.comparable;
    Ok(())
}
