//! What is still to be done as interfaces are opened.

ghost use Rattle.std.specs.Prelude.{◌≡◌, ◌<◌, ◌++◌, length, map, false, OnOk};
ghost use Rattle.type_terms.specs.Arenas.{AllBelow};
ghost use Rattle.interface_opening.specs.Opening.{element_items, close_items, several_terms, term};
ghost use Rattle.interface_opener.specs.Numbered.{by_number};
ghost use Rattle.interface_opener.specs.Stacked.{term_of, stacked, element_at, elements_left};

use go_values::QName;
use std::alloc::AllocError;
use type_terms::{Arena, Node, NodeId, Term};

/// What is still to be done: a term of a holder is to be looked at, which may be one of several; an interface that was
/// such a term has been opened; an element of a holder ends; the interface of a defined type ends.
#[derive(Debug, Drop)]
pub enum Task {
    Term {
        holder: NodeId,
        several: bool,
        term: Term,
    },
    Joins {
        holder: NodeId,
        several: bool,
        of: NodeId,
    },
    Ends {
        holder: NodeId,
    },
    Closes(QName),
}

/// Puts what an interface leaves to be done before all that is: its elements in order, and then its end, where it is
/// that of a defined type.
pub fn put_inside(
    arena: &Arena,
    tasks: &mut Vec<Task>,
    x: NodeId,
    name: Option<QName>,
    embedded: &[NodeId],
) -> Result<(), AllocError>
    requires there { AllBelow (length arena.now.nodes) embedded.now }
    ensures { OnOk result (stacked tasks.new.items
        ≡ elements_left arena.now.nodes x embedded.now ++ (close_items by_number name ++ stacked tasks.old.items)) }
{
    if let Some(q) = name {
        tasks.push(Task::Closes(q))?;
    }
    put_elements(arena, tasks, x, embedded)
}

/// Puts the elements of a holder before all that is to be done.
fn put_elements(
    arena: &Arena,
    tasks: &mut Vec<Task>,
    holder: NodeId,
    embedded: &[NodeId],
) -> Result<(), AllocError>
    requires there { AllBelow (length arena.now.nodes) embedded.now }
    ensures { OnOk result (stacked tasks.new.items
        ≡ elements_left arena.now.nodes holder embedded.now ++ stacked tasks.old.items) }
{
    let mut left = embedded.len();
    while left > 0 {
        left -= 1;
        put_embedded(arena, tasks, holder, embedded[left])?;
    }
    Ok(())
}

/// Puts an embedded type as an element: the terms of a union, or the type as one term.
fn put_embedded(
    arena: &Arena,
    tasks: &mut Vec<Task>,
    holder: NodeId,
    id: NodeId,
) -> Result<(), AllocError>
    requires there { id < length arena.now.nodes }
    ensures { OnOk result (stacked tasks.new.items
        ≡ element_items by_number holder (element_at arena.now.nodes id) ++ stacked tasks.old.items) }
{
    if let Node::Union(terms) = arena.node(id) {
        return put_element(tasks, holder, terms.items());
    }
    let one = [alone(id)];
    put_element(tasks, holder, &one)
}

/// Puts a type as a term of itself before all that is to be done: the terms of a union, or the type as one term.
pub fn put_top(arena: &Arena, tasks: &mut Vec<Task>, id: NodeId) -> Result<(), AllocError>
    requires there { id < length arena.now.nodes }
    ensures { OnOk result (stacked tasks.new.items
        ≡ map (term id (several_terms by_number (element_at arena.now.nodes id))) (element_at arena.now.nodes id)
        ++ stacked tasks.old.items) }
{
    if let Node::Union(terms) = arena.node(id) {
        return put_terms(tasks, id, terms.items());
    }
    let itself = [alone(id)];
    put_terms(tasks, id, &itself)
}

/// A type as the only term of an element.
fn alone(id: NodeId) -> Term
    ensures { result ≡ record { tilde = false; ty = id } }
{
    Term {
        tilde: false,
        ty: id,
    }
}

/// Puts an element of a holder, with these terms, before all that is to be done: tasks are done from the last one on.
pub fn put_element(tasks: &mut Vec<Task>, holder: NodeId, terms: &[Term]) -> Result<(), AllocError>
    ensures { OnOk result (stacked tasks.new.items
        ≡ element_items by_number holder (map term_of terms.now) ++ stacked tasks.old.items) }
{
    tasks.push(Task::Ends { holder })?;
    put_terms(tasks, holder, terms)
}

/// Puts these terms of an element before all that is to be done.
fn put_terms(tasks: &mut Vec<Task>, holder: NodeId, terms: &[Term]) -> Result<(), AllocError>
    ensures { OnOk result (stacked tasks.new.items
        ≡ map (term holder (several_terms by_number (map term_of terms.now))) (map term_of terms.now)
        ++ stacked tasks.old.items) }
{
    let several = are_several(terms);
    let mut left = terms.len();
    while left > 0 {
        left -= 1;
        let term = terms[left];
        tasks.push(Task::Term {
            holder,
            several,
            term,
        })?;
    }
    Ok(())
}

/// Whether there is more than one term.
fn are_several(terms: &[Term]) -> bool
    ensures { result ≡ several_terms by_number (map term_of terms.now) }
{
    terms.len() > 1
}
