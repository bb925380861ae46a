//! What is still to be done, a task at a time.

ghost use Rattle.std.specs.Prelude.{◌≡◌, ◌<◌, List, ◌∷◌, ◌++◌, length, false, nat_eq, Err, IfOk, IfSome, OnOk, OnErr};
ghost use Rattle.std.specs.List.{list_any};
ghost use Rattle.environments.specs.Kept.{world, Kept};
ghost use Rattle.interface_opener.specs.Numbered.{by_number, state};
ghost use Rattle.interface_opener.specs.Stacked.{item_of, term_of, stacked};
ghost use Rattle.interface_opening.specs.Elements.{has_term, ends_element};
ghost use Rattle.interface_opening.specs.Opening.{noting, step, shown, joined, joins};
ghost use Rattle.opened_interfaces.specs.Calls.{IsRun, GivesStep, GivesJoined, IsClosed, part_item, left_by};
ghost use Rattle.opened_interfaces.specs.Meant.{known_meant, due_meant, item_mapped, IsWithin};
ghost use Rattle.opened_interfaces.specs.Ways.{asks, opened_for, AtItem, AtShown};
ghost use Rattle.replacement.specs.Expansion.{Entries};
ghost use Rattle.go_values.specs.declared.qualified.QName.{QName as Name};
ghost use Rattle.type_sets.specs.TypeSets.{looks, name_of};
ghost use Rattle.type_terms.specs.Denotation.{tree};
ghost use Rattle.type_terms.specs.TreeEquality.{same_name};

use crate::looking::{look_beneath, name_at, settle_part, told_apart};
use crate::run::{Met, Part, Run};
use environments::Env;
use go_values::QName;
use indexmap::IndexSet;
use interface_opener::{Event, Found, Task, end, is_open, join, note};
use replacement::SetFault;
use std::alloc::Global;
use type_terms::{Arena, NodeId, Term};

/// Does a task that was taken out of those that are still to be done. An interface that is new is told.
pub(crate) fn turn<'a, E: Env<'a>>(
    alloc: Global,
    env: &mut E,
    arena: &mut Arena,
    run: &mut Run,
    task: &Task,
) -> Result<Option<Met>, SetFault>
    requires stands { E.stands env.old arena.old.nodes }
    requires runs { IsRun (length arena.old.nodes) (state run.old.found)
        (item_of task.now ∷ stacked run.old.tasks.items) run.old.entered.keys }
    ensures exact { GivesStep (AtItem (E.entries env.old arena.old.nodes) (E.names env.old)
        (opened_for (E.entries env.old arena.old.nodes)) (item_mapped (tree arena.old.nodes) (item_of task.now)))
        arena.old arena.new (E.full env.new) result run.new
        (step (looks (E.entries env.old arena.old.nodes) (E.names env.old))
        (item_mapped (tree arena.old.nodes) (item_of task.now))
        (due_meant arena.old.nodes (stacked run.old.tasks.items))
        (known_meant arena.old.nodes (state run.old.found))) }
    ensures left { IfOk result (λ met. stacked run.new.tasks.items
        ≡ left_by (item_of task.now) met ++ stacked run.old.tasks.items) }
    ensures kept { Kept (AtItem (E.entries env.old arena.old.nodes) (E.names env.old)
        (asks (E.entries env.old arena.old.nodes)) (item_mapped (tree arena.old.nodes) (item_of task.now)))
        (AtItem (E.entries env.old arena.old.nodes) (E.names env.old)
        (opened_for (E.entries env.old arena.old.nodes)) (item_mapped (tree arena.old.nodes) (item_of task.now)))
        (world (E.entries env.old arena.old.nodes) (E.names env.old) (E.packages env.old) (E.asked env.old))
        (world (E.entries env.new arena.new.nodes) (E.names env.new) (E.packages env.new) (E.asked env.new))
        arena.old arena.new }
    ensures stands_after { E.stands env.new arena.new.nodes }
{
    match task {
        Task::Term {
            holder,
            several,
            term,
        } => {
            let part = Part {
                holder: *holder,
                several: *several,
                term: *term,
            };
            look(alloc, env, arena, run, &part)
        }
        Task::Joins {
            holder,
            several,
            of,
        } => {
            join_known(arena, &mut run.found, *holder, *several, *of)?;
            Ok(None)
        }
        Task::Ends { holder } => {
            note_end(&mut run.found, *holder)?;
            Ok(None)
        }
        Task::Closes(_) => {
            end(&mut run.entered);
            Ok(None)
        }
    }
}

/// Looks at a term.
fn look<'a, E: Env<'a>>(
    alloc: Global,
    env: &mut E,
    arena: &mut Arena,
    run: &mut Run,
    part: &Part,
) -> Result<Option<Met>, SetFault>
    requires stands { E.stands env.old arena.old.nodes }
    requires runs { IsRun (length arena.old.nodes) (state run.old.found)
        (part_item part.now ∷ stacked run.old.tasks.items) run.old.entered.keys }
    ensures exact { GivesStep (AtItem (E.entries env.old arena.old.nodes) (E.names env.old)
        (opened_for (E.entries env.old arena.old.nodes)) (item_mapped (tree arena.old.nodes) (part_item part.now)))
        arena.old arena.new (E.full env.new) result run.new
        (step (looks (E.entries env.old arena.old.nodes) (E.names env.old))
        (item_mapped (tree arena.old.nodes) (part_item part.now))
        (due_meant arena.old.nodes (stacked run.old.tasks.items))
        (known_meant arena.old.nodes (state run.old.found))) }
    ensures left { IfOk result (λ met. stacked run.new.tasks.items
        ≡ left_by (part_item part.now) met ++ stacked run.old.tasks.items) }
    ensures kept { Kept (AtItem (E.entries env.old arena.old.nodes) (E.names env.old)
        (asks (E.entries env.old arena.old.nodes)) (item_mapped (tree arena.old.nodes) (part_item part.now)))
        (AtItem (E.entries env.old arena.old.nodes) (E.names env.old)
        (opened_for (E.entries env.old arena.old.nodes)) (item_mapped (tree arena.old.nodes) (part_item part.now)))
        (world (E.entries env.old arena.old.nodes) (E.names env.old) (E.packages env.old) (E.asked env.old))
        (world (E.entries env.new arena.new.nodes) (E.names env.new) (E.packages env.new) (E.asked env.new))
        arena.old arena.new }
    ensures stands_after { E.stands env.new arena.new.nodes }
{
    let x = settle_part(alloc, env, arena, part)?;
    told_apart(arena);
    let Ok(name) = name_at(arena, x) else {
        return Err(SetFault::OutOfMemory);
    };
    let name = closed(&run.entered, name)?;
    if run.found.types.contains(&x) {
        join_known(arena, &mut run.found, part.holder, part.several, x)?;
        return Ok(None);
    }
    meet(alloc, env, arena, run, part, x, name)
}

/// The name of a type, where its interface isn't being opened.
fn closed(entered: &IndexSet<QName>, name: Option<QName>) -> Result<Option<QName>, SetFault>
    ensures { IsClosed entered.now.keys name result }
{
    match name {
        Some(q) => {
            if is_open(entered, &q) {
                return Err(SetFault::EmbedCycle { q });
            }
            Ok(Some(q))
        }
        None => Ok(None),
    }
}

/// Looks at a term whose type isn't known: an interface that is to be opened, or a term of its holder.
fn meet<'a, E: Env<'a>>(
    alloc: Global,
    env: &mut E,
    arena: &mut Arena,
    run: &mut Run,
    part: &Part,
    x: NodeId,
    name: Option<QName>,
) -> Result<Option<Met>, SetFault>
    requires stands { E.stands env.old arena.old.nodes }
    requires there { x < length arena.old.nodes }
    requires term { part.now.term.ty < length arena.old.nodes }
    ensures exact { IsRun (length arena.old.nodes) (state run.old.found)
        (part_item part.now ∷ stacked run.old.tasks.items) run.old.entered.keys
        → name_of (E.entries env.old arena.old.nodes) (E.names env.old) (tree arena.old.nodes x) ≡ name
        → IfSome name (λ q. list_any (same_name q) run.old.entered.keys ≡ false)
        → list_any (nat_eq x) run.old.found.types.keys ≡ false
        → GivesStep (AtShown (E.entries env.old arena.old.nodes) (E.names env.old)
        (opened_for (E.entries env.old arena.old.nodes))
        (tree arena.old.nodes x) (tree arena.old.nodes part.now.term.ty))
        arena.old arena.new (E.full env.new) result run.new
        (shown (looks (E.entries env.old arena.old.nodes) (E.names env.old)) (tree arena.old.nodes part.now.holder)
        part.now.term.tilde (tree arena.old.nodes part.now.term.ty) (tree arena.old.nodes x)
        (known_meant arena.old.nodes (state run.old.found))
        ((looks (E.entries env.old arena.old.nodes) (E.names env.old)).beneath (tree arena.old.nodes x))) }
    ensures left { IfOk result (λ met. stacked run.new.tasks.items
        ≡ left_by (part_item part.now) met ++ stacked run.old.tasks.items) }
    ensures kept { Kept (AtShown (E.entries env.old arena.old.nodes) (E.names env.old)
        (asks (E.entries env.old arena.old.nodes)) (tree arena.old.nodes x) (tree arena.old.nodes part.now.term.ty))
        (AtShown (E.entries env.old arena.old.nodes) (E.names env.old)
        (opened_for (E.entries env.old arena.old.nodes))
        (tree arena.old.nodes x) (tree arena.old.nodes part.now.term.ty))
        (world (E.entries env.old arena.old.nodes) (E.names env.old) (E.packages env.old) (E.asked env.old))
        (world (E.entries env.new arena.new.nodes) (E.names env.new) (E.packages env.new) (E.asked env.new))
        arena.old arena.new }
    ensures stands_after { E.stands env.new arena.new.nodes }
{
    match look_beneath(alloc, env, arena, x, part.term.ty)? {
        Some(held) => {
            put_join(&mut run.tasks, part, x)?;
            Ok(Some(Met { ty: x, name, held }))
        }
        None => {
            let term = Term {
                tilde: part.term.tilde,
                ty: x,
            };
            note_term(&mut run.found, part.holder, term)?;
            Ok(None)
        }
    }
}

/// Puts that an interface comes to the holder of a term before all that is to be done.
fn put_join(tasks: &mut Vec<Task>, part: &Part, of: NodeId) -> Result<(), SetFault>
    ensures put { OnOk result (stacked tasks.new.items
        ≡ joins part.now.holder part.now.several of ∷ stacked tasks.old.items) }
    ensures fault { OnErr result (result ≡ Err SetFault.OutOfMemory) }
{
    let task = Task::Joins {
        holder: part.holder,
        several: part.several,
        of,
    };
    match tasks.push(task) {
        Ok(()) => Ok(()),
        Err(_) => Err(SetFault::OutOfMemory),
    }
}

/// Notes that a term comes to its holder.
fn note_term(found: &mut Found, holder: NodeId, term: Term) -> Result<(), SetFault>
    ensures noted { OnOk result (state found.new
        ≡ noting by_number (has_term holder (term_of term)) (state found.old)) }
    ensures fault { OnErr result (result ≡ Err SetFault.OutOfMemory) }
{
    match note(found, Event::Term { holder, term }) {
        Ok(()) => Ok(()),
        Err(_) => Err(SetFault::OutOfMemory),
    }
}

/// Notes that an element of a holder ends.
fn note_end(found: &mut Found, holder: NodeId) -> Result<(), SetFault>
    ensures noted { OnOk result (state found.new ≡ noting by_number (ends_element holder) (state found.old)) }
    ensures fault { OnErr result (result ≡ Err SetFault.OutOfMemory) }
{
    match note(found, Event::Ends { holder }) {
        Ok(()) => Ok(()),
        Err(_) => Err(SetFault::OutOfMemory),
    }
}

/// What an interface that was opened has comes to its holder.
fn join_known(
    arena: &Arena,
    found: &mut Found,
    holder: NodeId,
    several: bool,
    of: NodeId,
) -> Result<(), SetFault>
    requires within { IsWithin (length arena.now.nodes) (state found.old) }
    requires holder { holder < length arena.now.nodes }
    requires there { of < length arena.now.nodes }
    ensures exact { (entries : Entries) (names : List Name) → GivesJoined arena.now.nodes result found.new
        (joined (looks entries names) (tree arena.now.nodes holder) several (tree arena.now.nodes of)
        (known_meant arena.now.nodes (state found.old))) }
{
    told_apart(arena);
    join(found, holder, several, of)
}
