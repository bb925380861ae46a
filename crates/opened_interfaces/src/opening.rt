//! The interfaces of a type, opened.

ghost use Rattle.std.specs.Prelude.{◌≡◌, ◌<◌, ◌++◌, ℕ, List, length, false, IfOk, IfSome, OnOk};
ghost use Rattle.std.specs.List.{list_any};
ghost use Rattle.environments.specs.Kept.{world, Kept};
ghost use Rattle.interface_opener.specs.Numbered.{by_number, state};
ghost use Rattle.interface_opener.specs.Stacked.{stacked, open_names};
ghost use Rattle.interface_opening.specs.Opening.{Item, close_items, next, opening};
ghost use Rattle.opened_interfaces.specs.Calls.{GivesFound, GivesNext, GivesOpened, Runs, IsMet, IsBegun, IsOpened};
ghost use Rattle.opened_interfaces.specs.Meant.{known_meant, due_meant};
ghost use Rattle.opened_interfaces.specs.Ways.{asks, opened_for, OnWay, AsksOpening, OpensOpening};
ghost use Rattle.type_sets.specs.TypeSets.{looks, set_limit, opened};
ghost use Rattle.type_terms.specs.Denotation.{tree};
ghost use Rattle.type_terms.specs.TreeEquality.{same_name};
ghost use Rattle.go_values.specs.declared.qualified.QName.{QName as Name};

use crate::looking::told_apart;
use crate::run::{Met, Run};
use crate::turning::turn;
use environments::Env;
use go_values::QName;
use indexmap::IndexSet;
use interface_opener::{Found, begin, enter, put_inside, put_top};
use replacement::SetFault;
use std::alloc::{AllocError, Global};
use type_terms::{Arena, NodeId};

/// The most distinct interfaces that are opened for a type.
const MOST: u32 = 65_536;

/// The interfaces of a type that has no alias at its head, opened depth first, each distinct one once, and what comes
/// of them: the methods in order, whether one is `comparable`, and what came to their elements. `TooMany` where more
/// than 65,536 would be opened. It asks the environment for the names at the heads of the types that it looks at, and
/// for the aliases that terms mention.
pub fn open_interfaces<'a, E: Env<'a>>(
    alloc: Global,
    env: &mut E,
    arena: &mut Arena,
    node: NodeId,
) -> Result<Found, SetFault>
    requires stands { E.stands env.old arena.old.nodes }
    requires there { node < length arena.old.nodes }
    ensures exact { GivesFound
        (OpensOpening (E.entries env.old arena.old.nodes) (E.names env.old) (tree arena.old.nodes node))
        arena.old arena.new (E.full env.new) result
        (opened (E.entries env.old arena.old.nodes) (E.names env.old) (tree arena.old.nodes node)) }
    ensures kept { Kept
        (AsksOpening (E.entries env.old arena.old.nodes) (E.names env.old) (tree arena.old.nodes node))
        (OpensOpening (E.entries env.old arena.old.nodes) (E.names env.old) (tree arena.old.nodes node))
        (world (E.entries env.old arena.old.nodes) (E.names env.old) (E.packages env.old) (E.asked env.old))
        (world (E.entries env.new arena.new.nodes) (E.names env.new) (E.packages env.new) (E.asked env.new))
        arena.old arena.new }
    ensures stands_after { E.stands env.new arena.new.nodes }
{
    let Ok(run) = begun(alloc, arena, node) else {
        return Err(SetFault::OutOfMemory);
    };
    let mut run = run;
    open_all(alloc, env, arena, &mut run)?;
    Ok(run.found)
}

/// An opening of which nothing is done yet.
fn begun(alloc: Global, arena: &Arena, node: NodeId) -> Result<Run, AllocError>
    requires there { node < length arena.now.nodes }
    ensures { IfOk result (IsBegun arena.now.nodes node) }
{
    told_apart(arena);
    let mut tasks = Vec::new(alloc);
    put_top(arena, &mut tasks, node)?;
    let found = Found {
        types: IndexSet::new(alloc),
        methods: Vec::new(alloc),
        comparable: false,
        marked: IndexSet::new(alloc),
        events: Vec::new(alloc),
    };
    Ok(Run {
        found,
        tasks,
        entered: IndexSet::new(alloc),
    })
}

/// Opens all interfaces to which what is still to be done leads.
fn open_all<'a, E: Env<'a>>(
    alloc: Global,
    env: &mut E,
    arena: &mut Arena,
    run: &mut Run,
) -> Result<(), SetFault>
    requires stands { E.stands env.old arena.old.nodes }
    requires runs { Runs (length arena.old.nodes) run.old }
    ensures exact { GivesOpened (OnWay (E.entries env.old arena.old.nodes) (E.names env.old)
        (opened_for (E.entries env.old arena.old.nodes)) set_limit
        (due_meant arena.old.nodes (stacked run.old.tasks.items)) (known_meant arena.old.nodes (state run.old.found)))
        arena.old arena.new (E.full env.new) result run.new
        (opening (looks (E.entries env.old arena.old.nodes) (E.names env.old)) set_limit
        (due_meant arena.old.nodes (stacked run.old.tasks.items))
        (known_meant arena.old.nodes (state run.old.found))) }
    ensures kept { Kept (OnWay (E.entries env.old arena.old.nodes) (E.names env.old)
        (asks (E.entries env.old arena.old.nodes)) set_limit
        (due_meant arena.old.nodes (stacked run.old.tasks.items)) (known_meant arena.old.nodes (state run.old.found)))
        (OnWay (E.entries env.old arena.old.nodes) (E.names env.old)
        (opened_for (E.entries env.old arena.old.nodes)) set_limit
        (due_meant arena.old.nodes (stacked run.old.tasks.items)) (known_meant arena.old.nodes (state run.old.found)))
        (world (E.entries env.old arena.old.nodes) (E.names env.old) (E.packages env.old) (E.asked env.old))
        (world (E.entries env.new arena.new.nodes) (E.names env.new) (E.packages env.new) (E.asked env.new))
        arena.old arena.new }
    ensures stands_after { E.stands env.new arena.new.nodes }
{
    let mut left = MOST;
    while let Some(met) = search(alloc, env, arena, run)? {
        if left == 0 {
            return Err(SetFault::TooMany);
        }
        left -= 1;
        let Ok(()) = open_met(arena, run, met) else {
            return Err(SetFault::OutOfMemory);
        };
    }
    Ok(())
}

/// The next interface that is new, or none where nothing is left to be done.
fn search<'a, E: Env<'a>>(
    alloc: Global,
    env: &mut E,
    arena: &mut Arena,
    run: &mut Run,
) -> Result<Option<Met>, SetFault>
    requires stands { E.stands env.old arena.old.nodes }
    requires runs { Runs (length arena.old.nodes) run.old }
    ensures exact { (n : ℕ) → GivesNext (OnWay (E.entries env.old arena.old.nodes) (E.names env.old)
        (opened_for (E.entries env.old arena.old.nodes)) n
        (due_meant arena.old.nodes (stacked run.old.tasks.items)) (known_meant arena.old.nodes (state run.old.found)))
        arena.old arena.new (E.full env.new) result run.new
        (next (looks (E.entries env.old arena.old.nodes) (E.names env.old))
        (due_meant arena.old.nodes (stacked run.old.tasks.items))
        (known_meant arena.old.nodes (state run.old.found))) }
    ensures kept { (n : ℕ) → Kept (OnWay (E.entries env.old arena.old.nodes) (E.names env.old)
        (asks (E.entries env.old arena.old.nodes)) n
        (due_meant arena.old.nodes (stacked run.old.tasks.items)) (known_meant arena.old.nodes (state run.old.found)))
        (OnWay (E.entries env.old arena.old.nodes) (E.names env.old)
        (opened_for (E.entries env.old arena.old.nodes)) n
        (due_meant arena.old.nodes (stacked run.old.tasks.items)) (known_meant arena.old.nodes (state run.old.found)))
        (world (E.entries env.old arena.old.nodes) (E.names env.old) (E.packages env.old) (E.asked env.old))
        (world (E.entries env.new arena.new.nodes) (E.names env.new) (E.packages env.new) (E.asked env.new))
        arena.old arena.new }
    ensures stands_after { E.stands env.new arena.new.nodes }
{
    while let Some(task) = run.tasks.pop() {
        if let Some(met) = turn(alloc, env, arena, run, &task)? {
            return Ok(Some(met));
        }
    }
    Ok(None)
}

/// Opens an interface that is new: its own methods come to those that are known, and its elements are to be done before
/// what was.
fn open_met(arena: &Arena, run: &mut Run, met: Met) -> Result<(), AllocError>
    requires runs { Runs (length arena.now.nodes) run.old }
    requires met { IsMet (length arena.now.nodes) run.old met }
    ensures { OnOk result (IsOpened arena.now.nodes run.old met run.new) }
{
    told_apart(arena);
    enter_name(&mut run.entered, &met.name)?;
    put_inside(arena, &mut run.tasks, met.ty, met.name, &met.held.embedded)?;
    enter(&mut run.found, met.ty, met.held)
}

/// The interface of a defined type, where it has this name, is being opened.
fn enter_name(entered: &mut IndexSet<QName>, name: &Option<QName>) -> Result<(), AllocError>
    ensures { (due : List (Item ℕ Name)) → entered.old.keys ≡ open_names due
        → IfSome name.now (λ q. list_any (same_name q) entered.old.keys ≡ false)
        → OnOk result (entered.new.keys ≡ open_names (close_items by_number name.now ++ due)) }
{
    match name {
        Some(q) => begin(entered, q.clone()?),
        None => Ok(()),
    }
}
