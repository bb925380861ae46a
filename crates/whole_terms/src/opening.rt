//! What a node of an arena gives way to in a look.

ghost use Rattle.std.specs.Prelude.{◌≡◌, ◌<◌, ◌++◌, ◌∷◌, length, map, Some, OnOk};
ghost use Rattle.std.specs.List.{flat_map};
ghost use Rattle.type_terms.specs.Denotation.{tree};
ghost use Rattle.type_terms.specs.Names.{alias_name};
ghost use Rattle.replacement.specs.Expansion.{capped};
ghost use Rattle.type_terms.specs.NodeShapes.{children};
ghost use Rattle.whole_terms.specs.declared.looking.Task.TheVariants.{Visit, Look, Stop};
ghost use Rattle.whole_terms.specs.Tables.{table_of, told, wrong_use};
ghost use Rattle.whole_terms.specs.Looks.{stack, Opens, argument_task, breach_task, use_tasks, interface_tasks, instance_tasks};

use crate::breaches::Breach;
use crate::looking::Task;
use crate::summaries::Summary;
use go_values::QName;
use indexmap::{IndexMap, IndexSet};
use std::alloc::{AllocError, Global};
use type_terms::{Arena, Node, NodeId, push_children};

/// Puts what a type gives way to before all that is to be done: its parts, an end, or what stands for an alias.
pub(crate) fn open(
    alloc: Global,
    arena: &Arena,
    table: &IndexMap<QName, Summary>,
    tasks: &mut Vec<Task>,
    id: NodeId,
) -> Result<(), AllocError>
    requires there { id < length arena.now.nodes }
    ensures { OnOk result (Opens arena.now.nodes (table_of table.now.entries) id (stack tasks.old.items)
        (stack tasks.new.items)) }
{
    let node = arena.node(id);
    match node {
        Node::Param(q) => put_look(tasks, q),
        Node::AliasName(q) => put_use(table, tasks, q, &[]),
        Node::Instance(base, args) => put_instance(arena, table, tasks, *base, args.items()),
        Node::Iface(_, embedded, methods) => {
            put_interface(tasks, embedded.items().len(), methods.items().len())
        }
        _ => put_parts(alloc, tasks, node),
    }
}

/// Puts a type parameter.
fn put_look(tasks: &mut Vec<Task>, q: &QName) -> Result<(), AllocError>
    ensures { OnOk result (stack tasks.new.items ≡ Look q.now ∷ stack tasks.old.items) }
{
    let name = q.clone()?;
    tasks.push(Task::Look(name))?;
    Ok(())
}

/// Puts an interface that has so many elements and methods, which has to be empty.
fn put_interface(tasks: &mut Vec<Task>, elements: usize, methods: usize) -> Result<(), AllocError>
    ensures { OnOk result (stack tasks.new.items ≡ interface_tasks elements methods ++ stack tasks.old.items) }
{
    if elements == 0 && methods == 0 {
        return Ok(());
    }
    tasks.push(Task::Stop(Breach::Interface))?;
    Ok(())
}

/// Puts the parts of a type.
fn put_parts(alloc: Global, tasks: &mut Vec<Task>, node: &Node) -> Result<(), AllocError>
    ensures { OnOk result (stack tasks.new.items ≡ map Visit (children node.now) ++ stack tasks.old.items) }
{
    let mut types = Vec::new(alloc);
    push_children(node, &mut types)?;
    put_visits(tasks, &types)
}

/// Puts types to be visited, the first of them next.
fn put_visits(tasks: &mut Vec<Task>, ids: &[NodeId]) -> Result<(), AllocError>
    ensures { OnOk result (stack tasks.new.items ≡ map Visit ids.now ++ stack tasks.old.items) }
{
    let mut left = ids.len();
    while left > 0 {
        left -= 1;
        tasks.push(Task::Visit(ids[left]))?;
    }
    Ok(())
}

/// Puts what stands for an instance: for one of an alias what is told of that, and else the arguments.
fn put_instance(
    arena: &Arena,
    table: &IndexMap<QName, Summary>,
    tasks: &mut Vec<Task>,
    base: NodeId,
    args: &[NodeId],
) -> Result<(), AllocError>
    requires there { base < length arena.now.nodes }
    ensures { OnOk result (stack tasks.new.items ≡ instance_tasks (table_of table.now.entries)
        (alias_name (tree arena.now.nodes base)) args.now ++ stack tasks.old.items) }
{
    match arena.alias_name(base) {
        Some(q) => put_use(table, tasks, q, args),
        None => put_visits(tasks, args),
    }
}

/// Puts what stands for an alias with arguments: those that its right side comes to, and then its breach.
fn put_use(
    table: &IndexMap<QName, Summary>,
    tasks: &mut Vec<Task>,
    q: &QName,
    args: &[NodeId],
) -> Result<(), AllocError>
    ensures { OnOk result (stack tasks.new.items
        ≡ use_tasks q.now (table_of table.now.entries q.now) args.now ++ stack tasks.old.items) }
{
    match table.get(q) {
        Some(summary) => put_summary(tasks, summary, q, args),
        None => Ok(()),
    }
}

/// Puts what a summary tells of an alias with arguments.
fn put_summary(
    tasks: &mut Vec<Task>,
    summary: &Summary,
    q: &QName,
    args: &[NodeId],
) -> Result<(), AllocError>
    ensures { OnOk result (stack tasks.new.items
        ≡ use_tasks q.now (Some (told summary.now)) args.now ++ stack tasks.old.items) }
{
    if args.len() != summary.tparams.len() {
        return put_wrong(tasks, q, summary.tparams.len(), args.len());
    }
    put_breach(tasks, &summary.breach)?;
    put_arguments(tasks, &summary.tparams, args, &summary.looks)
}

/// Puts that an alias has a wrong number of arguments.
fn put_wrong(tasks: &mut Vec<Task>, q: &QName, want: usize, have: usize) -> Result<(), AllocError>
    ensures { OnOk result (stack tasks.new.items ≡ Stop (wrong_use q.now want have) ∷ stack tasks.old.items) }
{
    let name = q.clone()?;
    let breach = if want == 0 {
        Breach::WrongKind(name)
    } else {
        Breach::WrongNumber(name, capped(want), capped(have))
    };
    tasks.push(Task::Stop(breach))?;
    Ok(())
}

/// A number as a fault gives it.
fn capped(n: usize) -> u32
    ensures { result ≡ capped n }
{
    n.min(u32::MAX as usize) as u32
}

/// Puts a breach, if there is one.
fn put_breach(tasks: &mut Vec<Task>, breach: &Option<Breach>) -> Result<(), AllocError>
    ensures { OnOk result (stack tasks.new.items ≡ breach_task breach.now ++ stack tasks.old.items) }
{
    if let Some(found) = breach {
        let copy = found.clone()?;
        tasks.push(Task::Stop(copy))?;
    }
    Ok(())
}

/// Puts the arguments for these type parameters, in order.
fn put_arguments(
    tasks: &mut Vec<Task>,
    tparams: &[QName],
    args: &[NodeId],
    looks: &IndexSet<QName>,
) -> Result<(), AllocError>
    requires count { length args.now ≡ length tparams.now }
    ensures { OnOk result (stack tasks.new.items
        ≡ flat_map (argument_task tparams.now args.now) looks.now.keys ++ stack tasks.old.items) }
{
    let mut left = looks.len();
    while left > 0 {
        left -= 1;
        let Some(q) = looks.get_index(left) else {
            unreachable!();
        };
        put_argument(tasks, tparams, args, q)?;
    }
    Ok(())
}

/// Puts the argument for the first type parameter of this name, if there is one.
fn put_argument(
    tasks: &mut Vec<Task>,
    tparams: &[QName],
    args: &[NodeId],
    q: &QName,
) -> Result<(), AllocError>
    requires count { length args.now ≡ length tparams.now }
    ensures { OnOk result (stack tasks.new.items
        ≡ argument_task tparams.now args.now q.now ++ stack tasks.old.items) }
{
    for k in 0..tparams.len() {
        if *q == tparams[k] {
            tasks.push(Task::Visit(args[k]))?;
            return Ok(());
        }
    }
    Ok(())
}
