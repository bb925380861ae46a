//! A walk through the aliases that a type mentions, in tasks.

ghost use Rattle.std.specs.Prelude.{◌≡◌, ◌<◌, [], ◌∷◌, length, OnOk, IfOk};
ghost use Rattle.environments.specs.Kept.{world, Kept, OpensBehind};
ghost use Rattle.type_terms.specs.Denotation.{tree};
ghost use Rattle.replacement.specs.Calls.{Meets};
ghost use Rattle.type_sets.specs.TermTests.{no_cycle};
ghost use Rattle.term_tests.specs.Mentions.{IsMentioned, OpensMentioned, Tells};
ghost use Rattle.term_tests.specs.Walks.{stack, view, task_name, Does, Puts, IsLeft, Passes, AreOrdered};

use crate::mentioning::put_mentions;
use crate::sides::right_side;
use environments::Env;
use go_values::QName;
use indexmap::IndexSet;
use replacement::SetFault;
use std::alloc::{AllocError, Global};
use type_terms::{Arena, NodeId};

/// What is to be done in a walk.
#[derive(Debug, Drop)]
pub enum Task {
    /// To follow an alias.
    Enter(QName),
    /// To be done with an alias, after all that its right side mentions.
    Leave(QName),
}

/// A walk so far.
#[derive(Drop)]
pub struct Walk {
    pub tasks: Vec<Task>,
    /// The aliases that were followed, so that each right side is looked at once.
    pub entered: IndexSet<QName>,
    /// Those of them that are done.
    pub left: IndexSet<QName>,
}

/// Tests that no alias in a type mentions itself, through right sides as they are declared. It asks the environment for
/// the aliases that are mentioned alone, and for each once, from left to right and depth first.
pub fn no_cycle<'a, E: Env<'a>>(
    alloc: Global,
    env: &mut E,
    arena: &mut Arena,
    node: NodeId,
) -> Result<(), SetFault>
    requires stands { E.stands env.old arena.old.nodes }
    requires there { node < length arena.old.nodes }
    ensures exact { Tells (OpensMentioned (E.entries env.old arena.old.nodes) (tree arena.old.nodes node))
        arena.old (E.full env.new) result
        (no_cycle (E.entries env.old arena.old.nodes) (E.names env.old) (tree arena.old.nodes node)) }
    ensures kept { Kept (IsMentioned (E.entries env.old arena.old.nodes) (tree arena.old.nodes node))
        (OpensMentioned (E.entries env.old arena.old.nodes) (tree arena.old.nodes node))
        (world (E.entries env.old arena.old.nodes) (E.names env.old) (E.packages env.old) (E.asked env.old))
        (world (E.entries env.new arena.new.nodes) (E.names env.new) (E.packages env.new) (E.asked env.new))
        arena.old arena.new }
    ensures stands_after { E.stands env.new arena.new.nodes }
{
    ordered_aliases(alloc, env, arena, node)?;
    Ok(())
}

/// The aliases that a type mentions, itself or through right sides as they are declared, each behind those that its own
/// right side mentions, if none mentions itself.
pub fn ordered_aliases<'a, E: Env<'a>>(
    alloc: Global,
    env: &mut E,
    arena: &mut Arena,
    node: NodeId,
) -> Result<IndexSet<QName>, SetFault>
    requires stands { E.stands env.old arena.old.nodes }
    requires there { node < length arena.old.nodes }
    ensures exact { Passes (OpensMentioned (E.entries env.old arena.old.nodes) (tree arena.old.nodes node))
        arena.old (E.full env.new) result
        (no_cycle (E.entries env.old arena.old.nodes) (E.names env.old) (tree arena.old.nodes node)) }
    ensures ordered { IfOk result (λ order. AreOrdered (E.entries env.old arena.old.nodes) (E.names env.old)
        (tree arena.old.nodes node) order.keys) }
    ensures kept { Kept (IsMentioned (E.entries env.old arena.old.nodes) (tree arena.old.nodes node))
        (OpensMentioned (E.entries env.old arena.old.nodes) (tree arena.old.nodes node))
        (world (E.entries env.old arena.old.nodes) (E.names env.old) (E.packages env.old) (E.asked env.old))
        (world (E.entries env.new arena.new.nodes) (E.names env.new) (E.packages env.new) (E.asked env.new))
        arena.old arena.new }
    ensures stands_after { E.stands env.new arena.new.nodes }
{
    let Ok(mut walk) = begin(alloc, arena, node) else {
        return Err(SetFault::OutOfMemory);
    };
    while let Some(task) = walk.tasks.pop() {
        step(alloc, env, arena, &mut walk, task)?;
    }
    Ok(walk.left)
}

/// A walk that has all aliases to follow that a type mentions.
fn begin(alloc: Global, arena: &Arena, node: NodeId) -> Result<Walk, AllocError>
    requires there { node < length arena.now.nodes }
    ensures tasks { IfOk result (λ walk. Puts (tree arena.now.nodes node) [] (view walk).tasks) }
    ensures entered { IfOk result (λ walk. (view walk).entered ≡ []) }
    ensures left { IfOk result (λ walk. (view walk).left ≡ []) }
{
    let mut tasks = Vec::new(alloc);
    put_mentions(alloc, arena, &mut tasks, node)?;
    Ok(Walk {
        tasks,
        entered: IndexSet::new(alloc),
        left: IndexSet::new(alloc),
    })
}

/// Does a task.
fn step<'a, E: Env<'a>>(
    alloc: Global,
    env: &mut E,
    arena: &mut Arena,
    walk: &mut Walk,
    task: Task,
) -> Result<(), SetFault>
    requires stands { E.stands env.old arena.old.nodes }
    ensures exact { Does (E.entries env.old arena.old.nodes) task (view walk.old) (view walk.new) arena.old
        (E.full env.new) result }
    ensures kept { Kept (λ name. name ≡ task_name task)
        (OpensBehind (E.entries env.old arena.old.nodes) (λ name. name ≡ task_name task))
        (world (E.entries env.old arena.old.nodes) (E.names env.old) (E.packages env.old) (E.asked env.old))
        (world (E.entries env.new arena.new.nodes) (E.names env.new) (E.packages env.new) (E.asked env.new))
        arena.old arena.new }
    ensures stands_after { E.stands env.new arena.new.nodes }
{
    match task {
        Task::Enter(q) => enter(alloc, env, arena, walk, q),
        Task::Leave(q) => match leave(walk, q) {
            Ok(()) => Ok(()),
            Err(_) => Err(SetFault::OutOfMemory),
        },
    }
}

/// Follows an alias that wasn't left before.
fn enter<'a, E: Env<'a>>(
    alloc: Global,
    env: &mut E,
    arena: &mut Arena,
    walk: &mut Walk,
    q: QName,
) -> Result<(), SetFault>
    requires stands { E.stands env.old arena.old.nodes }
    ensures exact { Does (E.entries env.old arena.old.nodes) (Task.Enter q) (view walk.old) (view walk.new) arena.old
        (E.full env.new) result }
    ensures kept { Kept (λ name. name ≡ q)
        (OpensBehind (E.entries env.old arena.old.nodes) (λ name. name ≡ q))
        (world (E.entries env.old arena.old.nodes) (E.names env.old) (E.packages env.old) (E.asked env.old))
        (world (E.entries env.new arena.new.nodes) (E.names env.new) (E.packages env.new) (E.asked env.new))
        arena.old arena.new }
    ensures stands_after { E.stands env.new arena.new.nodes }
{
    if walk.left.contains(&q) {
        return Ok(());
    }
    let Ok(fresh) = meet(&mut walk.entered, &q) else {
        return Err(SetFault::OutOfMemory);
    };
    if !fresh {
        return Err(SetFault::AliasCycle { q });
    }
    let right = right_side(env, arena, &q)?;
    match go_on(alloc, arena, &mut walk.tasks, q, right) {
        Ok(()) => Ok(()),
        Err(_) => Err(SetFault::OutOfMemory),
    }
}

/// Puts a name to those that are met, and tells whether it is new.
fn meet(met: &mut IndexSet<QName>, q: &QName) -> Result<bool, AllocError>
    ensures { IfOk result (λ fresh. Meets met.old.keys q.now met.new.keys fresh) }
{
    let name = q.clone()?;
    Ok(met.insert(name)?)
}

/// Goes on with what the right side of an alias mentions, and then leaves the alias.
fn go_on(
    alloc: Global,
    arena: &Arena,
    tasks: &mut Vec<Task>,
    q: QName,
    right: NodeId,
) -> Result<(), AllocError>
    requires there { right < length arena.now.nodes }
    ensures { OnOk result (Puts (tree arena.now.nodes right) (Task.Leave q ∷ stack tasks.old.items)
        (stack tasks.new.items)) }
{
    tasks.push(Task::Leave(q))?;
    put_mentions(alloc, arena, tasks, right)
}

fn leave(walk: &mut Walk, q: QName) -> Result<(), AllocError>
    ensures { OnOk result (IsLeft q (view walk.old) (view walk.new)) }
{
    walk.left.insert(q)?;
    Ok(())
}
