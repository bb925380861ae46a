//! A look at a type over the nodes of an arena, in tasks: which type parameters it comes to, and a breach behind them.

ghost use Rattle.std.specs.Prelude.{◌≡◌, ◌<◌, [], ◌∷◌, List, length, OnOk, IfOk};
ghost use Rattle.go_values.specs.declared.qualified.QName.{QName as Name};
ghost use Rattle.type_terms.specs.Denotation.{tree};
ghost use Rattle.type_sets.specs.TermTests.{Tested, holds};
ghost use Rattle.whole_terms.specs.Tables.{by_table, looked, table_of};
ghost use Rattle.whole_terms.specs.Looks.{view, Does, IsLook, Visits, Enters, IsWithin};

use crate::breaches::Breach;
use crate::opening::open;
use crate::summaries::Summary;
use go_values::QName;
use indexmap::{IndexMap, IndexSet};
use std::alloc::{AllocError, Global};
use type_terms::{Arena, NodeId};

/// What is to be done in a look.
#[derive(Drop)]
pub enum Task {
    /// To look at a type.
    Visit(NodeId),
    /// To note a type parameter.
    Look(QName),
    /// To end with a breach.
    Stop(Breach),
}

/// A look so far.
#[derive(Drop)]
pub struct Walk {
    pub tasks: Vec<Task>,
    /// The types that were visited, so that none is opened twice.
    pub entered: IndexSet<NodeId>,
    /// The type parameters that were come to.
    pub looks: IndexSet<QName>,
}

/// The type parameters that a type comes to, and the breach behind them, if there is one.
#[derive(Drop)]
pub struct Looked {
    pub looks: IndexSet<QName>,
    pub breach: Option<Breach>,
}

/// What a look at a type comes to, where summaries tell of its aliases.
pub(crate) fn look(
    alloc: Global,
    arena: &Arena,
    table: &IndexMap<QName, Summary>,
    id: NodeId,
) -> Result<Looked, AllocError>
    requires there { id < length arena.now.nodes }
    ensures { (given : Name → Tested) → IfOk result (λ found.
        holds (by_table (table_of table.now.entries)) given (tree arena.now.nodes id)
        ≡ looked given found.looks.keys found.breach) }
{
    let mut walk = begin(alloc, id)?;
    while let Some(task) = walk.tasks.pop() {
        if let Some(breach) = step(alloc, arena, table, &mut walk, task)? {
            return Ok(Looked {
                looks: walk.looks,
                breach: Some(breach),
            });
        }
    }
    Ok(Looked {
        looks: walk.looks,
        breach: None,
    })
}

/// A look that has one type to visit.
fn begin(alloc: Global, id: NodeId) -> Result<Walk, AllocError>
    ensures { IfOk result (λ walk. view walk ≡ record { tasks = Task.Visit id ∷ []; entered = []; looks = [] }) }
{
    let mut tasks = Vec::new(alloc);
    tasks.push(Task::Visit(id))?;
    Ok(Walk {
        tasks,
        entered: IndexSet::new(alloc),
        looks: IndexSet::new(alloc),
    })
}

/// Does a task, which may end the look.
fn step(
    alloc: Global,
    arena: &Arena,
    table: &IndexMap<QName, Summary>,
    walk: &mut Walk,
    task: Task,
) -> Result<Option<Breach>, AllocError>
    requires there { IsWithin (length arena.now.nodes) task }
    ensures { IfOk result (λ found. Does arena.now.nodes (table_of table.now.entries) task (view walk.old) (view walk.new)
        found) }
{
    match task {
        Task::Visit(id) => {
            visit(alloc, arena, table, walk, id)?;
            Ok(None)
        }
        Task::Look(q) => {
            note(walk, q)?;
            Ok(None)
        }
        Task::Stop(breach) => Ok(Some(breach)),
    }
}

/// Notes a type parameter.
fn note(walk: &mut Walk, q: QName) -> Result<(), AllocError>
    ensures { OnOk result (IsLook q (view walk.old) (view walk.new)) }
{
    walk.looks.insert(q)?;
    Ok(())
}

/// Opens a type that wasn't visited before.
fn visit(
    alloc: Global,
    arena: &Arena,
    table: &IndexMap<QName, Summary>,
    walk: &mut Walk,
    id: NodeId,
) -> Result<(), AllocError>
    requires there { id < length arena.now.nodes }
    ensures { OnOk result (Visits arena.now.nodes (table_of table.now.entries) id (view walk.old) (view walk.new)) }
{
    let fresh = enter(&mut walk.entered, id)?;
    if !fresh {
        return Ok(());
    }
    open(alloc, arena, table, &mut walk.tasks, id)
}

/// Puts a node to those that were visited, and tells whether it is new.
fn enter(entered: &mut IndexSet<NodeId>, id: NodeId) -> Result<bool, AllocError>
    ensures { IfOk result (λ fresh. Enters entered.old.keys id entered.new.keys fresh) }
{
    Ok(entered.insert(id)?)
}
