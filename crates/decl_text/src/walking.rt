ghost use Rattle.std.specs.Prelude.{◌≡◌, ◌<◌, ◌++◌, map, OnOk, length};
ghost use Rattle.type_terms.specs.Arenas.{AllBelow};
ghost use Rattle.type_terms.specs.Declarations.{decl_nodes};
ghost use Rattle.type_terms.specs.Denotation.{tree};
ghost use Rattle.decl_text.specs.Numbers.{number_all};
ghost use Rattle.decl_text.specs.Numbering.{numbers_at, StandsIn};
ghost use Rattle.decl_text.specs.Tasks.{task_node, entering, IsEntered, Steps};

use crate::numbering::Numbering;
use crate::tasks::Task;
use std::alloc::{AllocError, Global};
use type_terms::{Arena, DeclNode, NodeId, push_children, push_decl};

/// The room in which types are numbered for one declaration after the other. It keeps its memory between them.
#[derive(Drop)]
pub struct Walk {
    /// What is to be done.
    tasks: Vec<Task>,
    /// The types that are entered next.
    types: Vec<NodeId>,
    /// A line that is being made.
    line: Vec<u8>,
    /// The numbers of the declaration.
    pub numbering: Numbering,
}

impl Walk {
    /// No numbers. Takes no memory.
    pub fn new(alloc: Global) -> Walk {
        Walk {
            tasks: Vec::new(alloc),
            types: Vec::new(alloc),
            line: Vec::new(alloc),
            numbering: Numbering::new(alloc),
        }
    }

    /// Numbers all types that stand in a declaration, at any depth. Each type is entered once, however often it is
    /// used, so this takes time and memory for the types that are reached and their uses.
    pub fn number_types(
        &mut self,
        alloc: Global,
        arena: &Arena,
        decl: &DeclNode,
    ) -> Result<(), AllocError>
        requires there { AllBelow (length arena.now.nodes) (decl_nodes decl.now) }
        ensures numbers { OnOk result (numbers_at arena.now.nodes self.new.numbering
            ≡ number_all (map (tree arena.now.nodes) (decl_nodes decl.now))) }
        ensures stands { OnOk result (StandsIn arena.now.nodes self.new.numbering) }
    {
        self.numbering.clear(alloc);
        self.tasks.clear();
        self.types.clear();
        push_decl(decl, &mut self.types)?;
        enter_all(&mut self.tasks, &mut self.types)?;
        while let Some(task) = self.tasks.pop() {
            self.step(alloc, arena, task)?;
        }
        Ok(())
    }

    /// Does a task.
    fn step(&mut self, alloc: Global, arena: &Arena, task: Task) -> Result<(), AllocError>
        requires there { task_node task < length arena.now.nodes }
        requires stands { StandsIn arena.now.nodes self.old.numbering }
        ensures steps { OnOk result
            (Steps arena.now.nodes task self.old.tasks.items (numbers_at arena.now.nodes self.old.numbering)
            self.new.tasks.items (numbers_at arena.now.nodes self.new.numbering)) }
        ensures stands { OnOk result (StandsIn arena.now.nodes self.new.numbering) }
    {
        match task {
            Task::Enter(id) => {
                if self.numbering.is_settled(arena, id) {
                    Ok(())
                } else {
                    enter(arena, id, &mut self.tasks, &mut self.types)
                }
            }
            Task::Finish(id) => self.numbering.finish(alloc, arena, id, &mut self.line),
        }
    }
}

/// Enters a type.
fn enter(
    arena: &Arena,
    id: NodeId,
    tasks: &mut Vec<Task>,
    types: &mut Vec<NodeId>,
) -> Result<(), AllocError>
    requires { id < length arena.now.nodes }
    ensures { OnOk result (IsEntered arena.now.nodes id tasks.old.items tasks.new.items) }
{
    tasks.push(Task::Finish(id))?;
    types.clear();
    push_children(arena.node(id), types)?;
    enter_all(tasks, types)
}

/// Adds tasks to enter these types, the first of them last.
fn enter_all(tasks: &mut Vec<Task>, types: &mut Vec<NodeId>) -> Result<(), AllocError>
    ensures { OnOk result (tasks.new.items ≡ tasks.old.items ++ entering types.old.items) }
{
    while let Some(id) = types.pop() {
        tasks.push(Task::Enter(id))?;
    }
    Ok(())
}
