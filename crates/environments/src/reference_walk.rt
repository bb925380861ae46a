//! The references of a declaration, by a walk through its types in tasks.

ghost use Rattle.std.specs.Prelude.{◌≡◌, ◌<◌, ◌⊎◌, ℕ, ◌++◌, ◌∷◌, [], OnOk, IfOk, length};
ghost use Rattle.std.specs.List.{Contains};
ghost use Rattle.type_terms.specs.Arenas.{AllBelow};
ghost use Rattle.type_terms.specs.Declarations.{decl_nodes, decl_of};
ghost use Rattle.environments.specs.References.{references, IsFirstMentions};
ghost use Rattle.type_terms.specs.NodeShapes.{children};
ghost use Rattle.environments.specs.ReferenceTasks.{view, task_node, visiting, IsNoted, IsBaseNoted, IsName, IsOpen};
ghost use Rattle.environments.specs.ReferenceTasks.{Visits, Steps};

use crate::mentions::{Reference, Role};
use go_values::QName;
use indexmap::IndexSet;
use std::alloc::{AllocError, Global};
use type_terms::{Arena, DeclNode, Node, NodeId, push_children, push_decl};

/// What is to be done in a walk.
#[derive(Clone, Copy)]
pub enum Task {
    /// To list what a type refers to.
    Visit(NodeId),
    /// To list the base of an instance with so many arguments.
    Base(NodeId, usize),
    /// To finish a type, after its parts.
    Finish(NodeId),
}

/// A walk so far.
#[derive(Drop)]
pub struct Walk {
    pub tasks: Vec<Task>,
    pub found: IndexSet<Reference>,
    /// The types of which all references are found, so that none is opened twice.
    pub finished: IndexSet<NodeId>,
    /// Room for the parts of a type.
    pub types: Vec<NodeId>,
}

/// The names that a declaration refers to, each once in each role, in the order of their first mention. Takes time and
/// memory for the nodes that the declaration reaches and their uses, however often types are shared.
pub fn references(
    alloc: Global,
    arena: &Arena,
    decl: &DeclNode,
) -> Result<IndexSet<Reference>, AllocError>
    requires there { AllBelow (length arena.now.nodes) (decl_nodes decl.now) }
    ensures mentions { IfOk result
        (λ found. IsFirstMentions [] (references (decl_of arena.now.nodes decl.now)) found.keys) }
{
    let mut walk = Walk::new(alloc);
    push_decl(decl, &mut walk.types)?;
    visit_all(&mut walk.tasks, &mut walk.types)?;
    while let Some(task) = walk.tasks.pop() {
        walk.step(arena, task)?;
    }
    Ok(walk.found)
}

impl Walk {
    /// A walk with nothing to do. Takes no memory.
    fn new(alloc: Global) -> Walk
        ensures nothing { view result ≡ record { tasks = []; found = []; finished = [] } }
        ensures room { result.types.items ≡ [] }
    {
        Walk {
            tasks: Vec::new(alloc),
            found: IndexSet::new(alloc),
            finished: IndexSet::new(alloc),
            types: Vec::new(alloc),
        }
    }

    /// Does a task.
    fn step(&mut self, arena: &Arena, task: Task) -> Result<(), AllocError>
        requires there { task_node task < length arena.now.nodes }
        ensures { OnOk result (Steps arena.now.nodes task (view self.old) (view self.new)) }
    {
        match task {
            Task::Visit(id) => self.visit_once(arena, id),
            Task::Base(id, count) => note_base(&mut self.found, arena.node(id), count),
            Task::Finish(id) => self.finish(id),
        }
    }

    /// Visits a type that isn't finished.
    fn visit_once(&mut self, arena: &Arena, id: NodeId) -> Result<(), AllocError>
        requires there { id < length arena.now.nodes }
        ensures { OnOk result (Steps arena.now.nodes (Task.Visit id) (view self.old) (view self.new)) }
    {
        if self.finished.contains(&id) {
            Ok(())
        } else {
            self.visit(id, arena.node(id))
        }
    }

    /// Notes a name, or opens another type.
    fn visit(&mut self, id: NodeId, node: &Node) -> Result<(), AllocError>
        ensures { OnOk result (Visits id node.now (view self.old) (view self.new)) }
    {
        match node {
            Node::Named(q) => self.note(q, Role::Defined),
            Node::Param(q) => self.note(q, Role::Parameter),
            Node::AliasName(q) => self.note(q, Role::Alias),
            Node::Instance(base, args) => self.open_instance(id, *base, args.items()),
            Node::Predeclared(_)
            | Node::Pointer(_)
            | Node::Slice(_)
            | Node::Array(_, _)
            | Node::Chan(_, _)
            | Node::MapOf(_, _)
            | Node::FuncOf(_, _)
            | Node::StructOf(_, _)
            | Node::Iface(_, _, _)
            | Node::Union(_) => self.open_parts(id, node),
        }
    }

    fn note(&mut self, name: &QName, role: Role) -> Result<(), AllocError>
        ensures { OnOk result
            (IsName (record { name = name.now; role = role }) (view self.old) (view self.new)) }
    {
        note(&mut self.found, name, role)
    }

    /// Goes on with the arguments of an instance, and then its base.
    fn open_instance(&mut self, id: NodeId, base: NodeId, args: &[NodeId]) -> Result<(), AllocError>
        ensures { OnOk result (IsOpen (Task.Finish id ∷ Task.Base base (length args.now) ∷ visiting args.now)
            (view self.old) (view self.new)) }
    {
        self.tasks.push(Task::Finish(id))?;
        self.tasks.push(Task::Base(base, args.len()))?;
        self.types.clear();
        self.types.extend_from_slice(args)?;
        visit_all(&mut self.tasks, &mut self.types)
    }

    /// Goes on with the parts of a type.
    fn open_parts(&mut self, id: NodeId, node: &Node) -> Result<(), AllocError>
        ensures { OnOk result (IsOpen (Task.Finish id ∷ visiting (children node.now)) (view self.old)
            (view self.new)) }
    {
        self.tasks.push(Task::Finish(id))?;
        self.types.clear();
        push_children(node, &mut self.types)?;
        visit_all(&mut self.tasks, &mut self.types)
    }

    fn finish(&mut self, id: NodeId) -> Result<(), AllocError>
        ensures tasks { OnOk result (self.new.tasks.items ≡ self.old.tasks.items) }
        ensures found { OnOk result (self.new.found.keys ≡ self.old.found.keys) }
        ensures finished { OnOk result ((number : ℕ) → Contains self.new.finished.keys number
            → Contains self.old.finished.keys number ⊎ (number ≡ id)) }
    {
        self.finished.insert(id)?;
        Ok(())
    }
}

/// Adds tasks to visit these types, the first of them last.
fn visit_all(tasks: &mut Vec<Task>, types: &mut Vec<NodeId>) -> Result<(), AllocError>
    ensures { OnOk result (tasks.new.items ≡ tasks.old.items ++ visiting types.old.items) }
{
    while let Some(id) = types.pop() {
        tasks.push(Task::Visit(id))?;
    }
    Ok(())
}

/// Lists the base of an instance with so many arguments.
fn note_base(found: &mut IndexSet<Reference>, node: &Node, count: usize) -> Result<(), AllocError>
    ensures { OnOk result (IsBaseNoted node.now count found.old.keys found.new.keys) }
{
    match node {
        Node::Named(q) => note(found, q, Role::DefinedBase(count)),
        Node::AliasName(q) => note(found, q, Role::AliasBase(count)),
        Node::Predeclared(_)
        | Node::Param(_)
        | Node::Pointer(_)
        | Node::Slice(_)
        | Node::Array(_, _)
        | Node::Chan(_, _)
        | Node::MapOf(_, _)
        | Node::FuncOf(_, _)
        | Node::StructOf(_, _)
        | Node::Iface(_, _, _)
        | Node::Instance(_, _)
        | Node::Union(_) => Ok(()),
    }
}

/// Lists a reference that isn't there.
fn note(found: &mut IndexSet<Reference>, name: &QName, role: Role) -> Result<(), AllocError>
    ensures { OnOk result
        (IsNoted found.old.keys (record { name = name.now; role = role }) found.new.keys) }
{
    let name = name.clone()?;
    found.insert(Reference { name, role })?;
    Ok(())
}
