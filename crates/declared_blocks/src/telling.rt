//! What is told of a declaration.

ghost use Rattle.std.specs.Prelude.{◌≡◌, ◌<◌, ℕ, length, IsErrOf};
ghost use Rattle.type_terms.specs.Arenas.{AllBelow};
ghost use Rattle.type_terms.specs.Declarations.{decl_nodes, decl_of};
ghost use Rattle.type_terms.specs.Denotation.{tree};
ghost use Rattle.type_terms.specs.NodeShapes.{node_shape};
ghost use Rattle.type_terms.specs.Shapes.{retype};
ghost use Rattle.type_terms.specs.Trees.{Tree, tree_of};
ghost use Rattle.environments.specs.Kept.{world, Kept, OpensBehind};
ghost use Rattle.environments.specs.OpenedTypes.{OutgrowsAmong};
ghost use Rattle.basic_types.specs.BasicTypes.{IsReached};
ghost use Rattle.basic_types.specs.Calls.{OpensOnWay};
ghost use Rattle.decl_spelling.specs.Declarations.{has_methods};
ghost use Rattle.written_types.specs.Written.{full, written};
ghost use Rattle.declared_blocks.specs.Telling.{Asks, Tells, TellsConstant};

use basic_types::{as_many_heads_as_names_are_enough, basic_type};
use block_writer::Told;
use code_tables::Basic;
use environments::{Env, EnvError};
use std::alloc::Global;
use type_terms::{Arena, DeclNode, Node, NodeId};

/// What the items of a declaration depend on, as it is written: the basic type to which a constant's type comes down,
/// and whether a defined type may have methods. The environment is asked for names on the way from a constant's type
/// alone, and `Nodes` comes only where the nodes at entry and what is behind these names are more distinct trees than
/// the arena's limit. For any other declaration it never fails.
pub fn tell<'a, E: Env<'a>>(
    alloc: Global,
    env: &mut E,
    arena: &mut Arena,
    decl: &DeclNode,
) -> Result<Told, EnvError>
    requires stands { E.stands env.old arena.old.nodes }
    requires there { AllBelow (length arena.old.nodes) (decl_nodes decl.now) }
    ensures answer { Tells (E.entries env.old arena.old.nodes) (E.names env.old) (decl_of arena.old.nodes decl.now)
        arena.new (E.full env.new) result }
    ensures kept { Kept (Asks (E.entries env.old arena.old.nodes) (decl_of arena.old.nodes decl.now))
        (OpensBehind (E.entries env.old arena.old.nodes)
        (Asks (E.entries env.old arena.old.nodes) (decl_of arena.old.nodes decl.now)))
        (world (E.entries env.old arena.old.nodes) (E.names env.old) (E.packages env.old) (E.asked env.old))
        (world (E.entries env.new arena.new.nodes) (E.names env.new) (E.packages env.new) (E.asked env.new))
        arena.old arena.new }
    ensures outgrown { IsErrOf result EnvError.Nodes → OutgrowsAmong
        (OpensBehind (E.entries env.old arena.old.nodes)
        (Asks (E.entries env.old arena.old.nodes) (decl_of arena.old.nodes decl.now))) arena.old }
    ensures stands_after { E.stands env.new arena.new.nodes }
{
    match decl {
        DeclNode::Constant { ty, .. } => constant_told(alloc, env, arena, *ty),
        DeclNode::Defined { underlying, .. } => Ok(Told {
            basic: None,
            has_methods: may_have_methods(arena, *underlying),
        }),
        DeclNode::Var { .. }
        | DeclNode::Func { .. }
        | DeclNode::Alias { .. }
        | DeclNode::Parameter { .. } => Ok(Told {
            basic: None,
            has_methods: true,
        }),
    }
}

/// What is told of a constant of this type.
fn constant_told<'a, E: Env<'a>>(
    alloc: Global,
    env: &mut E,
    arena: &mut Arena,
    ty: NodeId,
) -> Result<Told, EnvError>
    requires stands { E.stands env.old arena.old.nodes }
    requires there { ty < length arena.old.nodes }
    ensures answer { TellsConstant (E.entries env.old arena.old.nodes) (E.names env.old) (tree arena.old.nodes ty)
        arena.new (E.full env.new) result }
    ensures kept { Kept (IsReached (E.entries env.old arena.old.nodes) (tree arena.old.nodes ty))
        (OpensOnWay (E.entries env.old arena.old.nodes) (tree arena.old.nodes ty))
        (world (E.entries env.old arena.old.nodes) (E.names env.old) (E.packages env.old) (E.asked env.old))
        (world (E.entries env.new arena.new.nodes) (E.names env.new) (E.packages env.new) (E.asked env.new))
        arena.old arena.new }
    ensures outgrown { IsErrOf result EnvError.Nodes → OutgrowsAmong
        (OpensOnWay (E.entries env.old arena.old.nodes) (tree arena.old.nodes ty)) arena.old }
    ensures stands_after { E.stands env.new arena.new.nodes }
{
    as_many_heads_as_names_are_enough();
    match basic_type(alloc, env, arena, ty) {
        Ok(basic) => Ok(Told {
            basic,
            has_methods: true,
        }),
        Err(fault) => Err(fault),
    }
}

/// Whether a type may have methods, as it is written: it is neither `any` nor an interface.
fn may_have_methods(arena: &Arena, id: NodeId) -> bool
    requires { id < length arena.now.nodes }
    ensures { result ≡ has_methods (written full (tree arena.now.nodes id)) }
{
    node_has_methods(arena.node(id))
}

fn node_has_methods(node: &Node) -> bool
    ensures { (types : ℕ → Tree) → result ≡ has_methods (written full (tree_of (retype types (node_shape node.now)))) }
{
    !matches!(node, Node::Iface(_, _, _) | Node::Predeclared(Basic::Any))
}
