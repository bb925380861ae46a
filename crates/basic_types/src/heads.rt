//! The name at the head of a type, and what stands behind a declaration.

ghost use Rattle.std.specs.Prelude.{◌≡◌, ◌<◌, length, IfOk, option_map};
ghost use Rattle.type_terms.specs.Declarations.{decl_form};
ghost use Rattle.type_terms.specs.Denotation.{tree};
ghost use Rattle.basic_types.specs.BasicTypes.{own_name, head_name, side_of};

use code_tables::Basic;
use go_values::QName;
use std::alloc::AllocError;
use type_terms::{Arena, DeclNode, Node, NodeId};

/// The name at the head of a type.
pub(crate) fn head_at(arena: &Arena, id: NodeId) -> Result<Option<QName>, AllocError>
    requires there { id < length arena.now.nodes }
    ensures { IfOk result (λ head. head_name (tree arena.now.nodes id) ≡ head) }
{
    copied(own_name_at(arena, generic_at(arena, id)))
}

/// The generic type of which a type is an instance, or else the type itself.
fn generic_at(arena: &Arena, id: NodeId) -> NodeId
    requires there { id < length arena.now.nodes }
    ensures name { head_name (tree arena.now.nodes id) ≡ own_name (tree arena.now.nodes result) }
    ensures inside { result < length arena.now.nodes }
{
    match arena.node(id) {
        Node::Instance(base, _) => *base,
        Node::Predeclared(_)
        | Node::Named(_)
        | Node::AliasName(_)
        | Node::Param(_)
        | Node::Pointer(_)
        | Node::Slice(_)
        | Node::Array(_, _)
        | Node::Chan(_, _)
        | Node::MapOf(_, _)
        | Node::FuncOf(_, _)
        | Node::StructOf(_, _)
        | Node::Iface(_, _, _)
        | Node::Union(_) => id,
    }
}

/// The name of a defined type or an alias.
fn own_name_at(arena: &Arena, id: NodeId) -> Option<&QName>
    requires there { id < length arena.now.nodes }
    ensures { own_name (tree arena.now.nodes id) ≡ option_map (λ q. q.now) result }
{
    match arena.node(id) {
        Node::Named(q) => Some(q),
        Node::AliasName(q) => Some(q),
        Node::Predeclared(_)
        | Node::Param(_)
        | Node::Pointer(_)
        | Node::Slice(_)
        | Node::Array(_, _)
        | Node::Chan(_, _)
        | Node::MapOf(_, _)
        | Node::FuncOf(_, _)
        | Node::StructOf(_, _)
        | Node::Iface(_, _, _)
        | Node::Instance(_, _)
        | Node::Union(_) => None,
    }
}

fn copied(q: Option<&QName>) -> Result<Option<QName>, AllocError>
    ensures { IfOk result (λ own. option_map (λ q. q.now) q.entry ≡ own) }
{
    match q {
        Some(q) => Ok(Some(q.clone()?)),
        None => Ok(None),
    }
}

/// The type behind the declaration of a type: its underlying type, or its right side.
pub(crate) fn side_of(decl: &DeclNode) -> Option<NodeId>
    ensures { result ≡ side_of (decl_form decl.now) }
{
    match decl {
        DeclNode::Defined { underlying, .. } => Some(*underlying),
        DeclNode::Alias { ty, .. } => Some(*ty),
        DeclNode::Var { .. }
        | DeclNode::Func { .. }
        | DeclNode::Constant { .. }
        | DeclNode::Parameter { .. } => None,
    }
}
