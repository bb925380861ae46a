//! What is found in the type of one node, where its parts are known.

ghost use Rattle.std.specs.Prelude.{◌≡◌, ◌<◌, ◌++◌, ◌∷◌, [], List, Some, length, slice_get, map, IfOk};
ghost use Rattle.std.specs.List.{flat_map, AllByRecursion};
ghost use Rattle.type_terms.specs.declared.descriptors.Node.{Node as Descriptor};
ghost use Rattle.type_terms.specs.Denotation.{tree};
ghost use Rattle.type_terms.specs.NodeShapes.{node_shape, children};
ghost use Rattle.type_terms.specs.Shapes.{retype};
ghost use Rattle.type_terms.specs.Trees.{tree_of};
ghost use Rattle.environments.specs.References.{tree_references, base_references, IsByParts};
ghost use Rattle.environments.specs.declared.mentions.Reference.{Reference};
ghost use Rattle.dangling_references.specs.Dangling.{Entries};
ghost use Rattle.dangling_types.specs.FirstDangling.{first_dangling};
ghost use Rattle.dangling_types.specs.NodeReferences.{base_reference, reference_at, Finds};
ghost use Rattle.dangling_types.specs.Findings.{finding_for, IsKnown, IsRight, AreRight, HasChildren};

use crate::finding::Finding;
use crate::roles::{Roles, is_role};
use environments::Role;
use go_values::QName;
use indexmap::IndexMap;
use std::alloc::{AllocError, Global};
use type_terms::{Arena, Node, NodeId, push_children};

/// What was found for nodes.
pub(crate) type Known = IndexMap<NodeId, Finding>;

/// What is found in the type of a node.
pub(crate) fn look<R: Roles>(
    alloc: Global,
    arena: &Arena,
    roles: &R,
    known: &Known,
    id: NodeId,
) -> Result<Finding, AllocError>
    requires stands { R.stands roles.now }
    requires there { id < length arena.now.nodes }
    requires right { AreRight (R.entries roles.now) arena.now.nodes known.now.entries }
    requires children { HasChildren arena.now.nodes known.now.entries id }
    ensures { IfOk result (IsRight (R.entries roles.now) arena.now.nodes id) }
{
    let node = arena.node(id);
    match node {
        Node::Named(q) => Ok(look_up(roles, id, q, Role::Defined)),
        Node::Param(q) => Ok(look_up(roles, id, q, Role::Parameter)),
        Node::AliasName(q) => Ok(look_up(roles, id, q, Role::Alias)),
        Node::Instance(base, args) => Ok(look_at_instance(
            arena,
            roles,
            known,
            id,
            *base,
            args.items(),
        )),
        Node::Predeclared(_)
        | Node::Pointer(_)
        | Node::Slice(_)
        | Node::Array(_, _)
        | Node::Chan(_, _)
        | Node::MapOf(_, _)
        | Node::FuncOf(_, _)
        | Node::StructOf(_, _)
        | Node::Iface(_, _, _)
        | Node::Union(_) => look_at_parts(alloc, arena, known, id, node),
    }
}

/// What is found of a reference that a node makes.
fn look_up<R: Roles>(roles: &R, id: NodeId, q: &QName, role: Role) -> Finding
    requires stands { R.stands roles.now }
    ensures { (nodes : List Descriptor)
        → reference_at nodes id ≡ Some (record { name = q.now; role = role })
        → Finds nodes result (first_dangling (R.entries roles.now) (record { name = q.now; role = role } ∷ [])) }
{
    if is_role(roles.role(q), role) {
        Finding::Sound
    } else {
        Finding::Dangles(id)
    }
}

/// What is found in an instance: in its arguments first.
fn look_at_instance<R: Roles>(
    arena: &Arena,
    roles: &R,
    known: &Known,
    id: NodeId,
    base: NodeId,
    args: &[NodeId],
) -> Finding
    requires stands { R.stands roles.now }
    requires there { base < length arena.now.nodes }
    requires right { AreRight (R.entries roles.now) arena.now.nodes known.now.entries }
    requires known { AllByRecursion (IsKnown known.now.entries) args.now }
    requires its_own { reference_at arena.now.nodes id
        ≡ base_reference (slice_get arena.now.nodes base) (length args.now) }
    ensures { Finds arena.now.nodes result (first_dangling (R.entries roles.now)
        (flat_map tree_references (map (tree arena.now.nodes) args.now)
        ++ base_references (tree arena.now.nodes base) (length args.now))) }
{
    match first_of(known, args) {
        Finding::Sound => look_at_base(arena, roles, id, base, args.len()),
        Finding::Dangles(at) => Finding::Dangles(at),
    }
}

/// What is found of the base of an instance with so many arguments.
fn look_at_base<R: Roles>(
    arena: &Arena,
    roles: &R,
    id: NodeId,
    base: NodeId,
    count: usize,
) -> Finding
    requires stands { R.stands roles.now }
    requires there { base < length arena.now.nodes }
    requires its_own { reference_at arena.now.nodes id ≡ base_reference (slice_get arena.now.nodes base) count }
    ensures { Finds arena.now.nodes result (first_dangling (R.entries roles.now)
        (base_references (tree arena.now.nodes base) count)) }
{
    match arena.node(base) {
        Node::Named(q) => look_up(roles, id, q, Role::DefinedBase(count)),
        Node::AliasName(q) => look_up(roles, id, q, Role::AliasBase(count)),
        Node::Predeclared(_)
        | Node::Param(_)
        | Node::Pointer(_)
        | Node::Slice(_)
        | Node::Array(_, _)
        | Node::Chan(_, _)
        | Node::MapOf(_, _)
        | Node::FuncOf(_, _)
        | Node::StructOf(_, _)
        | Node::Iface(_, _, _)
        | Node::Instance(_, _)
        | Node::Union(_) => Finding::Sound,
    }
}

/// What is found in a type that is neither a name nor an instance of one: in its parts.
fn look_at_parts(
    alloc: Global,
    arena: &Arena,
    known: &Known,
    id: NodeId,
    node: &Node,
) -> Result<Finding, AllocError>
    requires known { AllByRecursion (IsKnown known.now.entries) (children node.now) }
    requires denotes { tree arena.now.nodes id ≡ tree_of (retype (tree arena.now.nodes) (node_shape node.now)) }
    requires by_parts { IsByParts (tree_of (retype (tree arena.now.nodes) (node_shape node.now))) }
    ensures { (entries : Entries) → AreRight entries arena.now.nodes known.now.entries
        → IfOk result (IsRight entries arena.now.nodes id) }
{
    let mut inner = Vec::new(alloc);
    push_children(node, &mut inner)?;
    Ok(first_of(known, &inner))
}

/// What is found in some types, of which all are known.
pub(crate) fn first_of(known: &Known, ids: &[NodeId]) -> Finding
    requires { AllByRecursion (IsKnown known.now.entries) ids.now }
    ensures { (entries : Entries) (nodes : List Descriptor) → AreRight entries nodes known.now.entries
        → Finds nodes result (first_dangling entries (flat_map tree_references (map (tree nodes) ids.now))) }
{
    for id in ids {
        match finding_for(known, *id) {
            Finding::Sound => {}
            Finding::Dangles(at) => return Finding::Dangles(at),
        }
    }
    Finding::Sound
}

/// What was found for a node; nothing where it isn't known.
pub(crate) fn finding_for(known: &Known, id: NodeId) -> Finding
    ensures { result ≡ finding_for known.now.entries id }
{
    match known.get(&id) {
        Some(finding) => *finding,
        None => Finding::Sound,
    }
}
