//! What two nodes demand of each other.

ghost use Rattle.std.specs.Prelude.{◌≡◌, ◌<◌, ◌&&◌, [], ◌∷◌, length, IfOk};
ghost use Rattle.type_terms.specs.Arenas.{AllBelow};
ghost use Rattle.type_terms.specs.NodeShapes.{children};
ghost use Rattle.code_tables.specs.declared.predeclared.Basic.TheVariants.{Any};
ghost use Rattle.type_terms.specs.TreeEquality.{same_basic, same_dir};
ghost use Rattle.type_sets.specs.Covering.{aliased, same_length};
ghost use Rattle.type_alike.specs.Comparing.{tree_demand};
ghost use Rattle.type_alike.specs.Demands.{parts, parts_where, sets_where, same_generic, in_step};
ghost use Rattle.type_demands.specs.NodeDemands.{node_pair, pair_tree, meant, demand_map, generic_at, node_demand};
ghost use Rattle.type_demands.specs.NodeDemands.{AreInside, demand_pairs};

use crate::fields::struct_demand;
use crate::in_step::push_in_step;
use crate::signatures::sig_demand;
use code_tables::Basic;
use std::alloc::{AllocError, Global};
use type_terms::{Arena, Dir, Node, NodeId};

/// Two types that are compared, as nodes of one arena.
#[derive(Clone, Copy, Debug, PartialEq, Eq, Hash)]
pub struct Pair {
    pub left: NodeId,
    pub right: NodeId,
}

/// What two types demand of each other at one level.
#[derive(Debug, Drop)]
pub enum Demand {
    /// They differ at this level.
    Differ,
    /// They are alike where these pairs of parts are.
    Parts(Vec<Pair>),
    /// They are alike where their type sets are.
    Sets,
}

/// What two types demand of each other that have no alias at the head. Costs what stands in the two nodes.
pub fn demand_of(alloc: Global, arena: &Arena, pair: &Pair) -> Result<Demand, AllocError>
    requires left { pair.now.left < length arena.now.nodes }
    requires right { pair.now.right < length arena.now.nodes }
    ensures exact { IfOk result (λ found. demand_map (pair_tree arena.now.nodes) (meant found)
        ≡ tree_demand (pair_tree arena.now.nodes pair.now)) }
    ensures within { IfOk result (λ found. AreInside (length arena.now.nodes) (demand_pairs found)) }
{
    demand_between(alloc, arena, arena.node(pair.left), arena.node(pair.right))
}

/// What two nodes demand.
fn demand_between(
    alloc: Global,
    arena: &Arena,
    left: &Node,
    right: &Node,
) -> Result<Demand, AllocError>
    requires left { AllBelow (length arena.now.nodes) (children left.now) }
    requires right { AllBelow (length arena.now.nodes) (children right.now) }
    ensures { IfOk result (λ found. meant found ≡ node_demand arena.now.nodes left.now right.now) }
{
    match (left, right) {
        (Node::Predeclared(x), Node::Predeclared(y)) => Ok(leaf(alloc, aliased(*x) == aliased(*y))),
        (Node::Named(p), Node::Named(q)) => Ok(leaf(alloc, p == q)),
        (Node::Param(p), Node::Param(q)) => Ok(leaf(alloc, p == q)),
        (Node::Pointer(x), Node::Pointer(y)) => one_part(alloc, true, *x, *y),
        (Node::Slice(x), Node::Slice(y)) => one_part(alloc, true, *x, *y),
        (Node::Array(n, x), Node::Array(m, y)) => one_part(alloc, n == m, *x, *y),
        (Node::Chan(d, x), Node::Chan(e, y)) => one_part(alloc, same_dir(*d, *e), *x, *y),
        (Node::MapOf(k, x), Node::MapOf(l, y)) => two_parts(alloc, *k, *l, *x, *y),
        (Node::FuncOf(_, x), Node::FuncOf(_, y)) => sig_demand(alloc, x, y),
        (Node::StructOf(home, xs), Node::StructOf(other, ys)) => {
            struct_demand(alloc, home, other, xs.items(), ys.items())
        }
        (Node::Instance(base, xs), Node::Instance(other, ys)) => {
            instance_demand(alloc, arena, *base, *other, xs.items(), ys.items())
        }
        (Node::Iface(_, _, _), Node::Iface(_, _, _)) => Ok(Demand::Sets),
        (Node::Predeclared(x), Node::Iface(_, _, _)) => Ok(sets_of_any(*x)),
        (Node::Iface(_, _, _), Node::Predeclared(y)) => Ok(sets_of_any(*y)),
        (Node::Union(_), Node::Union(_)) => Ok(Demand::Sets),
        _ => Ok(Demand::Differ),
    }
}

/// What is demanded where there are no parts.
fn leaf(alloc: Global, same: bool) -> Demand
    ensures { meant result ≡ parts_where same [] }
{
    if !same {
        return Demand::Differ;
    }
    Demand::Parts(Vec::new(alloc))
}

/// What is demanded where the empty interface may be a predeclared type.
fn sets_of_any(basic: Basic) -> Demand
    ensures { meant result ≡ sets_where (same_basic Any basic) }
{
    if Basic::Any == basic {
        return Demand::Sets;
    }
    Demand::Differ
}

/// What is demanded where each type has one part.
fn one_part(alloc: Global, same: bool, left: NodeId, right: NodeId) -> Result<Demand, AllocError>
    ensures { IfOk result (λ found. meant found ≡ parts_where same (node_pair left right ∷ [])) }
{
    if !same {
        return Ok(Demand::Differ);
    }
    let mut parts = Vec::new(alloc);
    parts.push(Pair { left, right })?;
    Ok(Demand::Parts(parts))
}

/// What two maps demand: of their keys, and of their elements.
fn two_parts(
    alloc: Global,
    key: NodeId,
    other: NodeId,
    left: NodeId,
    right: NodeId,
) -> Result<Demand, AllocError>
    ensures { IfOk result (λ found. meant found ≡ parts (node_pair key other ∷ node_pair left right ∷ [])) }
{
    let mut parts = Vec::new(alloc);
    parts.push(Pair {
        left: key,
        right: other,
    })?;
    parts.push(Pair { left, right })?;
    Ok(Demand::Parts(parts))
}

/// What two instances demand: that they are of one defined type and have as many arguments.
fn instance_demand(
    alloc: Global,
    arena: &Arena,
    base: NodeId,
    other: NodeId,
    left: &[NodeId],
    right: &[NodeId],
) -> Result<Demand, AllocError>
    requires base { base < length arena.now.nodes }
    requires other { other < length arena.now.nodes }
    ensures { IfOk result (λ found. meant found
        ≡ parts_where (same_generic (generic_at arena.now.nodes base) (generic_at arena.now.nodes other)
        && same_length left.now right.now) (in_step (generic_at arena.now.nodes) node_pair left.now right.now)) }
{
    if !same_generic(arena, base, other) || left.len() != right.len() {
        return Ok(Demand::Differ);
    }
    let mut parts = Vec::new(alloc);
    push_in_step(left, right, &mut parts)?;
    Ok(Demand::Parts(parts))
}

/// Whether both are the same defined type.
fn same_generic(arena: &Arena, base: NodeId, other: NodeId) -> bool
    requires base { base < length arena.now.nodes }
    requires other { other < length arena.now.nodes }
    ensures { result ≡ same_generic (generic_at arena.now.nodes base) (generic_at arena.now.nodes other) }
{
    match (arena.defined_name(base), arena.defined_name(other)) {
        (Some(p), Some(q)) => p == q,
        _ => false,
    }
}

/// The type that a predeclared one is another name of, or the type itself.
fn aliased(basic: Basic) -> Basic
    ensures { result ≡ aliased basic }
{
    match basic {
        Basic::Byte => Basic::Uint8,
        Basic::Rune => Basic::Int32,
        _ => basic,
    }
}

/// Whether two directions are the same.
fn same_dir(left: Dir, right: Dir) -> bool
    ensures { result ≡ same_dir left right }
{
    left == right
}
