//! What a type that covers wants of another one, as nodes of an arena.

ghost use Rattle.std.specs.Prelude.{◌≡◌, ◌<◌, List, length, IfOk};
ghost use Rattle.type_alike.specs.Comparing.{tree_demand};
ghost use Rattle.type_demands.specs.NodeDemands.{pair_tree};
ghost use Rattle.type_terms.specs.declared.descriptors.Node.{Node as Descriptor};
ghost use Rattle.type_terms.specs.Denotation.{tree};
ghost use Rattle.covering_steps.specs.Steps.{by_demand, step};
ghost use Rattle.covering_steps.specs.NodeSteps.{step_meant, empty_at};

use crate::unions::union_step;
use code_tables::Basic;
use std::alloc::{AllocError, Global};
use type_demands::{Demand, Pair, demand_of};
use type_terms::{Arena, Node};

/// What a type that covers wants of another one at one level.
#[derive(Debug, Drop)]
pub enum Step {
    /// They aren't identical.
    Differ,
    /// They are where these pairs of parts are, in order.
    Parts(Vec<Pair>),
    /// They are where the second one, an interface, has no methods, no flag and all types.
    Free,
}

/// What the left type, which covers, wants of the right one; neither has an alias at its head. Costs what stands in the
/// two nodes.
pub fn step_of(alloc: Global, arena: &Arena, pair: &Pair) -> Result<Step, AllocError>
    requires left { pair.now.left < length arena.now.nodes }
    requires right { pair.now.right < length arena.now.nodes }
    ensures exact { IfOk result (λ found. step_meant arena.now.nodes found
        ≡ step (tree arena.now.nodes pair.now.left) (tree arena.now.nodes pair.now.right)) }
{
    let right = arena.node(pair.right);
    match arena.node(pair.left) {
        Node::Iface(_, embedded, methods) => {
            if embedded.items().is_empty() && methods.items().is_empty() {
                return Ok(empty_step(alloc, right));
            }
            Ok(Step::Differ)
        }
        Node::Predeclared(basic) => {
            if Basic::Any == *basic {
                return Ok(empty_step(alloc, right));
            }
            plain_step(alloc, arena, pair)
        }
        Node::Union(terms) => union_step(alloc, terms.items(), right),
        Node::Named(_)
        | Node::Param(_)
        | Node::AliasName(_)
        | Node::Pointer(_)
        | Node::Slice(_)
        | Node::Array(_, _)
        | Node::Chan(_, _)
        | Node::MapOf(_, _)
        | Node::FuncOf(_, _)
        | Node::StructOf(_, _)
        | Node::Instance(_, _) => plain_step(alloc, arena, pair),
    }
}

/// What the empty interface wants of a type.
fn empty_step(alloc: Global, right: &Node) -> Step
    ensures { (nodes : List Descriptor) → step_meant nodes result ≡ empty_at nodes right.now }
{
    match right {
        Node::Iface(_, _, _) => Step::Free,
        Node::Predeclared(basic) => {
            if Basic::Any == *basic {
                return Step::Parts(Vec::new(alloc));
            }
            Step::Differ
        }
        Node::Named(_)
        | Node::Param(_)
        | Node::AliasName(_)
        | Node::Pointer(_)
        | Node::Slice(_)
        | Node::Array(_, _)
        | Node::Chan(_, _)
        | Node::MapOf(_, _)
        | Node::FuncOf(_, _)
        | Node::StructOf(_, _)
        | Node::Instance(_, _)
        | Node::Union(_) => Step::Differ,
    }
}

/// What identical types demand of each other.
fn plain_step(alloc: Global, arena: &Arena, pair: &Pair) -> Result<Step, AllocError>
    requires left { pair.now.left < length arena.now.nodes }
    requires right { pair.now.right < length arena.now.nodes }
    ensures { IfOk result (λ found. step_meant arena.now.nodes found
        ≡ by_demand (tree_demand (pair_tree arena.now.nodes pair.now))) }
{
    match demand_of(alloc, arena, pair)? {
        Demand::Parts(pairs) => Ok(Step::Parts(pairs)),
        Demand::Differ | Demand::Sets => Ok(Step::Differ),
    }
}
