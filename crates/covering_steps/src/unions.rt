//! Unions, which are compared as they are written.

ghost use Rattle.std.specs.Prelude.{◌≡◌, List, option_map, IfOk};
ghost use Rattle.type_terms.specs.declared.descriptors.Node.{Node as Descriptor};
ghost use Rattle.covering_steps.specs.NodeSteps.{step_meant, union_at, pairs_step, terms_in_step};

use crate::steps::Step;
use std::alloc::{AllocError, Global};
use type_demands::Pair;
use type_terms::{Node, Term};

/// What a union of these terms wants of a type.
pub(crate) fn union_step(alloc: Global, left: &[Term], right: &Node) -> Result<Step, AllocError>
    ensures { (nodes : List Descriptor) → IfOk result (λ found. step_meant nodes found
        ≡ union_at nodes left.now right.now) }
{
    match right {
        Node::Union(terms) => terms_step(alloc, left, terms.items()),
        Node::Iface(_, _, _)
        | Node::Predeclared(_)
        | Node::Named(_)
        | Node::Param(_)
        | Node::AliasName(_)
        | Node::Pointer(_)
        | Node::Slice(_)
        | Node::Array(_, _)
        | Node::Chan(_, _)
        | Node::MapOf(_, _)
        | Node::FuncOf(_, _)
        | Node::StructOf(_, _)
        | Node::Instance(_, _) => Ok(Step::Differ),
    }
}

/// What unions of these terms want of each other.
fn terms_step(alloc: Global, left: &[Term], right: &[Term]) -> Result<Step, AllocError>
    ensures { (nodes : List Descriptor) → IfOk result (λ found. step_meant nodes found
        ≡ pairs_step nodes (terms_in_step left.now right.now)) }
{
    match terms_in_step(alloc, left, right)? {
        Some(pairs) => Ok(Step::Parts(pairs)),
        None => Ok(Step::Differ),
    }
}

/// The pairs of the types in the same places, where there are as many terms, and those in the same place have a tilde
/// both or neither.
fn terms_in_step(
    alloc: Global,
    left: &[Term],
    right: &[Term],
) -> Result<Option<Vec<Pair>>, AllocError>
    ensures { IfOk result (λ found. option_map (λ pairs. pairs.items) found ≡ terms_in_step left.now right.now) }
{
    if left.len() != right.len() {
        return Ok(None);
    }
    let mut parts = Vec::new(alloc);
    for k in 0..left.len() {
        let x = left[k];
        let y = right[k];
        if x.tilde != y.tilde {
            return Ok(None);
        }
        parts.push(Pair {
            left: x.ty,
            right: y.ty,
        })?;
    }
    Ok(Some(parts))
}
