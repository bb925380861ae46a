//! Types that are met.

ghost use Rattle.std.specs.Prelude.{◌≡◌, ◌<◌, length, OnOk};
ghost use Rattle.block_walk.specs.Entering.{is_marked, Enters, Piles};

use crate::section::{Section, is_placed};
use crate::steps::{Step, push_steps};
use block_writer::push_descriptor;
use std::alloc::{AllocError, Global};
use type_terms::{Arena, NodeId};

/// Whether a type has its number: it is predeclared, or its descriptor is placed.
pub(crate) fn is_marked(nodes: &Arena, section: &Section, id: NodeId) -> bool
    requires there { id < length nodes.now.nodes }
    ensures { result ≡ is_marked nodes.now.nodes section.now id }
{
    match nodes.predeclared(id) {
        Some(_) => true,
        None => is_placed(&section.placed, id),
    }
}

/// Puts the steps of a descriptor before those that are left.
pub(crate) fn enter<'a>(
    alloc: Global,
    nodes: &'a Arena,
    id: NodeId,
    left: &mut Vec<Step<'a>>,
) -> Result<(), AllocError>
    requires { id < length nodes.now.nodes }
    ensures { OnOk result (Enters nodes.now.nodes id left.old.items left.new.items) }
{
    let mut items = Vec::new(alloc);
    push_descriptor(nodes.node(id), &mut items)?;
    let mut steps = Vec::new(alloc);
    push_steps(items.as_slice(), &mut steps)?;
    left.extend_from_slice(&[Step::Finish(id)])?;
    pile(&mut steps, left)
}

/// Moves steps to those that are left, the last of them first.
pub(crate) fn pile<'a>(
    steps: &mut Vec<Step<'a>>,
    left: &mut Vec<Step<'a>>,
) -> Result<(), AllocError>
    ensures { OnOk result (Piles steps.old.items left.old.items left.new.items) }
{
    while let Some(step) = steps.pop() {
        left.extend_from_slice(&[step])?;
    }
    Ok(())
}
