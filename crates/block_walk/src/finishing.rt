//! Finishing descriptors.

ghost use Rattle.std.specs.Prelude.{◌<◌, ◌∷◌, List, length, OnOk};
ghost use Rattle.type_terms.specs.Denotation.{tree};
ghost use Rattle.block_walk.specs.Finishing.{IsPut};
ghost use Rattle.block_walk.specs.Standing.{HasRoom, Goes};
ghost use Rattle.block_walk.specs.Steps.{Step, finish};

use crate::labels::label_children;
use crate::mentions::put_name_of;
use crate::section::{Section, is_placed};
use block_writer::put_descriptor;
use decl_spelling::FIRST_DESCRIPTOR;
use std::alloc::{AllocError, Global};
use type_terms::{Arena, NodeId};

/// Puts the descriptor of a node behind all that was written, unless it is placed.
pub(crate) fn finish(
    alloc: Global,
    nodes: &Arena,
    own: &[u8],
    section: &mut Section,
    id: NodeId,
) -> Result<(), AllocError>
    requires there { id < length nodes.now.nodes }
    requires room { HasRoom nodes.now.nodes section.old }
    ensures { OnOk result ((left : List Step)
        → Goes nodes.now.nodes own.now section.old section.new (finish (tree nodes.now.nodes id) ∷ left) left) }
{
    if is_placed(&section.placed, id) {
        return Ok(());
    }
    put(alloc, nodes, own, section, id)
}

/// Puts the descriptor of a node.
fn put(
    alloc: Global,
    nodes: &Arena,
    own: &[u8],
    section: &mut Section,
    id: NodeId,
) -> Result<(), AllocError>
    requires there { id < length nodes.now.nodes }
    requires room { HasRoom nodes.now.nodes section.old }
    ensures { OnOk result (IsPut nodes.now.nodes own.now id section.old section.new) }
{
    let node = nodes.node(id);
    label_children(alloc, nodes, node, &mut section.numbers)?;
    let start = section.body.bytes().len() as u64;
    put_descriptor(
        alloc,
        &mut section.body,
        &mut section.strings,
        own,
        &section.numbers,
        node,
    )?;
    put_name_of(&mut section.names, node)?;
    section.numbers[id.number() as usize] = FIRST_DESCRIPTOR + start;
    section.placed[id.number() as usize] = true;
    Ok(())
}
