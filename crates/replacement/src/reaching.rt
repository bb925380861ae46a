//! The nodes of a type.

ghost use Rattle.std.specs.Prelude.{◌≡◌, ◌<◌, ◌++◌, ◌∷◌, [], OnOk, IfOk, IfSome, IfNone, length};
ghost use Rattle.type_terms.specs.Arenas.{AllBelow};
ghost use Rattle.replacement.specs.Moves.{AreNodesOf, AreChildren, Joins};

use std::alloc::{AllocError, Global};
use std::collections::BTreeSet;
use type_terms::{Arena, NodeId, push_children};

/// The nodes of a type, each before those that stand in it: from the greatest number to the least. Takes time for
/// them, for their uses, and for the logarithm of how many wait at once.
pub fn nodes_of(alloc: Global, arena: &Arena, start: NodeId) -> Result<Vec<NodeId>, AllocError>
    requires { start < length arena.now.nodes }
    ensures { IfOk result (λ met. AreNodesOf arena.now.nodes start met.items) }
{
    let mut met = Vec::new(alloc);
    let mut waiting = BTreeSet::new(alloc);
    wait(&mut waiting, start)?;
    while let Some(id) = greatest(&mut waiting) {
        met.push(id)?;
        let inner = children_of(alloc, arena, id)?;
        wait_for(&mut waiting, &inner)?;
    }
    Ok(met)
}

/// The nodes that stand in a node.
fn children_of(alloc: Global, arena: &Arena, id: NodeId) -> Result<Vec<NodeId>, AllocError>
    requires { id < length arena.now.nodes }
    ensures { IfOk result (λ inner. AreChildren arena.now.nodes id inner.items) }
{
    let mut inner = Vec::new(alloc);
    push_children(arena.node(id), &mut inner)?;
    Ok(inner)
}

/// Takes the greatest number out of a set.
fn greatest(waiting: &mut BTreeSet<NodeId>) -> Option<NodeId>
    ensures taken { IfSome result (λ id. waiting.old.keys ≡ waiting.new.keys ++ id ∷ []) }
    ensures below { IfSome result (λ id. AllBelow id waiting.new.keys) }
    ensures none { IfNone result (waiting.old.keys ≡ []) }
{
    waiting.pop_last()
}

/// Puts numbers into a set.
fn wait_for(waiting: &mut BTreeSet<NodeId>, ids: &[NodeId]) -> Result<(), AllocError>
    ensures { OnOk result (Joins waiting.old.keys waiting.new.keys ids.now) }
{
    for id in ids {
        wait(waiting, *id)?;
    }
    Ok(())
}

/// Puts a number into a set.
fn wait(waiting: &mut BTreeSet<NodeId>, id: NodeId) -> Result<(), AllocError>
    ensures { OnOk result (Joins waiting.old.keys waiting.new.keys (id ∷ [])) }
{
    waiting.insert(id)?;
    Ok(())
}
