//! The nodes of a type that are still to be looked at.

ghost use Rattle.std.specs.Prelude.{◌≡◌, ◌<◌, ◌++◌, ◌∷◌, [], OnOk, IfOk, IfSome, IfNone, is_some, length};
ghost use Rattle.type_terms.specs.Arenas.{AllBelow};
ghost use Rattle.dangling_types.specs.Findings.{known_for};
ghost use Rattle.dangling_types.specs.Searching.{AreWanted, AreChildren, Joins};

use crate::looking::Known;
use std::alloc::{AllocError, Global};
use std::collections::BTreeSet;
use type_terms::{Arena, NodeId, push_children};

/// The nodes of a type that aren't known, each before those that stand in it: from the greatest number to the least.
/// Takes time for them, for their uses, and for the logarithm of how many wait at once.
pub(crate) fn wanted(
    alloc: Global,
    arena: &Arena,
    known: &Known,
    start: NodeId,
) -> Result<Vec<NodeId>, AllocError>
    requires { start < length arena.now.nodes }
    ensures { IfOk result (λ met. AreWanted arena.now.nodes known.now.entries start met.items) }
{
    let mut met = Vec::new(alloc);
    let mut waiting = BTreeSet::new(alloc);
    wait(known, &mut waiting, start)?;
    while let Some(id) = greatest(&mut waiting) {
        met.push(id)?;
        let inner = children_of(alloc, arena, id)?;
        wait_for(known, &mut waiting, &inner)?;
    }
    Ok(met)
}

/// The nodes that stand in a node.
fn children_of(alloc: Global, arena: &Arena, id: NodeId) -> Result<Vec<NodeId>, AllocError>
    requires { id < length arena.now.nodes }
    ensures { IfOk result (λ inner. AreChildren arena.now.nodes id inner.items) }
{
    let mut inner = Vec::new(alloc);
    push_children(arena.node(id), &mut inner)?;
    Ok(inner)
}

/// Takes the greatest number out of a set.
fn greatest(waiting: &mut BTreeSet<NodeId>) -> Option<NodeId>
    ensures taken { IfSome result (λ id. waiting.old.keys ≡ waiting.new.keys ++ id ∷ []) }
    ensures below { IfSome result (λ id. AllBelow id waiting.new.keys) }
    ensures none { IfNone result (waiting.old.keys ≡ []) }
{
    waiting.pop_last()
}

/// Puts those of some numbers into a set that aren't known.
fn wait_for(known: &Known, waiting: &mut BTreeSet<NodeId>, ids: &[NodeId]) -> Result<(), AllocError>
    ensures { OnOk result (Joins known.now.entries waiting.old.keys waiting.new.keys ids.now) }
{
    for id in ids {
        wait(known, waiting, *id)?;
    }
    Ok(())
}

/// Puts a number into a set, unless it is known.
fn wait(known: &Known, waiting: &mut BTreeSet<NodeId>, id: NodeId) -> Result<(), AllocError>
    ensures { OnOk result (Joins known.now.entries waiting.old.keys waiting.new.keys (id ∷ [])) }
{
    if is_known(known, id) {
        return Ok(());
    }
    waiting.insert(id)?;
    Ok(())
}

fn is_known(known: &Known, id: NodeId) -> bool
    ensures { result ≡ is_some (known_for known.now.entries id) }
{
    known.contains_key(&id)
}
