//! Counted lists of a block.

ghost use Rattle.std.specs.Prelude.{OnOk, map};
ghost use Rattle.file_layout.specs.Items.{list_items, type_items, embedded_items};
ghost use Rattle.block_writer.specs.Adding.{Adds};

use crate::items::Item;
use std::alloc::AllocError;
use type_terms::NodeId;

/// What stands in a counted list.
pub(crate) trait Listed {
    ghost use Rattle.std.specs.Prelude.{ℕ, List, OnOk};
    ghost use Rattle.type_terms.specs.Trees.{Tree};
    ghost use Rattle.file_layout.specs.Items.{Item as Meant};
    ghost use Rattle.block_writer.specs.Adding.{Adds};

    /// Its items, with the types of numbers.
    ghost items: { (ℕ → Tree) → Self → List Meant };

    /// Adds them.
    fn push<'a>(&'a self, into: &mut Vec<Item<'a>>) -> Result<(), AllocError>
        ensures { OnOk result (Adds into.old.items into.new.items (λ type. items type self.now)) };
}

/// Adds a count, and the things behind it.
pub(crate) fn push_list<'a, T: Listed>(
    things: &'a [T],
    into: &mut Vec<Item<'a>>,
) -> Result<(), AllocError>
    ensures { OnOk result (Adds into.old.items into.new.items (λ type. list_items (T.items type) things.now)) }
{
    into.extend_from_slice(&[Item::Number(things.len() as u64)])?;
    for thing in things {
        thing.push(into)?;
    }
    Ok(())
}

/// Adds a count, and the types behind it.
pub(crate) fn push_types(types: &[NodeId], into: &mut Vec<Item<'_>>) -> Result<(), AllocError>
    ensures { OnOk result (Adds into.old.items into.new.items (λ type. list_items type_items (map type types.now))) }
{
    into.extend_from_slice(&[Item::Number(types.len() as u64)])?;
    for id in types {
        into.extend_from_slice(&[Item::Type(*id)])?;
    }
    Ok(())
}

/// Adds a count, and the embedded types behind it, which have no positions.
pub(crate) fn push_embedded(types: &[NodeId], into: &mut Vec<Item<'_>>) -> Result<(), AllocError>
    ensures { OnOk result (Adds into.old.items into.new.items
        (λ type. list_items embedded_items (map type types.now))) }
{
    into.extend_from_slice(&[Item::Number(types.len() as u64)])?;
    for id in types {
        into.extend_from_slice(&[Item::NoPosition, Item::Type(*id)])?;
    }
    Ok(())
}
