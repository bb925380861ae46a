//! The reading of one declaration, as it goes on.

ghost use Rattle.std.specs.Prelude.{◌≡◌, ◌≤◌, ◌∷◌, ◌++◌, [], length, OnOk, OnErr, IfSome, option_map};
ghost use Rattle.decl_spelling.specs.Tables.{at, free_to};
ghost use Rattle.decl_reader.specs.Blocks.{known_as, IsThere};
ghost use Rattle.decl_reader.specs.Finished.{type_at};
ghost use Rattle.decl_reader.specs.Places.{with_place};
ghost use Rattle.decl_reader.specs.Progress.{remembered, known, IsReadyFor};

use crate::finished::Descriptor;
use crate::places::{Place, Places};
use crate::table::{Finished, Table};
use file_parts::Parts;
use std::alloc::{AllocError, Global};
use std::sync::ledger::Ledger;
use steps::Steps;
use type_terms::Arena;

/// A descriptor whose type is known.
#[derive(Clone, Copy, Debug)]
pub(crate) enum Known {
    /// An earlier declaration has finished it, so it has a node.
    Remembered(Finished),
    /// It was read whole in the reading of this one.
    Read(Place),
}

/// What the reading of one declaration has so far: the descriptors that were read whole, each behind those that it
/// names, and the count of the bytes that were read.
#[derive(Drop)]
pub(crate) struct Reading<'a, L: Ledger> {
    pub(crate) alloc: Global,
    /// What earlier declarations of the file have finished, which is not read again.
    pub(crate) memory: &'a Table,
    /// The nodes of these.
    pub(crate) arena: &'a Arena,
    pub(crate) finished: Vec<Descriptor>,
    /// Where the finished ones stand.
    pub(crate) places: Places,
    pub(crate) steps: &'a mut Steps<L>,
}

impl<L: Ledger> Reading<'_, L> {
    /// What is known of the descriptor at an offset, if it was read whole.
    pub(crate) fn known_at(&self, parts: &Parts<'_>, offset: u64) -> Option<Known>
        requires ready { IsReadyFor parts.now self.now }
        ensures found { option_map
            (known_as self.now.arena.now.nodes
            (type_at parts.now.version (remembered self.now) self.now.finished.items)) result
            ≡ at (known parts.now self.now) offset }
        ensures there { IfSome result
            (IsThere (length self.now.arena.now.nodes) (length self.now.finished.items)) }
    {
        match self.memory.at(offset) {
            Some(finished) => Some(Known::Remembered(finished)),
            None => Some(Known::Read(self.places.at(offset)?)),
        }
    }

    /// The first byte from an offset on that one of the descriptors has that are known, or else the limit.
    pub(crate) fn free_to(&self, parts: &Parts<'_>, offset: u64, limit: u64) -> u64
        requires ready { IsReadyFor parts.now self.now }
        requires order { offset ≤ limit }
        ensures { result ≡ free_to offset limit (known parts.now self.now) }
    {
        let remembered = self.memory.free_to(offset, limit);
        let own = self.places.free_to(offset, limit);
        if own < remembered { own } else { remembered }
    }
}

/// One more descriptor joins those that were read whole. Where memory is wanting, all stays as it was.
pub(crate) fn join(
    finished: &mut Vec<Descriptor>,
    places: &mut Places,
    descriptor: Descriptor,
) -> Result<(), AllocError>
    ensures finished { OnOk result (finished.new.items ≡ finished.old.items ++ descriptor ∷ []) }
    ensures placed { OnOk result
        (places.new ≡ with_place places.old descriptor.start
        (record { end = descriptor.end; index = length finished.old.items })) }
    ensures same { OnErr result (finished.new.items ≡ finished.old.items) }
    ensures same_places { OnErr result (places.new ≡ places.old) }
{
    let index = finished.len();
    let (start, end) = (descriptor.start, descriptor.end);
    finished.push(descriptor)?;
    match places.insert(start, Place { end, index }) {
        Ok(()) => Ok(()),
        Err(error) => {
            finished.pop();
            Err(error)
        }
    }
}
