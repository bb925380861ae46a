//! Where the descriptors stand that were read whole in the reading of one declaration.

ghost use Rattle.std.specs.Prelude.{◌≡◌, ◌<◌, ◌++◌, [], List, ℕ, OnOk, OnErr, IfSome, option_map};
ghost use Rattle.type_terms.specs.Trees.{Tree};
ghost use Rattle.decl_spelling.specs.Tables.{at, free_to};
ghost use Rattle.decl_reader.specs.Places.{place_at, placed_as, placed_of, with_place, AllPlaced, IsStacked};
ghost use Rattle.decl_reader.specs.Places.{up_to, from, Covers, StartsFirst, AreInOrder, IsOneOf};

mod listed;

use crate::places::listed::{free_in, place_in, put, slot};
use smallvec::SmallVec;
use std::alloc::{AllocError, Global};
use std::collections::BTreeMap;
use std::marker::Model;

/// Where a descriptor ends in the data section, and its index among those that were read whole.
#[derive(Clone, Copy, Debug, Default)]
pub(crate) struct Place {
    pub(crate) end: u64,
    pub(crate) index: usize,
}

/// The places of such descriptors by their offsets. Contracts see them as a list, in the order of the offsets.
///
/// Descriptors are mostly read in this order, or nearly so, and then they stand in a list. Where one has to go far
/// before its end, all of them move to a map.
#[derive(Drop)]
pub(crate) struct Places {
    listed: SmallVec<(u64, Place), 8>,
    mapped: BTreeMap<u64, Place>,
}

impl Model for Places {
    ghost use Rattle.std.specs.Prelude.{◌++◌, List};
    ghost use Rattle.decl_reader.specs.Places.{PlaceEntry, IsOneOf};

    ghost Value = { List PlaceEntry };

    ghost view = { λ p. p.listed.items ++ p.mapped.entries };

    ghost invariant = { λ p. IsOneOf p.listed.items p.mapped.entries };
}

impl Places {
    /// No descriptor is there. It takes no memory.
    pub(crate) fn new(alloc: Global) -> Places
        ensures { result ≡ [] }
    {
        Places {
            listed: SmallVec::new(alloc),
            mapped: BTreeMap::new(alloc),
        }
    }

    /// The place of the descriptor that starts at the offset.
    pub(crate) fn at(&self, offset: u64) -> Option<Place>
        ensures place { result ≡ place_at self.now offset }
        ensures found { (types : ℕ → Tree)
            → option_map (placed_as types) result ≡ at (placed_of types self.now) offset }
        ensures inside { (size : ℕ) → AllPlaced size self.now → IfSome result (λ place. place.index < size) }
    {
        place_of(self.listed.as_slice(), &self.mapped, offset)
    }

    /// Adds the place of a descriptor that starts at the offset.
    pub(crate) fn insert(&mut self, offset: u64, place: Place) -> Result<(), AllocError>
        ensures added { OnOk result (self.new ≡ with_place self.old offset place) }
        ensures refused { OnErr result (self.new ≡ self.old) }
    {
        add(&mut self.listed, &mut self.mapped, offset, place)
    }

    /// The first byte from the offset on that one of the descriptors has, or else the limit. It takes two look-ups.
    pub(crate) fn free_to(&self, offset: u64, limit: u64) -> u64
        ensures { (types : ℕ → Tree) → IsStacked (placed_of types self.now)
            → result ≡ free_to offset limit (placed_of types self.now) }
    {
        free_of(self.listed.as_slice(), &self.mapped, offset, limit)
    }
}

/// The place of the descriptor that starts at the offset.
fn place_of(listed: &[(u64, Place)], mapped: &BTreeMap<u64, Place>, offset: u64) -> Option<Place>
    requires one { IsOneOf listed.now mapped.now.entries }
    ensures { result ≡ place_at (listed.now ++ mapped.now.entries) offset }
{
    if mapped.is_empty() {
        place_in(listed, offset)
    } else {
        mapped.get(&offset).copied()
    }
}

/// The first byte from the offset on that one of the descriptors has, or else the limit.
fn free_of(listed: &[(u64, Place)], mapped: &BTreeMap<u64, Place>, offset: u64, limit: u64) -> u64
    requires one { IsOneOf listed.now mapped.now.entries }
    ensures { (types : ℕ → Tree) → IsStacked (placed_of types (listed.now ++ mapped.now.entries))
        → result ≡ free_to offset limit (placed_of types (listed.now ++ mapped.now.entries)) }
{
    if mapped.is_empty() {
        free_in(listed, offset, limit)
    } else {
        free_from(mapped, offset, limit)
    }
}

/// Adds the place of a descriptor. Where memory is wanting, all stays as it was.
fn add(
    listed: &mut SmallVec<(u64, Place), 8>,
    mapped: &mut BTreeMap<u64, Place>,
    offset: u64,
    place: Place,
) -> Result<(), AllocError>
    requires one { IsOneOf listed.old.items mapped.old.entries }
    ensures one { IsOneOf listed.new.items mapped.new.entries }
    ensures added { OnOk result (listed.new.items ++ mapped.new.entries
        ≡ with_place (listed.old.items ++ mapped.old.entries) offset place) }
    ensures refused { OnErr result (listed.new.items ++ mapped.new.entries
        ≡ listed.old.items ++ mapped.old.entries) }
{
    if !mapped.is_empty() {
        mapped.insert(offset, place)?;
        return Ok(());
    }
    match slot(listed.as_slice(), offset) {
        Some(index) => put(listed, index, (offset, place)),
        None => move_all(listed, mapped, offset, place),
    }
}

/// All places of the list, and one more, move to the map. Where memory is wanting, all stays as it was.
fn move_all(
    listed: &mut SmallVec<(u64, Place), 8>,
    mapped: &mut BTreeMap<u64, Place>,
    offset: u64,
    place: Place,
) -> Result<(), AllocError>
    requires order { AreInOrder listed.old.items }
    requires none { mapped.old.entries ≡ [] }
    ensures emptied { OnOk result (listed.new.items ≡ []) }
    ensures added { OnOk result (mapped.new.entries ≡ with_place listed.old.items offset place) }
    ensures same { OnErr result (listed.new.items ≡ listed.old.items) }
    ensures none { OnErr result (mapped.new.entries ≡ []) }
{
    match map_all(listed.as_slice(), mapped, offset, place) {
        Ok(()) => {
            listed.clear();
            Ok(())
        }
        Err(error) => {
            mapped.clear();
            Err(error)
        }
    }
}

/// All places of the list, and one more, are put into a map.
fn map_all(
    listed: &[(u64, Place)],
    mapped: &mut BTreeMap<u64, Place>,
    offset: u64,
    place: Place,
) -> Result<(), AllocError>
    requires order { AreInOrder listed.now }
    requires none { mapped.old.entries ≡ [] }
    ensures { OnOk result (mapped.new.entries ≡ with_place listed.now offset place) }
{
    for (start, there) in listed {
        mapped.insert(*start, *there)?;
    }
    mapped.insert(offset, place)?;
    Ok(())
}

fn free_from(blocks: &BTreeMap<u64, Place>, offset: u64, limit: u64) -> u64
    ensures { (types : ℕ → Tree) → IsStacked (placed_of types blocks.now.entries)
        → result ≡ free_to offset limit (placed_of types blocks.now.entries) }
{
    if covers(blocks, offset) {
        return offset;
    }
    match next_start(blocks, offset) {
        Some(start) if start < limit => start,
        _ => limit,
    }
}

/// Whether one of the descriptors has the byte at the offset.
fn covers(blocks: &BTreeMap<u64, Place>, offset: u64) -> bool
    ensures { Covers result offset (up_to offset blocks.now.entries) }
{
    match blocks.range(..=offset).next_back() {
        Some((_, before)) => before.end > offset,
        None => false,
    }
}

/// The first start of one of the descriptors from the offset on.
fn next_start(blocks: &BTreeMap<u64, Place>, offset: u64) -> Option<u64>
    ensures { StartsFirst result (from offset blocks.now.entries) }
{
    let (start, _) = blocks.range(offset..).next()?;
    Some(*start)
}
