//! Places in a list, in the order of the offsets.

ghost use Rattle.std.specs.Prelude.{◌≡◌, ◌≤◌, ◌<◌, ℕ, true, length, take, drop, insert, IfSome, IfOk, OnOk, OnErr, nat_le};
ghost use Rattle.std.specs.List.{AllByRecursion};
ghost use Rattle.type_terms.specs.Trees.{Tree};
ghost use Rattle.decl_spelling.specs.Tables.{free_to};
ghost use Rattle.decl_reader.specs.Places.{place_at, placed_of, IsStacked, AreInOrder, IsDivided, IsSlot, Covers, StartsFirst};

use crate::places::Place;
use smallvec::SmallVec;
use std::alloc::AllocError;

/// How many places of a list may move up for one more.
const FEW: usize = 128;

/// The place of the descriptor that starts at the offset.
pub(crate) fn place_in(listed: &[(u64, Place)], offset: u64) -> Option<Place>
    requires order { AreInOrder listed.now }
    ensures { result ≡ place_at listed.now offset }
{
    let begun = count_begun(listed, offset);
    if begun == 0 {
        return None;
    }
    let (start, place) = listed[begun - 1];
    if start == offset { Some(place) } else { None }
}

/// The first byte from the offset on that one of the descriptors has, or else the limit.
pub(crate) fn free_in(listed: &[(u64, Place)], offset: u64, limit: u64) -> u64
    requires order { AreInOrder listed.now }
    ensures { (types : ℕ → Tree) → IsStacked (placed_of types listed.now)
        → result ≡ free_to offset limit (placed_of types listed.now) }
{
    let begun = count_begun(listed, offset);
    if covers(listed, begun, offset) {
        return offset;
    }
    match next_start(listed, begun) {
        Some(start) if start < limit => start,
        _ => limit,
    }
}

/// Where a place goes whose descriptor starts at the offset, if few have to move up for it, and no other starts there.
pub(crate) fn slot(listed: &[(u64, Place)], offset: u64) -> Option<usize>
    requires order { AreInOrder listed.now }
    ensures { IfSome result (IsSlot listed.now offset) }
{
    let begun = count_begun(listed, offset);
    if listed.len() - begun <= FEW && is_new(listed, begun, offset) {
        Some(begun)
    } else {
        None
    }
}

/// Puts a place where it goes in a list. Where memory is wanting, all stays as it was.
pub(crate) fn put(
    listed: &mut SmallVec<(u64, Place), 8>,
    index: usize,
    entry: (u64, Place),
) -> Result<(), AllocError>
    requires within { index ≤ length listed.old.items }
    ensures put { OnOk result (listed.new.items ≡ insert listed.old.items index entry) }
    ensures same { OnErr result (listed.new.items ≡ listed.old.items) }
{
    if index == listed.len() {
        listed.push(entry)?;
    } else {
        listed.insert(index, entry)?;
    }
    Ok(())
}

/// How many of the descriptors start at the offset or before it.
fn count_begun(listed: &[(u64, Place)], offset: u64) -> usize
    requires order { AreInOrder listed.now }
    ensures { IsDivided offset result listed.now }
{
    if all_begun(listed, offset) {
        listed.len()
    } else {
        search(listed, offset)
    }
}

/// Whether all of them do. Most are asked for behind the last one.
fn all_begun(listed: &[(u64, Place)], offset: u64) -> bool
    requires order { AreInOrder listed.now }
    ensures { result ≡ true → AllByRecursion (λ entry. entry.0 ≤ offset) listed.now }
{
    let count = listed.len();
    if count == 0 {
        return true;
    }
    listed[count - 1].0 <= offset
}

/// How many of them do, by halves.
fn search(listed: &[(u64, Place)], offset: u64) -> usize
    requires order { AreInOrder listed.now }
    ensures { IsDivided offset result listed.now }
{
    listed.partition_point(
        |entry: &(u64, Place)| -> bool
            ensures { result ≡ nat_le entry.now.0 offset }
        { entry.0 <= offset },
    )
}

/// Whether the last one of the first so many has the byte at the offset.
fn covers(listed: &[(u64, Place)], begun: usize, offset: u64) -> bool
    requires within { begun ≤ length listed.now }
    ensures { Covers result offset (take begun listed.now) }
{
    if begun == 0 {
        return false;
    }
    listed[begun - 1].1.end > offset
}

/// Where the first one behind the first so many starts.
fn next_start(listed: &[(u64, Place)], begun: usize) -> Option<u64>
    requires within { begun ≤ length listed.now }
    ensures { StartsFirst result (drop begun listed.now) }
{
    if begun == listed.len() {
        return None;
    }
    Some(listed[begun].0)
}

/// Whether the last one of those that start at the offset or before it starts before it.
fn is_new(listed: &[(u64, Place)], begun: usize, offset: u64) -> bool
    requires order { AreInOrder listed.now }
    requires divided { IsDivided offset begun listed.now }
    ensures { result ≡ true → AllByRecursion (λ entry. entry.0 < offset) (take begun listed.now) }
{
    if begun == 0 {
        return true;
    }
    listed[begun - 1].0 < offset
}
