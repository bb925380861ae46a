//! The packages of an index.

ghost use Rattle.std.specs.Prelude.{◌≡◌, ◌≤◌, ◌<◌, ◌+◌, length, Some, IfOk, OnOk, map};
ghost use Rattle.std.specs.Option.{option_copied};
ghost use Rattle.std.specs.List.{AllByRecursion};
ghost use Rattle.wire_bytes.specs.Reading.{GivesBy};
ghost use Rattle.name_index.specs.FirstBreach.{path_rule, package_at, packages_at, index_at};
ghost use Rattle.name_index.specs.Records.{IsPackageInside, IsNumbered, name_count, package_of, fault_of};
ghost use Rattle.name_index.specs.declared.limits.TheConstants.{FILE_LIMIT};

use crate::full::entries::{read_entries, read_text};
use crate::records::PackageRecord;
use std::alloc::Global;
use std::cmp::Ordering;
use wire_bytes::{ByteFault, Cursor, ReadFault};

/// The first path of an index is empty. A later one is above the one before it, and isn't the file's own.
fn check_path(
    own: &[u8],
    last: Option<&[u8]>,
    at: u64,
    offset: u64,
    path: &[u8],
) -> Result<(), ByteFault>
    ensures { GivesBy (λ f. Some f) (λ _. tt) result (path_rule own.now (option_copied last.entry) at offset path.now) }
{
    let range = ByteFault::Range { at, value: offset };
    match last {
        None if path.is_empty() => Ok(()),
        None => Err(range),
        Some(last) if last.cmp(path) != Ordering::Less => Err(ByteFault::Order { at }),
        Some(_) if path == own => Err(range),
        Some(_) => Ok(()),
    }
}

/// A package, before which the index lists `first` names.
#[tactic(auto, unfolding(crate::specs::FirstBreach::package_at))]
fn read_package(
    alloc: Global,
    cursor: &mut Cursor<'_>,
    own: &[u8],
    strings: &[u8],
    size: u32,
    first: u32,
    last: Option<&[u8]>,
) -> Result<PackageRecord, ReadFault>
    requires { length strings.now ≤ FILE_LIMIT }
    ensures inside { IfOk result (λ p. IsPackageInside strings.now p) }
    ensures first { IfOk result (λ p. p.first ≡ first) }
    ensures progress { IfOk result (λ p. length p.entries.items + length cursor.new.left < length cursor.old.left) }
    ensures exact { GivesBy fault_of (λ p. (package_of strings.now p, cursor.new)) result
        (package_at own.now strings.now size (option_copied last.entry) cursor.old) }
{
    let at = cursor.place() as u64;
    let (offset, path) = read_text(cursor, strings)?;
    let text = &strings[path.start as usize..path.end as usize];
    check_path(own, last, at, offset, text)?;
    let (_, name) = read_text(cursor, strings)?;
    let _height = cursor.uvarint()?;
    let count = cursor.uvarint()?;
    let entries = read_entries(alloc, cursor, strings, size, count)?;
    Ok(PackageRecord {
        path,
        name,
        first,
        entries,
    })
}

/// That many packages, in rising order of path.
fn read_packages(
    alloc: Global,
    cursor: &mut Cursor<'_>,
    own: &[u8],
    strings: &[u8],
    size: u32,
    count: u64,
) -> Result<Vec<PackageRecord>, ReadFault>
    requires strings { length strings.now ≤ FILE_LIMIT }
    requires left { length cursor.old.left ≤ FILE_LIMIT }
    ensures inside { IfOk result (λ v. AllByRecursion (λ p. IsPackageInside strings.now p) v.items) }
    ensures numbered { IfOk result (λ v. IsNumbered 0 v.items) }
    ensures few { IfOk result (λ v. length v.items ≤ length cursor.old.left) }
    ensures few_names { IfOk result (λ v. name_count v.items ≤ length cursor.old.left) }
    ensures exact { GivesBy fault_of (λ v. (map (package_of strings.now) v.items, cursor.new)) result
        (packages_at own.now strings.now size count cursor.old) }
{
    let mut packages = Vec::new(alloc);
    let mut first: u32 = 0;
    let mut last: Option<&[u8]> = None;
    for _ in 0..count {
        let package = read_package(alloc, cursor, own, strings, size, first, last)?;
        last = Some(&strings[package.path.start as usize..package.path.end as usize]);
        first += package.entries.as_slice().len() as u32;
        packages.push(package)?;
    }
    Ok(packages)
}

/// The count of the packages, of which there is at least one, and the packages.
#[tactic(auto, unfolding(crate::specs::FirstBreach::index_at))]
pub(crate) fn read_index(
    alloc: Global,
    cursor: &mut Cursor<'_>,
    own: &[u8],
    strings: &[u8],
    size: u32,
) -> Result<Vec<PackageRecord>, ReadFault>
    requires strings { length strings.now ≤ FILE_LIMIT }
    requires left { length cursor.old.left ≤ FILE_LIMIT }
    ensures inside { IfOk result (λ v. AllByRecursion (λ p. IsPackageInside strings.now p) v.items) }
    ensures numbered { IfOk result (λ v. IsNumbered 0 v.items) }
    ensures few { IfOk result (λ v. length v.items ≤ length cursor.old.left) }
    ensures few_names { IfOk result (λ v. name_count v.items ≤ length cursor.old.left) }
    ensures exact { GivesBy fault_of (λ v. (map (package_of strings.now) v.items, cursor.new)) result
        (index_at own.now strings.now size cursor.old) }
{
    let at = cursor.place() as u64;
    let count = cursor.uvarint()?;
    if count == 0 {
        return Err(ReadFault::Bytes(ByteFault::Range { at, value: 0 }));
    }
    read_packages(alloc, cursor, own, strings, size, count)
}
