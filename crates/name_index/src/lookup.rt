//! Answers from the records of an open file.

ghost use Rattle.std.specs.Prelude.{◌≡◌, ◌<◌, ◌^◌, List, ℕ, Option, Some, option_map, unwrap_or, map, slice_get};
ghost use Rattle.std.specs.Prelude.{length, IfSome, IfNone};
ghost use Rattle.std.specs.List.{AllByRecursion};
ghost use Rattle.name_index.specs.FullFile.{listed};
ghost use Rattle.name_index.specs.Lookup.{heading_at, name_at, as_listed, IsListed};
ghost use Rattle.name_index.specs.Records.{IsPackageInside, IsNumbered, IsHolder, IsSearchable, name_count, package_of};
ghost use Rattle.name_index.specs.Records.{packages_of, paths_of};

use crate::records::PackageRecord;
use file_parts::{find_titled, text_of};

/// The path and the name of package `k`.
pub(crate) fn heading<'a>(
    strings: &'a [u8],
    own: &'a [u8],
    packages: &[PackageRecord],
    k: u32,
) -> Option<(&'a [u8], &'a [u8])>
    requires { AllByRecursion (λ p. IsPackageInside strings.now p) packages.now }
    ensures { option_map (λ x. (x.0.now, x.1.now)) result
        ≡ heading_at (packages_of own.now strings.now packages.now) k }
{
    let k = k as usize;
    if k >= packages.len() {
        return None;
    }
    let package = &packages[k];
    let path = if k == 0 {
        own
    } else {
        text_of(strings, package.path)
    };
    Some((path, text_of(strings, package.name)))
}

/// Name `i` of package `k`, and its offset.
pub(crate) fn name<'a>(
    strings: &'a [u8],
    packages: &[PackageRecord],
    k: u32,
    i: u32,
) -> Option<(&'a [u8], u64)>
    requires { AllByRecursion (λ p. IsPackageInside strings.now p) packages.now }
    ensures { option_map (λ x. (x.0.now, x.1)) result ≡ name_at (map (package_of strings.now) packages.now) k i }
{
    if k as usize >= packages.len() {
        return None;
    }
    let entries = packages[k as usize].entries.as_slice();
    if i as usize >= entries.len() {
        return None;
    }
    let entry = entries[i as usize];
    Some((text_of(strings, entry.name), u64::from(entry.offset)))
}

/// How many names package `k` lists.
pub(crate) fn names(packages: &[PackageRecord], k: u32) -> u32
    requires { name_count packages.now < 2 ^ 32 }
    ensures { result ≡ unwrap_or (option_map (λ p. length p.entries.items) (slice_get packages.now k)) 0 }
{
    match packages.get(k as usize) {
        Some(package) => package.entries.as_slice().len() as u32,
        None => 0,
    }
}

/// How many names all packages list. The last one knows how many are listed before its own.
pub(crate) fn count_names(packages: &[PackageRecord]) -> u32
    requires numbered { IsNumbered 0 packages.now }
    requires few { name_count packages.now < 2 ^ 32 }
    ensures { result ≡ name_count packages.now }
{
    match packages.last() {
        Some(last) => last.first + last.entries.as_slice().len() as u32,
        None => 0,
    }
}

/// The last package before which at most `k` names are listed. It looks at as many packages as their number has bits.
fn holder_of(packages: &[PackageRecord], k: u32) -> Option<usize>
    requires { IsNumbered 0 packages.now }
    ensures found { IfSome result (λ j. IsHolder packages.now k j) }
    ensures none { IfNone result (length packages.now ≡ 0) }
{
    let after = packages.partition_point(|package| package.first <= k);
    if after == 0 { None } else { Some(after - 1) }
}

/// Name `k` of the index: its package's path, the name, and its offset.
pub(crate) fn entry<'a>(
    strings: &'a [u8],
    own: &'a [u8],
    packages: &[PackageRecord],
    k: u32,
) -> Option<(&'a [u8], &'a [u8], u64)>
    requires { IsSearchable own.now strings.now packages.now }
    ensures { option_map (λ x. as_listed x.0.now x.1.now x.2) result
        ≡ slice_get (listed (packages_of own.now strings.now packages.now)) k }
{
    let holder = holder_of(packages, k)?;
    let place = k - packages[holder].first;
    let (path, _) = heading(strings, own, packages, holder as u32)?;
    let (name, offset) = name(strings, packages, holder as u32, place)?;
    Some((path, name, offset))
}

/// Which package has this path.
fn package_of_path(
    strings: &[u8],
    own: &[u8],
    packages: &[PackageRecord],
    path: &[u8],
) -> Option<usize>
    requires { IsSearchable own.now strings.now packages.now }
    ensures within { IfSome result (λ j. j < length packages.now) }
    ensures found { IfSome result (λ j. slice_get (paths_of own.now strings.now packages.now) j ≡ Some path.now) }
    ensures none { IfNone result ((j : ℕ) → slice_get (paths_of own.now strings.now packages.now) j ≡ Some path.now
        → ⊥) }
{
    let (_, others) = packages.split_first()?;
    if path == own {
        return Some(0);
    }
    let place = find_titled(strings, others, path)?;
    Some(place + 1)
}

/// A name's number in the index, and where its declaration stands in the data section.
#[derive(Clone, Copy, Debug)]
pub(crate) struct ListedRecord {
    pub(crate) number: u32,
    pub(crate) offset: u32,
}

/// Where a name of a path is listed.
pub(crate) fn look_up(
    strings: &[u8],
    own: &[u8],
    packages: &[PackageRecord],
    path: &[u8],
    name: &[u8],
) -> Option<ListedRecord>
    requires { IsSearchable own.now strings.now packages.now }
    ensures found { IfSome result (λ x.
        IsListed (packages_of own.now strings.now packages.now) x.number path.now name.now x.offset) }
    ensures none { IfNone result ((k offset : ℕ)
        → IsListed (packages_of own.now strings.now packages.now) k path.now name.now offset → ⊥) }
{
    let holder = package_of_path(strings, own, packages, path)?;
    let package = &packages[holder];
    let entries = package.entries.as_slice();
    let place = find_titled(strings, entries, name)?;
    Some(ListedRecord {
        number: package.first + place as u32,
        offset: entries[place].offset,
    })
}
