//! An index over the names of all files.

ghost use Rattle.std.specs.Prelude.{◌≡◌, ◌++◌, ◌<◌, ◌≤◌, length, map, option_map, slice_get};
ghost use Rattle.std.specs.Prelude.{Some, None, IfOk, IfSome, IfNone};
ghost use Rattle.name_index.specs.FullFile.{listed};
ghost use Rattle.session_files.specs.OpenSessions.{all_opened, key_of, last_name};
ghost use Rattle.session_files.specs.Sessions.{IsUnknown, Stands, qualified};
ghost use Rattle.session_files.specs.Index.{as_qname, name_cmp, listed_at, names_of, qname_at};
ghost use Rattle.session_files.specs.Index.{IsIndex, keys_in, keys_from, is_same, firsts_after, spot_of};
ghost use Rattle.session_files.specs.declared.limits.TheConstants.{MOST_FILES};

use crate::files::SessionFile;
use name_index::Image;
use std::alloc::{AllocError, Global};
use std::cmp::Ordering;

/// A name, and a place where it is listed: the numbers of its file and in the file's index. The path of a package is a
/// key with an empty name.
#[derive(Debug, Drop, Clone, Copy, PartialEq, Eq, PartialOrd, Ord)]
pub struct NameKey<'a> {
    pub path: &'a [u8],
    pub name: &'a [u8],
    pub file: u32,
    pub number: u32,
}

/// Where each name is listed first, in the order of paths and names: the numbers of its file and in the file's index.
pub fn index_of(alloc: Global, files: &[SessionFile]) -> Result<Vec<(u32, u32)>, AllocError>
    requires { length files.now ≤ MOST_FILES }
    ensures { IfOk result (λ index. IsIndex (all_opened files.now) index.items) }
{
    let mut keys = all_keys(alloc, files)?;
    keys.sort()?;
    first_places(alloc, &keys)
}

/// A key for each name that a file lists.
fn all_keys(alloc: Global, files: &[SessionFile]) -> Result<Vec<NameKey<'_>>, AllocError>
    requires { length files.now ≤ MOST_FILES }
    ensures { IfOk result (λ keys. map key_of keys.items ≡ keys_from names_of 0 (all_opened files.now)) }
{
    let mut keys = Vec::new(alloc);
    for (file, opened) in files.iter().enumerate() {
        put_keys(&mut keys, &opened.image, file as u32)?;
    }
    Ok(keys)
}

fn put_keys<'a>(keys: &mut Vec<NameKey<'a>>, image: &'a Image, file: u32) -> Result<(), AllocError>
    ensures { IfOk result (λ _. map key_of keys.new.items
        ≡ map key_of keys.old.items ++ keys_in file 0 (listed image.now.packages)) }
{
    for number in 0..image.name_count() {
        let Some((path, name, _)) = image.entry(number) else {
            unreachable!();
        };
        keys.push(NameKey {
            path,
            name,
            file,
            number,
        })?;
    }
    Ok(())
}

/// Where the first key of each name has it, among keys that are in order.
pub fn first_places(alloc: Global, keys: &[NameKey<'_>]) -> Result<Vec<(u32, u32)>, AllocError>
    ensures { IfOk result (λ places. places.items ≡ map spot_of (firsts_after None (map key_of keys.now))) }
{
    let mut places = Vec::new(alloc);
    let mut last = None;
    for key in keys {
        if !is_again(last, key) {
            places.push((key.file, key.number))?;
        }
        last = Some(*key);
    }
    Ok(places)
}

/// Whether the key before this one has the same name.
fn is_again(last: Option<NameKey<'_>>, key: &NameKey<'_>) -> bool
    ensures { result ≡ is_same (last_name last.entry) (key_of key.now).qname }
{
    match last {
        Some(before) => before.path == key.path && before.name == key.name,
        None => false,
    }
}

/// Where the index has the name, which is found by halves: the numbers of its file and in the file's index.
pub fn find_in(
    files: &[SessionFile],
    index: &[(u32, u32)],
    path: &[u8],
    name: &[u8],
) -> Option<(u32, u32)>
    requires { IsIndex (all_opened files.now) index.now }
    ensures found { IfSome result (λ at. Stands (all_opened files.now) path.now name.now at.0 at.1) }
    ensures none { IfNone result (IsUnknown (all_opened files.now) path.now name.now) }
{
    let place = position_in(files, index, path, name)?;
    Some(index[place])
}

/// Where in the index the name stands.
pub fn position_in(
    files: &[SessionFile],
    index: &[(u32, u32)],
    path: &[u8],
    name: &[u8],
) -> Option<usize>
    requires { IsIndex (all_opened files.now) index.now }
    ensures inside { IfSome result (λ place. place < length index.now) }
    ensures found { IfSome result (λ place.
        slice_get (map (qname_at (all_opened files.now)) index.now) place ≡ Some (as_qname path.now name.now)) }
    ensures none { IfNone result (IsUnknown (all_opened files.now) path.now name.now) }
{
    let found = index.binary_search_by(
        |at: &(u32, u32)| -> Ordering
            ensures { result
                ≡ name_cmp (qname_at (all_opened files.entry.now) at.now) (as_qname path.entry.now name.entry.now) }
        { compare_at(files, *at, path, name) },
    );
    match found {
        Ok(place) => Some(place),
        Err(_) => None,
    }
}

/// How the name that is listed there stands to another.
fn compare_at(files: &[SessionFile], at: (u32, u32), path: &[u8], name: &[u8]) -> Ordering
    ensures { result ≡ name_cmp (qname_at (all_opened files.now) at) (as_qname path.now name.now) }
{
    let (listed_path, listed_name) = name_at(files, at);
    listed_path.cmp(path).then(listed_name.cmp(name))
}

/// The path and the name that are listed there, empty ones where none are.
pub fn name_at(files: &[SessionFile], at: (u32, u32)) -> (&[u8], &[u8])
    ensures { as_qname result.0.now result.1.now ≡ qname_at (all_opened files.now) at }
{
    listed_at(files, at).unwrap_or((&[], &[]))
}

fn listed_at(files: &[SessionFile], at: (u32, u32)) -> Option<(&[u8], &[u8])>
    ensures { option_map (λ x. as_qname x.0.now x.1.now) result
        ≡ option_map qualified (listed_at (all_opened files.now) at) }
{
    let (path, name, _) = files.get(at.0 as usize)?.image.entry(at.1)?;
    Some((path, name))
}
