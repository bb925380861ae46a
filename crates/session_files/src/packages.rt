//! The packages of a session, and an index over their paths.

ghost use Rattle.std.specs.Prelude.{◌≡◌, ◌++◌, ◌<◌, ◌≤◌, length, map, option_map, slice_get};
ghost use Rattle.std.specs.Prelude.{Some, None, IfOk, IfSome, IfNone};
ghost use Rattle.std.specs.Cmp.Lexicographic.{slice_cmp};
ghost use Rattle.std.specs.Ordering.{nat_cmp};
ghost use Rattle.session_files.specs.OpenSessions.{all_opened, key_of};
ghost use Rattle.session_files.specs.Answers.{packages};
ghost use Rattle.session_files.specs.Index.{keys_in, keys_from};
ghost use Rattle.session_files.specs.PathIndex.{IsPathIndex, package_at, package_name_at, path_at, bare, paths_of};
ghost use Rattle.session_files.specs.declared.limits.TheConstants.{MOST_FILES};

use crate::files::SessionFile;
use crate::index::{NameKey, first_places};
use name_index::Image;
use std::alloc::{AllocError, Global};
use std::cmp::Ordering;

/// Where each path is listed first, in the order of the paths: the numbers of its file and in the file's index.
pub fn path_index_of(alloc: Global, files: &[SessionFile]) -> Result<Vec<(u32, u32)>, AllocError>
    requires { length files.now ≤ MOST_FILES }
    ensures { IfOk result (λ paths. IsPathIndex (all_opened files.now) paths.items) }
{
    let mut keys = all_paths(alloc, files)?;
    keys.sort()?;
    first_places(alloc, &keys)
}

/// A key for each package that a file lists.
fn all_paths(alloc: Global, files: &[SessionFile]) -> Result<Vec<NameKey<'_>>, AllocError>
    requires { length files.now ≤ MOST_FILES }
    ensures { IfOk result (λ keys. map key_of keys.items ≡ keys_from paths_of 0 (all_opened files.now)) }
{
    let mut keys = Vec::new(alloc);
    for (file, opened) in files.iter().enumerate() {
        put_paths(&mut keys, &opened.image, file as u32)?;
    }
    Ok(keys)
}

fn put_paths<'a>(keys: &mut Vec<NameKey<'a>>, image: &'a Image, file: u32) -> Result<(), AllocError>
    ensures { IfOk result (λ _. map key_of keys.new.items
        ≡ map key_of keys.old.items ++ keys_in file 0 (map bare image.now.packages)) }
{
    for number in 0..image.package_count() {
        let Some((path, _)) = image.package(number) else {
            unreachable!();
        };
        keys.push(NameKey {
            path,
            name: &[],
            file,
            number,
        })?;
    }
    Ok(())
}

/// The name of the package with the path, by the first file whose index lists it.
pub fn package_in<'a>(
    files: &'a [SessionFile],
    paths: &[(u32, u32)],
    path: &[u8],
) -> Option<&'a [u8]>
    requires { IsPathIndex (all_opened files.now) paths.now }
    ensures { option_map (λ name. name.now) result ≡ packages (all_opened files.now) path.now }
{
    let place = path_position(files, paths, path)?;
    package_name_at(files, paths[place])
}

/// Where in the index the path stands.
fn path_position(files: &[SessionFile], paths: &[(u32, u32)], path: &[u8]) -> Option<usize>
    requires { IsPathIndex (all_opened files.now) paths.now }
    ensures inside { IfSome result (λ place. place < length paths.now) }
    ensures found { IfSome result
        (λ place. slice_get (map (path_at (all_opened files.now)) paths.now) place ≡ Some path.now) }
    ensures none { IfNone result (packages (all_opened files.now) path.now ≡ None) }
{
    let found = paths.binary_search_by(
        |at: &(u32, u32)| -> Ordering
            ensures { result ≡ slice_cmp nat_cmp (path_at (all_opened files.entry.now) at.now) path.entry.now }
        { path_at(files, *at).cmp(path) },
    );
    match found {
        Ok(place) => Some(place),
        Err(_) => None,
    }
}

/// The path of the package that is listed there, an empty one where none is.
fn path_at(files: &[SessionFile], at: (u32, u32)) -> &[u8]
    ensures { result.now ≡ path_at (all_opened files.now) at }
{
    match package_at(files, at) {
        Some((path, _)) => path,
        None => &[],
    }
}

fn package_name_at(files: &[SessionFile], at: (u32, u32)) -> Option<&[u8]>
    ensures { option_map (λ name. name.now) result ≡ package_name_at (all_opened files.now) at }
{
    let (_, name) = package_at(files, at)?;
    Some(name)
}

/// The path and the name of the package that is listed there.
fn package_at(files: &[SessionFile], at: (u32, u32)) -> Option<(&[u8], &[u8])>
    ensures { option_map (λ x. (x.0.now, x.1.now)) result ≡ package_at (all_opened files.now) at }
{
    files.get(at.0 as usize)?.image.package(at.1)
}
