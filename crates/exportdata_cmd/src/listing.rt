ghost use Rattle.std.specs.Prelude.{◌≡◌, ◌<◌, ◌∷◌, [], length, slice_get, map};
ghost use Rattle.name_index.specs.FullFile.{Package};
ghost use Rattle.exportdata_cmd.specs.Printed.{package_line, name_line};
ghost use Rattle.exportdata_cmd.specs.Listing.{entries_at, name_lines, lines_at, lines_of};
ghost use Rattle.exportdata_cmd.specs.Putting.{PutsLines};

use crate::printing::{write_name_line, write_package_line};
use crate::putting::{PutFault, put_line};
use name_index::Image;
use outside::Sink;
use std::alloc::Global;

/// Puts the lines of all packages. The room of one line serves for all.
pub fn put_packages<S: Sink>(alloc: Global, image: &Image, out: &mut S) -> Result<(), PutFault>
    ensures { PutsLines (lines_of image.now.packages) result (S.state out.old) (S.state out.new) }
{
    let mut line = Vec::new(alloc);
    for k in 0..image.package_count() {
        put_package(image, k, &mut line, out)?;
    }
    Ok(())
}

// Puts the lines of the package at this place.
fn put_package<S: Sink>(
    image: &Image,
    k: u32,
    line: &mut Vec<u8>,
    out: &mut S,
) -> Result<(), PutFault>
    requires { k < length image.now.packages }
    ensures { PutsLines (lines_at image.now.packages k) result (S.state out.old) (S.state out.new) }
{
    let Some((path, name)) = image.package(k) else {
        unreachable!();
    };
    put_heading(path, name, line, out)?;
    put_names(image, k, line, out)
}

// Puts the first line of a package.
fn put_heading<S: Sink>(
    path: &[u8],
    name: &[u8],
    line: &mut Vec<u8>,
    out: &mut S,
) -> Result<(), PutFault>
    ensures { PutsLines (package_line path.now name.now ∷ []) result (S.state out.old) (S.state out.new) }
{
    if write_package_line(line, path, name).is_err() {
        return Err(PutFault::OutOfMemory);
    }
    put_line(line.as_slice(), out)
}

// Puts the lines of the names of the package at this place.
fn put_names<S: Sink>(
    image: &Image,
    k: u32,
    line: &mut Vec<u8>,
    out: &mut S,
) -> Result<(), PutFault>
    ensures { PutsLines (name_lines (entries_at image.now.packages k)) result (S.state out.old) (S.state out.new) }
{
    for j in 0..image.names_in(k) {
        let Some((name, offset)) = image.name_in(k, j) else {
            unreachable!();
        };
        put_name(name, offset, line, out)?;
    }
    Ok(())
}

// Puts the line of a name.
fn put_name<S: Sink>(
    name: &[u8],
    offset: u64,
    line: &mut Vec<u8>,
    out: &mut S,
) -> Result<(), PutFault>
    ensures { PutsLines (name_line name.now offset ∷ []) result (S.state out.old) (S.state out.new) }
{
    if write_name_line(line, name, offset).is_err() {
        return Err(PutFault::OutOfMemory);
    }
    put_line(line.as_slice(), out)
}
