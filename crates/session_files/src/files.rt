//! The open files of a session.

ghost use Rattle.std.specs.Prelude.{◌≡◌, ◌<◌, ◌≤◌, ◌^◌, length, IfSome, IfNone};
ghost use Rattle.session_files.specs.Sessions.{AreSound, IsUnknown, all_listed};
ghost use Rattle.session_files.specs.Index.{IsIndex};
ghost use Rattle.session_files.specs.OpenSessions.{all_opened, IsPlace};
ghost use Rattle.session_files.specs.declared.limits.TheConstants.{MOST_FILES};

use crate::index::find_in;
use name_index::Image;

/// An open file, and the text by which messages name it.
#[derive(Debug, Drop)]
pub struct SessionFile {
    pub label: String,
    pub image: Image,
}

/// Where a name is listed: the numbers of its file and in the file's index, the file, and where its declaration stands
/// in the data section.
#[derive(Clone, Copy)]
pub struct Place<'a> {
    pub file: u32,
    pub number: u32,
    pub image: &'a Image,
    pub offset: u64,
}

/// Where the first file that lists the name has it.
pub fn place_in<'a>(
    files: &'a [SessionFile],
    index: &[(u32, u32)],
    path: &[u8],
    name: &[u8],
) -> Option<Place<'a>>
    requires sound { AreSound (all_opened files.now) }
    requires indexed { IsIndex (all_opened files.now) index.now }
    ensures found { IfSome result (IsPlace (all_opened files.now) path.now name.now) }
    ensures none { IfNone result (IsUnknown (all_opened files.now) path.now name.now) }
{
    let (file, number) = find_in(files, index, path, name)?;
    let image = &files[file as usize].image;
    let Some((_, _, offset)) = image.entry(number) else {
        unreachable!();
    };
    Some(Place {
        file,
        number,
        image,
        offset,
    })
}

/// How many names the files list together.
pub fn count_listed(files: &[SessionFile]) -> u64
    requires few { length files.now ≤ MOST_FILES }
    ensures count { result ≡ length (all_listed (all_opened files.now)) }
    ensures bound { result < 2 ^ 62 }
{
    let mut count = 0;
    for opened in files {
        count += u64::from(opened.image.name_count());
    }
    count
}
