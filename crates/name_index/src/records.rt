//! The index of an open file: small numbers, by which texts of its string section are found again.

ghost use Rattle.std.specs.Prelude.{◌≡◌, ◌≤◌, ◌+◌, length, map, IfOk};
ghost use Rattle.name_index.specs.FullFile.{content};
ghost use Rattle.name_index.specs.Records.{section_of};

use file_parts::{TextSpan, Titled};
use std::alloc::{AllocError, Global};

/// A name, and where its declaration starts in the data section.
#[derive(Clone, Copy, Debug)]
pub(crate) struct EntryRecord {
    pub(crate) name: TextSpan,
    pub(crate) offset: u32,
}

/// A package. `first` is the number of names that the packages before it list.
#[derive(Debug, Drop)]
pub(crate) struct PackageRecord {
    pub(crate) path: TextSpan,
    pub(crate) name: TextSpan,
    pub(crate) first: u32,
    pub(crate) entries: Vec<EntryRecord>,
}

/// Where a section of a file starts, and how many bytes it has.
#[derive(Clone, Copy, Debug)]
pub(crate) struct SectionRecord {
    pub(crate) at: u32,
    pub(crate) len: u32,
}

/// What was found in a file.
#[derive(Debug, Drop)]
pub(crate) struct Layout {
    pub(crate) version: u8,
    pub(crate) strings: SectionRecord,
    pub(crate) body: SectionRecord,
    pub(crate) packages: Vec<PackageRecord>,
    /// The paths of the packages, for readers of declarations.
    pub(crate) paths: Vec<TextSpan>,
}

impl Titled for EntryRecord {
    ghost title = { λ e. e.name };

    fn title(&self) -> TextSpan {
        self.name
    }
}

impl Titled for PackageRecord {
    ghost title = { λ p. p.path };

    fn title(&self) -> TextSpan {
        self.path
    }
}

/// Where the paths of packages stand.
pub(crate) fn path_spans(
    alloc: Global,
    packages: &[PackageRecord],
) -> Result<Vec<TextSpan>, AllocError>
    ensures { IfOk result (λ v. v.items ≡ map (λ p. p.path) packages.now) }
{
    packages.iter().map(|package| package.path).collect(alloc)
}

/// The bytes of a section.
pub(crate) fn section_bytes(bytes: &[u8], section: SectionRecord) -> &[u8]
    requires { section.at + section.len ≤ length bytes.now }
    ensures { result.now ≡ content bytes.now (section_of section) }
{
    let start = section.at as usize;
    &bytes[start..start + section.len as usize]
}
