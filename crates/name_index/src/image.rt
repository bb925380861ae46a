//! An open full file.

ghost use Rattle.std.specs.Prelude.{◌≡◌, ◌<◌, ◌≤◌, ℕ, length, vec_len, option_map, slice_get, IfOk, IfErr, IfSome};
ghost use Rattle.std.specs.Prelude.{IfNone};
ghost use Rattle.wire_bytes.specs.Reading.{GivesBy};
ghost use Rattle.name_index.specs.FullFile.{FullFile, content, listed};
ghost use Rattle.name_index.specs.Envelope.{Envelope};
ghost use Rattle.name_index.specs.FirstBreach.{FirstBreach, full_file_of};
ghost use Rattle.name_index.specs.Lookup.{heading_at, names_at, name_at, as_listed, IsListed};
ghost use Rattle.name_index.specs.Records.{fault_of};
ghost use Rattle.file_parts.specs.FileParts.{IsOfFile};
ghost use Rattle.name_index.specs.Opening.{Opens, NamesBreach, ArePartsOf};
ghost use Rattle.name_index.specs.declared.limits.TheConstants.{FILE_LIMIT};

use crate::full::read_layout;
use crate::lookup::{ListedRecord, count_names, entry, heading, look_up, name, names};
use crate::records::{Layout, section_bytes};
use file_parts::{FileForm, Parts};
use std::alloc::Global;
use std::marker::Model;
use wire_bytes::ReadFault;

/// A full file and its index. Contracts see the file's parts. It holds the bytes of the file once; names and paths are
/// lent from them. An index of n names and p packages takes 12 bytes a name and 56 a package besides.
#[derive(Debug, Drop)]
pub struct Image {
    bytes: Vec<u8>,
    own: Vec<u8>,
    layout: Layout,
}

impl Model for Image {
    ghost use Rattle.name_index.specs.FullFile.{FullFile};
    ghost use Rattle.name_index.specs.Records.{file_of, IsOpen};

    ghost Value = { FullFile };

    ghost view = { λ i. file_of i.own.items i.bytes.items i.layout };

    ghost invariant = { λ i. IsOpen i.own.items i.bytes.items i.layout };
}

/// Opens a full file of the package path `path`, of format version 1 or 2. It goes over the index once, looks at no
/// byte of the data section, and keeps the bytes.
pub fn read_full_file(alloc: Global, bytes: Vec<u8>, path: &[u8]) -> Result<Image, ReadFault>
    requires { length bytes.items ≤ FILE_LIMIT }
    // The image is what stands in the bytes.
    ensures found { IfOk result (λ image. Envelope path.now bytes.items image) }
    // What stands in the bytes is found, unless memory runs out.
    ensures only { (file : FullFile) → Envelope path.now bytes.items file → Opens result file }
    // Which fault it is.
    ensures fault { IfErr result (NamesBreach path.now bytes.items) }
{
    let layout = read_layout(alloc, bytes.as_slice(), path)?;
    let own = Vec::from_slice(alloc, path)?;
    Ok(Image { bytes, own, layout })
}

impl Image {
    /// The parts of the file, for readers of positions and declarations. They are lent, and no memory is taken.
    pub fn parts(&self) -> Parts<'_>
        ensures exact { ArePartsOf self.now result }
        // what readers ask for
        ensures of_file { IsOfFile result }
        ensures short { length result.file.now ≤ FILE_LIMIT }
    {
        Parts {
            file: self.bytes.as_slice(),
            strings_at: u64::from(self.layout.strings.at),
            strings_len: u64::from(self.layout.strings.len),
            body_at: u64::from(self.layout.body.at),
            body_len: u64::from(self.layout.body.len),
            version: self.layout.version,
            form: FileForm::Full,
            own: self.own.as_slice(),
            paths: self.layout.paths.as_slice(),
        }
    }

    /// How many packages the index has.
    pub fn package_count(&self) -> u32
        ensures { result ≡ length self.now.packages }
    {
        self.layout.packages.as_slice().len() as u32
    }

    /// The path and the name of package `k` of the index, the file's own first.
    pub fn package(&self, k: u32) -> Option<(&[u8], &[u8])>
        ensures { option_map (λ x. (x.0.now, x.1.now)) result ≡ heading_at self.now.packages k }
    {
        heading(
            self.strings(),
            self.own.as_slice(),
            self.layout.packages.as_slice(),
            k,
        )
    }

    /// How many names package `k` lists; 0 where the index has no such package.
    pub fn names_in(&self, k: u32) -> u32
        ensures { result ≡ names_at self.now.packages k }
    {
        names(self.layout.packages.as_slice(), k)
    }

    /// How many names all packages of the index list.
    pub fn name_count(&self) -> u32
        ensures { result ≡ length (listed self.now.packages) }
    {
        count_names(self.layout.packages.as_slice())
    }

    /// Name `i` of package `k`, and where its declaration stands in the data section.
    pub fn name_in(&self, k: u32, i: u32) -> Option<(&[u8], u64)>
        ensures exact { option_map (λ x. (x.0.now, x.1)) result ≡ name_at self.now.packages k i }
        ensures inside { IfSome result (λ x. x.1 < self.now.body.len) }
    {
        name(self.strings(), self.layout.packages.as_slice(), k, i)
    }

    /// Name `k` of the index, counted over all packages: its package's path, the name, and where its declaration stands
    /// in the data section. The package is found by halves.
    pub fn entry(&self, k: u32) -> Option<(&[u8], &[u8], u64)>
        ensures exact { option_map (λ x. as_listed x.0.now x.1.now x.2) result
            ≡ slice_get (listed self.now.packages) k }
        ensures inside { IfSome result (λ x. x.2 < self.now.body.len) }
    {
        entry(
            self.strings(),
            self.own.as_slice(),
            self.layout.packages.as_slice(),
            k,
        )
    }

    /// The number of a name, as `entry` counts, by the path of its package. Path and name are found by halves.
    pub fn entry_of(&self, path: &[u8], name: &[u8]) -> Option<u32>
        ensures found { IfSome result (λ k. (offset : ℕ) × IsListed self.now.packages k path.now name.now offset) }
        ensures none { IfNone result ((k offset : ℕ) → IsListed self.now.packages k path.now name.now offset → ⊥) }
    {
        Some(self.look_up(path, name)?.number)
    }

    /// Where a name's declaration stands in the data section, by the path of its package. Path and name are found by
    /// halves.
    pub fn offset_of(&self, path: &[u8], name: &[u8]) -> Option<u64>
        ensures found { IfSome result (λ offset. (k : ℕ) × IsListed self.now.packages k path.now name.now offset) }
        ensures inside { IfSome result (λ offset. offset < self.now.body.len) }
        ensures none { IfNone result ((k offset : ℕ) → IsListed self.now.packages k path.now name.now offset → ⊥) }
    {
        Some(u64::from(self.look_up(path, name)?.offset))
    }

    fn look_up(&self, path: &[u8], name: &[u8]) -> Option<ListedRecord>
        ensures found { IfSome result (λ x. IsListed self.now.packages x.number path.now name.now x.offset) }
        ensures inside { IfSome result (λ x. x.offset < self.now.body.len) }
        ensures none { IfNone result ((k offset : ℕ) → IsListed self.now.packages k path.now name.now offset → ⊥) }
    {
        look_up(
            self.strings(),
            self.own.as_slice(),
            self.layout.packages.as_slice(),
            path,
            name,
        )
    }

    fn strings(&self) -> &[u8]
        ensures { result.now ≡ content self.now.bytes self.now.strings }
    {
        section_bytes(self.bytes.as_slice(), self.layout.strings)
    }
}
