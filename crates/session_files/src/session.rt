//! Sessions of files.

ghost use Rattle.std.specs.Prelude.{◌≡◌, ◌≤◌, length, map, option_map, slice_get, IfOk, IfErr, IfSome, IfNone};
ghost use Rattle.session_files.specs.Sessions.{AreSound, IsUnknown, Stands, all_listed, IsNameCount};
ghost use Rattle.session_files.specs.OpenSessions.{all_opened, IsPlace};
ghost use Rattle.session_files.specs.Names.{comes_down};
ghost use Rattle.session_files.specs.declared.limits.TheConstants.{MOST_FILES};
ghost use Rattle.session_files.specs.declared.loading.LoadError.TheVariants.{OutOfMemory};
ghost use Rattle.session_files.specs.Answers.{packages};
ghost use Rattle.session_files.specs.Loading.{word_of, AreTaken, IsRefused, IsCause};

use crate::basics::{all_basics, basic_in};
use crate::files::{Place, SessionFile, count_listed, place_in};
use crate::index::index_of;
use crate::loading::{LoadError, take_all_in};
use crate::packages::{package_in, path_index_of};
use crate::sources::Source;
use code_tables::Basic;
use name_index::Image;
use outside::Files;
use std::alloc::Global;
use std::marker::Model;

/// The files that were taken in. Contracts see them with their labels, in their order.
#[derive(Debug, Drop)]
pub struct Session {
    files: Vec<SessionFile>,
    index: Vec<(u32, u32)>,
    basics: Vec<Option<Basic>>,
    paths: Vec<(u32, u32)>,
}

impl Model for Session {
    ghost use Rattle.std.specs.Prelude.{List};
    ghost use Rattle.session_files.specs.Sessions.{Opened};
    ghost use Rattle.session_files.specs.OpenSessions.{all_opened, IsSession};

    ghost Value = { List Opened };

    ghost view = { λ s. all_opened s.files.items };

    ghost invariant = { λ s. IsSession (all_opened s.files.items) s.index.items s.basics.items s.paths.items };
}

impl Session {
    /// Takes in the files of these sources, in their order: at most 256, each of at most 16 MiB and all of at most
    /// 64 MiB. The first that can't be taken in is refused. For each the number of the files comes first, then the
    /// fetch, the length of the file and of all, and what its bytes are. `Failed` comes only where the device counted
    /// a fault.
    pub fn load<F: Files>(
        alloc: Global,
        device: &mut F,
        sources: &[Source<'_>],
    ) -> Result<Session, LoadError>
        ensures loaded { IfOk result
            (λ session. AreTaken (F.held device.old) (map word_of sources.now) session) }
        ensures cause { IfErr result (IsCause
            (IsRefused (F.held device.old) (F.faults device.old) (F.faults device.new) (map word_of sources.now))) }
        ensures kept { F.held device.new ≡ F.held device.old }
        ensures counted { F.faults device.old ≤ F.faults device.new }
    {
        let files = take_all_in(alloc, device, sources)?;
        // What shallow files list and no file covers will be fetched here.
        complete(alloc, files)
    }

    /// What a name comes down to, as it was found when the session was loaded.
    pub(crate) fn known_basic(&self, path: &[u8], name: &[u8]) -> Option<Basic>
        ensures { result ≡ comes_down self.now path.now name.now }
    {
        basic_in(&self.files, &self.index, &self.basics, path, name)
    }

    /// What every session keeps: each file has an envelope.
    pub fn keeps_sound_files(&self)
        ensures { AreSound self.now }
    {
        let _files = &self.files;
    }

    /// How many files it has.
    pub fn file_count(&self) -> u32
        ensures { result ≡ length self.now }
    {
        self.files.len() as u32
    }

    /// The file with this number, in the order in which files were taken in.
    pub fn image(&self, file: u32) -> Option<&Image>
        ensures { option_map (λ image. image.now) result ≡ option_map (λ o. o.file) (slice_get self.now file) }
    {
        Some(&self.files.get(file as usize)?.image)
    }

    /// The text by which messages name the file with this number.
    pub fn label(&self, file: u32) -> Option<&str>
        ensures { option_map (λ label. label.now) result ≡ option_map (λ o. o.label) (slice_get self.now file) }
    {
        Some(self.files.get(file as usize)?.label.as_str())
    }

    /// How many names its files list together, each as often as a file lists it.
    pub fn listed_count(&self) -> u64
        ensures { result ≡ length (all_listed self.now) }
    {
        count_listed(&self.files)
    }

    /// How many distinct names its files list.
    pub fn names(&self) -> u64
        ensures { IsNameCount self.now result }
    {
        self.index.len() as u64
    }

    /// The number of the first file that lists the name, and the name's number in its index.
    pub fn find(&self, path: &[u8], name: &[u8]) -> Option<(u32, u32)>
        ensures found { IfSome result (λ at. Stands self.now path.now name.now at.0 at.1) }
        ensures none { IfNone result (IsUnknown self.now path.now name.now) }
    {
        let place = self.place_of(path, name)?;
        Some((place.file, place.number))
    }

    /// Where the first file that lists the name has it.
    pub fn place_of(&self, path: &[u8], name: &[u8]) -> Option<Place<'_>>
        ensures found { IfSome result (IsPlace self.now path.now name.now) }
        ensures none { IfNone result (IsUnknown self.now path.now name.now) }
    {
        place_in(&self.files, &self.index, path, name)
    }

    /// The name of the package with the path, by the first file whose index lists it. The path is found by halves.
    pub fn package(&self, path: &[u8]) -> Option<&[u8]>
        ensures { option_map (λ name. name.now) result ≡ packages self.now path.now }
    {
        package_in(&self.files, &self.paths, path)
    }
}

/// The session of these files: their names and their paths are sorted, and what each name comes down to is found.
fn complete(alloc: Global, files: Vec<SessionFile>) -> Result<Session, LoadError>
    requires sound { AreSound (all_opened files.items) }
    requires few { length files.items ≤ MOST_FILES }
    ensures files { IfOk result (λ session. session ≡ all_opened files.items) }
    ensures cause { IfErr result (λ error. error ≡ OutOfMemory) }
{
    let index = index_of(alloc, &files)?;
    let basics = all_basics(alloc, &files, &index)?;
    let paths = path_index_of(alloc, &files)?;
    Ok(Session {
        files,
        index,
        basics,
        paths,
    })
}
