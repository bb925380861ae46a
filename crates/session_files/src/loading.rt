//! Taking files in.

ghost use Rattle.std.specs.Prelude.{◌≡◌, ◌+◌, ◌<◌, ◌≤◌, ℕ, length, map, get_or, IfOk, IfErr};
ghost use Rattle.name_index.specs.declared.limits.TheConstants.{FILE_LIMIT};
ghost use Rattle.session_files.specs.Sessions.{AreSound};
ghost use Rattle.session_files.specs.OpenSessions.{all_opened, opened_of};
ghost use Rattle.session_files.specs.Loading.{word_of, form_of, HasBytes, IsFile, IsReadFault, IsOpenAs, Opens, total};
ghost use Rattle.session_files.specs.Loading.{AreTaken, missing, failed, damaged, IsUnfetched, IsSpoilt, Refuses};
ghost use Rattle.session_files.specs.Loading.{IsRefused, IsCause};
ghost use Rattle.session_files.specs.declared.limits.TheConstants.{MOST_FILES, MOST_BYTES};

use crate::files::SessionFile;
use crate::limits::{MOST_BYTES, MOST_FILES};
use crate::sources::{Content, Source};
use name_index::{FILE_LIMIT, Image, read_full_file};
use outside::{FetchFault, Files};
use std::alloc::{AllocError, AllocFailed, Global};
use wire_bytes::{ByteFault, ReadFault};

/// Why a session isn't loaded.
#[derive(Debug, Drop)]
pub enum LoadError {
    /// There is no such file.
    Missing { file: String },
    /// The file can't be read.
    Failed { file: String },
    /// The bytes of the file are none of its form. This is the first thing that is wrong with them.
    Damaged { label: String, fault: ByteFault },
    /// The files are more than a session may have.
    TooManyFiles,
    /// A file, or all of them together, are longer than they may be.
    TooLarge,
    OutOfMemory,
}

impl From<AllocError> for LoadError {
    ghost use Rattle.std.specs.Prelude.{◌≡◌};
    ghost use Rattle.session_files.specs.declared.loading.LoadError.TheVariants.{OutOfMemory};

    ghost from_gives = { λ _ e. e ≡ OutOfMemory };

    fn from(_error: AllocError) -> LoadError {
        LoadError::OutOfMemory
    }
}

impl<T: Drop> From<AllocFailed<T>> for LoadError {
    ghost use Rattle.std.specs.Prelude.{◌≡◌};
    ghost use Rattle.session_files.specs.declared.loading.LoadError.TheVariants.{OutOfMemory};

    ghost from_gives = { λ _ e. e ≡ OutOfMemory };

    fn from(_error: AllocFailed<T>) -> LoadError {
        LoadError::OutOfMemory
    }
}

/// Takes in the files of these sources, in their order.
pub fn take_all_in<F: Files>(
    alloc: Global,
    device: &mut F,
    sources: &[Source<'_>],
) -> Result<Vec<SessionFile>, LoadError>
    ensures taken { IfOk result
        (λ files. AreTaken (F.held device.old) (map word_of sources.now) (all_opened files.items)) }
    ensures sound { IfOk result (λ files. AreSound (all_opened files.items)) }
    ensures cause { IfErr result (IsCause
        (IsRefused (F.held device.old) (F.faults device.old) (F.faults device.new) (map word_of sources.now))) }
    ensures kept { F.held device.new ≡ F.held device.old }
    ensures counted { F.faults device.old ≤ F.faults device.new }
{
    let mut files = Vec::new(alloc);
    let mut bytes = 0;
    for source in sources {
        let file = take_in(alloc, device, source, &files, bytes)?;
        bytes += count_bytes(file.image.parts().file);
        files.push(file)?;
    }
    Ok(files)
}

/// Takes in the file of a source behind these, which have so many bytes.
fn take_in<F: Files>(
    alloc: Global,
    device: &mut F,
    source: &Source<'_>,
    files: &[SessionFile],
    bytes: usize,
) -> Result<SessionFile, LoadError>
    requires taken { bytes ≡ total (all_opened files.now) }
    requires small { bytes ≤ MOST_BYTES }
    ensures opened { IfOk result (λ file. Opens (F.held device.old) (word_of source.now) (opened_of file)) }
    ensures few { IfOk result (λ file. length files.now < MOST_FILES) }
    ensures small { IfOk result (λ file. bytes + length file.image.bytes ≤ MOST_BYTES) }
    ensures cause { IfErr result (IsCause (Refuses (F.held device.old) (F.faults device.old) (F.faults device.new)
        (all_opened files.now) (word_of source.now))) }
    ensures kept { F.held device.new ≡ F.held device.old }
    ensures counted { F.faults device.old ≤ F.faults device.new }
{
    if files.len() >= MOST_FILES {
        return Err(LoadError::TooManyFiles);
    }
    let body = fetch(alloc, device, source.file)?;
    if body.len() > MOST_BYTES - bytes {
        return Err(LoadError::TooLarge);
    }
    open_file(alloc, source, body)
}

fn fetch<F: Files>(alloc: Global, device: &mut F, file: &str) -> Result<Vec<u8>, LoadError>
    ensures fetched { IfOk result (λ body. HasBytes (F.held device.old) file.now body.items) }
    ensures cause { IfErr result
        (IsCause (IsUnfetched (F.held device.old) (F.faults device.old) (F.faults device.new) file.now)) }
    ensures kept { F.held device.new ≡ F.held device.old }
    ensures counted { F.faults device.old ≤ F.faults device.new }
{
    let mut body = Vec::new(alloc);
    match device.fetch(file, FILE_LIMIT, &mut body) {
        Ok(()) => Ok(body),
        Err(FetchFault::Missing) => Err(missing(alloc, file)),
        Err(FetchFault::TooLong) => Err(LoadError::TooLarge),
        Err(FetchFault::Failed) => Err(failed(alloc, file)),
        Err(FetchFault::OutOfMemory) => Err(LoadError::OutOfMemory),
    }
}

fn open_file(alloc: Global, source: &Source<'_>, body: Vec<u8>) -> Result<SessionFile, LoadError>
    requires { length body.items ≤ FILE_LIMIT }
    ensures opened { IfOk result (λ file. IsOpenAs (word_of source.now) body.items (opened_of file)) }
    ensures cause { IfErr result (IsCause (IsSpoilt (word_of source.now) body.items)) }
{
    match read_file(alloc, source.content, body) {
        Ok(image) => {
            let label = String::from_str(alloc, source.label)?;
            Ok(SessionFile { label, image })
        }
        Err(ReadFault::Bytes(fault)) => Err(damaged(alloc, source.label, fault)),
        Err(ReadFault::OutOfMemory) => Err(LoadError::OutOfMemory),
    }
}

/// Opens a file as what it is to hold.
fn read_file(alloc: Global, content: Content<'_>, body: Vec<u8>) -> Result<Image, ReadFault>
    requires { length body.items ≤ FILE_LIMIT }
    ensures found { IfOk result (λ image. IsFile (form_of content.entry) image) }
    ensures bytes { IfOk result (λ image. image.bytes ≡ body.items) }
    ensures fault { IfErr result (IsReadFault (form_of content.entry) body.items) }
{
    match content {
        Content::Full(path) => read_full_file(alloc, body, path),
    }
}

fn missing(alloc: Global, file: &str) -> LoadError
    ensures { IsCause (λ refusal. refusal ≡ missing file.now) result }
{
    match String::from_str(alloc, file) {
        Ok(file) => LoadError::Missing { file },
        Err(_) => LoadError::OutOfMemory,
    }
}

fn failed(alloc: Global, file: &str) -> LoadError
    ensures { IsCause (λ refusal. refusal ≡ failed file.now) result }
{
    match String::from_str(alloc, file) {
        Ok(file) => LoadError::Failed { file },
        Err(_) => LoadError::OutOfMemory,
    }
}

fn damaged(alloc: Global, label: &str, fault: ByteFault) -> LoadError
    ensures { IsCause (λ refusal. refusal ≡ damaged label.now fault) result }
{
    match String::from_str(alloc, label) {
        Ok(label) => LoadError::Damaged { label, fault },
        Err(_) => LoadError::OutOfMemory,
    }
}

fn count_bytes(bytes: &[u8]) -> usize
    ensures count { result ≡ length bytes.now }
    ensures bytes { (i : ℕ) → get_or bytes.now i 0 < 256 }
{
    bytes.len()
}
