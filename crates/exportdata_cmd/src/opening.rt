//! Opening the one file of a source, of which only the index is asked.

ghost use Rattle.std.specs.Prelude.{◌≡◌, ◌⊎◌, ◌∷◌, [], Ok, IfOk, IfErr};
ghost use Rattle.command_words.specs.Forms.{source_of};
ghost use Rattle.command_words.specs.Texts.{source_word};
ghost use Rattle.session_files.specs.Loading.{HasBytes, IsUnfetched, IsRefused, Loads};
ghost use Rattle.exportdata_cmd.specs.Endings.{damaged_end, no_memory_end, end_of};
ghost use Rattle.exportdata_cmd.specs.Sources.{file_asked, opened_as, IsRefusalEnd};

use crate::error_line::ErrorLine;
use command_words::SourceWord;
use name_index::{FILE_LIMIT, Image, read_full_file};
use outside::{FetchFault, Files};
use std::alloc::Global;
use wire_bytes::{ByteFault, ReadFault};

// Fetches the file of a source.
fn fetch<F: Files>(
    alloc: Global,
    source: &SourceWord<'_>,
    files: &mut F,
) -> Result<Vec<u8>, ErrorLine>
    ensures fetched { IfOk result (λ bytes. HasBytes (F.held files.old) source.now.file.now bytes.items) }
    ensures cause { IfErr result (λ error. IsRefusalEnd
        (IsUnfetched (F.held files.old) (F.faults files.old) (F.faults files.new) source.now.file.now) (end_of error)) }
    ensures kept { F.held files.new ≡ F.held files.old }
{
    let Ok(file) = String::from_str(alloc, source.file) else {
        return Err(ErrorLine::NoMemory);
    };
    let mut bytes = Vec::new(alloc);
    match files.fetch(source.file, FILE_LIMIT, &mut bytes) {
        Ok(()) => Ok(bytes),
        Err(FetchFault::Missing) => Err(ErrorLine::Missing(file)),
        Err(FetchFault::TooLong) => Err(ErrorLine::LimitBytes),
        Err(FetchFault::Failed) => Err(ErrorLine::CannotRead(file)),
        Err(FetchFault::OutOfMemory) => Err(ErrorLine::NoMemory),
    }
}

/// Opens the file of a source.
pub fn open_source<F: Files>(
    alloc: Global,
    source: &SourceWord<'_>,
    files: &mut F,
) -> Result<Image, ErrorLine>
    requires { source.now.label.now ≡ source_word (source_of source.now) }
    ensures opened { IfOk result (λ image. Loads (F.held files.old) (file_asked (source_of source.now) ∷ [])
        (Ok (opened_as (source_of source.now) image ∷ []))) }
    ensures cause { IfErr result (λ error. IsRefusalEnd (IsRefused (F.held files.old) (F.faults files.old)
        (F.faults files.new) (file_asked (source_of source.now) ∷ [])) (end_of error)) }
    ensures kept { F.held files.new ≡ F.held files.old }
{
    let bytes = match fetch(alloc, source, files) {
        Ok(bytes) => bytes,
        Err(error) => return Err(error),
    };
    match read_full_file(alloc, bytes, source.path.as_bytes()) {
        Ok(image) => Ok(image),
        Err(ReadFault::Bytes(fault)) => Err(damaged(alloc, source.label, fault)),
        Err(ReadFault::OutOfMemory) => Err(ErrorLine::NoMemory),
    }
}

// The line that says that the file with this label has a fault.
fn damaged(alloc: Global, label: &str, fault: ByteFault) -> ErrorLine
    ensures { (end_of result ≡ damaged_end label.now fault) ⊎ (end_of result ≡ no_memory_end []) }
{
    match String::from_str(alloc, label) {
        Ok(label) => ErrorLine::Damaged { label, fault },
        Err(_) => ErrorLine::NoMemory,
    }
}
