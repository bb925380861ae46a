//! Taking in the files of a session.

ghost use Rattle.std.specs.Prelude.{◌≡◌, Ok, IfOk, IfErr, map};
ghost use Rattle.command_words.specs.Texts.{source_word};
ghost use Rattle.command_words.specs.Forms.{source_of, sources_of};
ghost use Rattle.session_files.specs.Loading.{word_of, IsRefused, Loads};
ghost use Rattle.exportdata_cmd.specs.Endings.{end_of};
ghost use Rattle.exportdata_cmd.specs.Sources.{file_asked, load_end, IsRefusalEnd};

use crate::error_line::ErrorLine;
use command_words::{SourceWord, SourceWords};
use outside::Files;
use session_files::{Content, LoadError, Session, Source};
use std::alloc::{AllocError, Global};

/// Takes in the files of some sources, in their order.
pub fn load<F: Files>(
    alloc: Global,
    sources: SourceWords<'_>,
    files: &mut F,
) -> Result<Session, ErrorLine>
    ensures loaded { IfOk result
        (λ session. Loads (F.held files.old) (map file_asked (sources_of sources.entry)) (Ok session)) }
    ensures cause { IfErr result (λ error. IsRefusalEnd (IsRefused (F.held files.old) (F.faults files.old)
        (F.faults files.new) (map file_asked (sources_of sources.entry))) (end_of error)) }
    ensures kept { F.held files.new ≡ F.held files.old }
{
    let Ok(asked) = asked_files(alloc, sources) else {
        return Err(ErrorLine::NoMemory);
    };
    match Session::load(alloc, files, asked.as_slice()) {
        Ok(session) => Ok(session),
        Err(error) => Err(error_line_of(error)),
    }
}

/// The files of some sources.
fn asked_files<'a>(alloc: Global, sources: SourceWords<'a>) -> Result<Vec<Source<'a>>, AllocError>
    ensures { IfOk result (λ asked. map word_of asked.items ≡ map file_asked (sources_of sources.entry)) }
{
    let mut asked = Vec::new(alloc);
    for k in 0..sources.len() {
        let Some(source) = sources.get(k) else {
            unreachable!();
        };
        asked.push(full_file(&source))?;
    }
    Ok(asked)
}

/// The full file that a source names.
fn full_file<'a>(source: &SourceWord<'a>) -> Source<'a>
    requires { source.now.label.now ≡ source_word (source_of source.now) }
    ensures { word_of result ≡ file_asked (source_of source.now) }
{
    Source {
        label: source.label,
        file: source.file,
        content: Content::Full(source.path.as_bytes()),
    }
}

/// The line that says why files aren't taken in.
fn error_line_of(error: LoadError) -> ErrorLine
    ensures { end_of result ≡ load_end error }
{
    match error {
        LoadError::Missing { file } => ErrorLine::Missing(file),
        LoadError::Failed { file } => ErrorLine::CannotRead(file),
        LoadError::Damaged { label, fault } => ErrorLine::Damaged { label, fault },
        LoadError::TooManyFiles => ErrorLine::LimitFiles,
        LoadError::TooLarge => ErrorLine::LimitBytes,
        LoadError::OutOfMemory => ErrorLine::NoMemory,
    }
}
