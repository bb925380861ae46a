//! Carrying out a command.

ghost use Rattle.std.specs.Prelude.{◌≡◌, List, map};
ghost use Rattle.std.specs.String.{string_bytes};
ghost use Rattle.outside.specs.Sinks.{SinkState};
ghost use Rattle.command_words.specs.Texts.{Word, Source, source_word};
ghost use Rattle.command_words.specs.Forms.{Request, list as list_request, show as show_request, check as check_request, IsForm};
ghost use Rattle.command_words.specs.Forms.{source_of, sources_of, names_of};
ghost use Rattle.session_files.specs.Sessions.{Opened};
ghost use Rattle.exportdata_cmd.specs.Printed.{Line};
ghost use Rattle.exportdata_cmd.specs.Endings.{output_end};
ghost use Rattle.exportdata_cmd.specs.Putting.{PutsLines};
ghost use Rattle.exportdata_cmd.specs.Due.{Yields};
ghost use Rattle.exportdata_cmd.specs.Carried.{Answered, Carried};

use crate::checking::{put_verdicts, verdict_status};
use crate::error_line::ErrorLine;
use crate::exits::Status;
use crate::listing::put_packages;
use crate::loading::load;
use crate::opening::open_source;
use crate::putting::PutFault;
use crate::showing::{NODE_LIMIT, look_up, put_answers, status_of};
use checked_files::{CheckFault, check_all};
use command_words::{Command, NameWords, SourceWord, SourceWords, read_command};
use dangling_references::AskFault;
use outside::{Files, Sink};
use session_files::Session;
use std::alloc::Global;
use type_terms::Arena;

/// Why a command isn't carried out.
#[derive(Debug, Drop)]
pub enum Stop {
    /// The output failed.
    Output,
    /// An error line is due.
    Error(ErrorLine),
}

/// Carries out the command that the words ask for, but for an error line.
pub fn carry_out<F: Files, S: Sink>(
    alloc: Global,
    words: &[String],
    files: &mut F,
    out: &mut S,
) -> Result<Status, Stop>
    ensures carried { Carried (map string_bytes words.now) (F.held files.old) (F.faults files.old) (F.faults files.new)
        result (S.state out.old) (S.state out.new) }
    ensures kept { F.held files.new ≡ F.held files.old }
{
    match read_command(words) {
        Ok(Command::List(source)) => list(alloc, &source, files, out),
        Ok(Command::Show { sources, names }) => show(alloc, sources, names, files, out),
        Ok(Command::Check(sources)) => check(alloc, sources, files, out),
        Err(wrong) => Err(Stop::Error(ErrorLine::WrongWord(wrong.number))),
    }
}

// Lists the packages and names of a source. No index over its names is made for it.
fn list<F: Files, S: Sink>(
    alloc: Global,
    source: &SourceWord<'_>,
    files: &mut F,
    out: &mut S,
) -> Result<Status, Stop>
    requires { source.now.label.now ≡ source_word (source_of source.now) }
    ensures carried { (words : List Word) → IsForm words (list_request (source_of source.now))
        → Carried words (F.held files.old) (F.faults files.old) (F.faults files.new) result
        (S.state out.old) (S.state out.new) }
    ensures kept { F.held files.new ≡ F.held files.old }
{
    let image = match open_source(alloc, source, files) {
        Ok(image) => image,
        Err(error) => return Err(Stop::Error(error)),
    };
    finish(put_packages(alloc, &image, out), Status::Done)
}

// Shows what names are in some sources.
fn show<F: Files, S: Sink>(
    alloc: Global,
    sources: SourceWords<'_>,
    names: NameWords<'_>,
    files: &mut F,
    out: &mut S,
) -> Result<Status, Stop>
    ensures carried { (words : List Word) → IsForm words (show_request (sources_of sources.entry) (names_of names.entry))
        → Carried words (F.held files.old) (F.faults files.old) (F.faults files.new) result
        (S.state out.old) (S.state out.new) }
    ensures kept { F.held files.new ≡ F.held files.old }
{
    let session = match load(alloc, sources, files) {
        Ok(session) => session,
        Err(error) => return Err(Stop::Error(error)),
    };
    show_names(alloc, names, &session, out)
}

// Shows what names are in a session. All are looked up before a line is put.
fn show_names<S: Sink>(
    alloc: Global,
    names: NameWords<'_>,
    session: &Session,
    out: &mut S,
) -> Result<Status, Stop>
    ensures { (sources : List Source) → Answered session.now (show_request sources (names_of names.entry)) result
        (S.state out.old) (S.state out.new) }
{
    let mut arena = Arena::new(alloc, NODE_LIMIT);
    let shown = match look_up(alloc, names, session, &mut arena) {
        Ok(shown) => shown,
        Err(AskFault::Nodes) => return Err(Stop::Error(ErrorLine::LimitNodes)),
        Err(AskFault::OutOfMemory) => return Err(Stop::Error(ErrorLine::NoMemory)),
        // The environment of a session has no table.
        Err(AskFault::TableFull) => unreachable!(),
    };
    let put = put_answers(alloc, &shown, &arena, out);
    finish(put, status_of(shown.found.as_slice()))
}

// Checks the declarations of some sources.
fn check<F: Files, S: Sink>(
    alloc: Global,
    sources: SourceWords<'_>,
    files: &mut F,
    out: &mut S,
) -> Result<Status, Stop>
    ensures carried { (words : List Word) → IsForm words (check_request (sources_of sources.entry))
        → Carried words (F.held files.old) (F.faults files.old) (F.faults files.new) result
        (S.state out.old) (S.state out.new) }
    ensures kept { F.held files.new ≡ F.held files.old }
{
    let session = match load(alloc, sources, files) {
        Ok(session) => session,
        Err(error) => return Err(Stop::Error(error)),
    };
    check_files(alloc, &session, out)
}

// Checks the declarations of the files of a session. All are looked at before a line is put.
fn check_files<S: Sink>(alloc: Global, session: &Session, out: &mut S) -> Result<Status, Stop>
    ensures { (sources : List Source) → Answered session.now (check_request sources) result
        (S.state out.old) (S.state out.new) }
{
    let mut arena = Arena::new(alloc, NODE_LIMIT);
    let verdicts = match check_all(alloc, session, &mut arena) {
        Ok(verdicts) => verdicts,
        Err(CheckFault::Nodes) => return Err(Stop::Error(ErrorLine::LimitNodes)),
        Err(CheckFault::OutOfMemory) => return Err(Stop::Error(ErrorLine::NoMemory)),
    };
    let put = put_verdicts(alloc, session, &arena, &verdicts, out);
    finish(put, verdict_status(&verdicts))
}

// What putting all lines of a command comes to, where this status goes with them.
fn finish(put: Result<(), PutFault>, status: Status) -> Result<Status, Stop>
    ensures { (files : List Opened) (request : Request) (lines : List Line) (before after : SinkState)
        → Yields files request (output_end status lines) → PutsLines lines put before after
        → Answered files request result before after }
{
    match put {
        Ok(()) => Ok(status),
        Err(PutFault::Failed) => Err(Stop::Output),
        Err(PutFault::OutOfMemory) => Err(Stop::Error(ErrorLine::NoMemory)),
    }
}
