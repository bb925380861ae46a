ghost use Rattle.std.specs.Prelude.{◌≡◌, ◌≢◌, ◌<◌, ◌⊎◌, IsSome, map};
ghost use Rattle.std.specs.String.{string_bytes};
ghost use Rattle.outside.specs.Counts.{Rose};
ghost use Rattle.outside.specs.Sinks.{Wrote, WroteSome};
ghost use Rattle.exportdata_cmd.specs.Endings.{Ending};
ghost use Rattle.exportdata_cmd.specs.Due.{Due};
ghost use Rattle.exportdata_cmd.specs.Running.{MayEnd, FallsShort, EndedAs, BrokeOff, MayRefuse};

use crate::command::{Stop, carry_out};
use crate::error_line::ErrorLine;
use crate::exits::Status;
use crate::putting::report;
use command_words::first_wrong_word;
use outside::{Files, Gate, Sink};
use std::alloc::Global;
use std::thread::Threads;

/// Carries out the command that the words ask for, and says how it ended. Each line is put as one piece with its line
/// feed: what was asked for on `out`, and on `err` the line that says why it isn't given.
pub fn run<R: Threads + Sync, F: Files, S: Sink, E: Sink, G: Gate>(
    _rt: &R,
    alloc: Global,
    words: &[String],
    files: &mut F,
    out: &mut S,
    err: &mut E,
    _gate: &G,
) -> Status
    // It ends as is due, or for a cause otherwise, and leaves just that.
    ensures ends { result ≢ Status.Output → (end : Ending)
        × MayEnd (map string_bytes words.now) (F.held files.old) (F.faults files.old) (F.faults files.new) end
        × EndedAs end result (S.state out.old) (S.state out.new) (E.state err.old) (E.state err.new) }

    // What is due is left, unless memory is wanting, the types have too many nodes, or a fault was met.
    ensures complete { (due : Ending) → Due (map string_bytes words.now) (F.held files.old) due
        → IsSome (F.held files.old)
        → ¬ Rose (F.faults files.old) (F.faults files.new)
        → ¬ Rose (S.state out.old).faults (S.state out.new).faults
        → ¬ Rose (E.state err.old).faults (E.state err.new).faults
        → EndedAs due result (S.state out.old) (S.state out.new) (E.state err.old) (E.state err.new)
        ⊎ FallsShort (map string_bytes words.now) (F.held files.old) result }

    // Only a sink's fault makes it Output, and each does. Then it broke off before it had ended so.
    ensures output { result ≡ Status.Output → Rose (S.state out.old).faults (S.state out.new).faults
        ⊎ Rose (E.state err.old).faults (E.state err.new).faults }
    ensures out_failed { (S.state out.old).faults < (S.state out.new).faults → result ≡ Status.Output }
    ensures err_failed { (E.state err.old).faults < (E.state err.new).faults → result ≡ Status.Output }
    ensures cut_short { result ≡ Status.Output → (end : Ending)
        × MayEnd (map string_bytes words.now) (F.held files.old) (F.faults files.old) (F.faults files.new) end
        × BrokeOff end (S.state out.old) (S.state out.new) (E.state err.old) (E.state err.new) }

    // Only a fault of the files makes it Files, and the files stay as they are.
    ensures files { result ≡ Status.Files → Rose (F.faults files.old) (F.faults files.new) }
    ensures kept { F.held files.new ≡ F.held files.old }
{
    match carry_out(alloc, words, files, out) {
        Ok(status) => status,
        Err(Stop::Output) => Status::Output,
        Err(Stop::Error(error)) => report(alloc, &error, err),
    }
}

/// Refuses words of which the one after these isn't text.
pub fn refuse_words<E: Sink>(alloc: Global, words: &[String], err: &mut E) -> Status
    ensures ends { result ≢ Status.Output → (end : Ending) × MayRefuse (map string_bytes words.now) end
        × (result ≡ end.status) × Wrote (E.state err.old) (E.state err.new) end.error }
    ensures cut_short { result ≡ Status.Output → (end : Ending) × MayRefuse (map string_bytes words.now) end
        × WroteSome (E.state err.old) (E.state err.new) end.error }
{
    let wrong = first_wrong_word(words);
    report(alloc, &ErrorLine::WrongWord(wrong.number), err)
}
