//! The program: the command over the files, the output and the arguments of this process.
#![tactic(auto)]

ghost use Rattle.std.specs.Prelude.{◌≡◌, ◌<◌};
ghost use Rattle.std.specs.Process.{exit_status};
ghost use Rattle.exportdata_cmd.specs.Exits.{exit_code};

mod arguments;
mod host_files;
mod std_sink;
#[cfg(test)]
mod tests;

use arguments::{NoWords, read_words};
use exportdata_cmd::{Status, refuse_words, run};
use host_files::HostFiles;
use outside::{OpenGate, Sink};
use std::alloc::Global;
use std::process::ExitCode;
use std::thread::Threads;
use std::{io, rt};
use std_sink::StdSink;

fn main(rt: HostRuntime) -> ExitCode {
    let alloc = rt.alloc();
    let status = match (
        StdSink::new(alloc, rt.stdout()),
        StdSink::new(alloc, rt.stderr()),
    ) {
        (Ok(mut out), Ok(mut err)) => carry_out(&rt, alloc, &mut out, &mut err),
        _ => Status::Memory,
    };
    exit_with(status)
}

// The exit status of the program, as the table of statuses has it.
fn exit_with(status: Status) -> ExitCode
    ensures { exit_status result ≡ exit_code status }
{
    ExitCode::from(status.code())
}

// Carries out the command of the arguments, and writes out what its sinks have gathered. Each fault of a sink makes the
// status Output, also where its last bytes can't be written.
fn carry_out<R, O, E>(rt: &R, alloc: Global, out: &mut StdSink<O>, err: &mut StdSink<E>) -> Status
where
    R: Threads + Sync + rt::Files + rt::Env,
    O: io::Write + Drop,
    E: io::Write + Drop,
    ensures out_failed { out.old.faults < out.new.faults → result ≡ Status.Output }
    ensures err_failed { err.old.faults < err.new.faults → result ≡ Status.Output }
{
    let mut files = HostFiles::new(rt);
    let status = match read_words(rt, alloc) {
        Ok(words) => run(rt, alloc, words.as_slice(), &mut files, out, err, &OpenGate),
        Err(NoWords::After(words)) => refuse_words(alloc, words.as_slice(), err),
        Err(NoWords::OutOfMemory) => match err.put(b"no memory\n") {
            Ok(()) => Status::Memory,
            Err(_) => Status::Output,
        },
    };
    let out_written = out.finish();
    let err_written = err.finish();
    if out_written.is_err() || err_written.is_err() {
        return Status::Output;
    }
    status
}
