ghost use Rattle.std.specs.Prelude.{◌∷◌, []};
ghost use Rattle.exportdata_cmd.specs.Putting.{PutsLines};
ghost use Rattle.exportdata_cmd.specs.Carried.{Reports, ReportsOf};

use crate::error_line::ErrorLine;
use crate::exits::Status;
use outside::Sink;
use std::alloc::Global;

/// Why lines weren't put.
#[derive(Debug, Drop, Clone, Copy, PartialEq, Eq)]
pub enum PutFault {
    Failed,
    OutOfMemory,
}

/// Puts a line.
pub fn put_line<S: Sink>(line: &[u8], out: &mut S) -> Result<(), PutFault>
    ensures { PutsLines (line.now ∷ []) result (S.state out.old) (S.state out.new) }
{
    match out.put(line) {
        Ok(()) => Ok(()),
        Err(_) => Err(PutFault::Failed),
    }
}

/// Puts an error line, or where there is no memory for it the line that says so, and gives the status.
pub fn report<E: Sink>(alloc: Global, error: &ErrorLine, err: &mut E) -> Status
    ensures { ReportsOf error.now result (E.state err.old) (E.state err.new) }
{
    let Ok(line) = error.line(alloc) else {
        return put_end(b"no memory\n", Status::Memory, err);
    };
    put_end(line.as_slice(), error.status(), err)
}

// Puts the line of an end of this status, and gives the status.
fn put_end<E: Sink>(line: &[u8], status: Status, err: &mut E) -> Status
    ensures { Reports (record { status = status; output = []; error = line.now }) result
        (E.state err.old) (E.state err.new) }
{
    match err.put(line) {
        Ok(()) => status,
        Err(_) => Status::Output,
    }
}
