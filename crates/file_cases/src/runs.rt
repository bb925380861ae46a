use crate::faults::CaseFault;
use crate::reports::Report;
use crate::words::words_of;
use exportdata_cmd::{Status, run};
use outside::{MemoryFiles, MemorySink, OpenGate};
use std::alloc::{AllocError, Global};
use std::thread::Threads;

/// How many bytes a run may print.
const ROOM: u64 = 33_554_432;

/// The calls of a run that fail. A put is told with how many bytes it writes before that.
#[derive(Drop)]
pub struct Plan {
    pub fetches: Vec<u64>,
    pub puts: Vec<(u64, u64)>,
    pub error_puts: Vec<(u64, u64)>,
}

impl Plan {
    pub fn new(alloc: Global) -> Plan {
        Plan {
            fetches: Vec::new(alloc),
            puts: Vec::new(alloc),
            error_puts: Vec::new(alloc),
        }
    }
}

/// How a run ended.
#[derive(Drop)]
pub struct Outcome {
    status: Status,
    out: MemorySink,
    err: MemorySink,
}

/// Runs the command of a line over these files.
pub fn outcome_of<R: Threads + Sync>(
    rt: &R,
    alloc: Global,
    line: &str,
    held: Vec<(String, Vec<u8>)>,
    plan: &Plan,
) -> Result<Outcome, CaseFault> {
    let words = words_of(alloc, line)?;
    let mut files = MemoryFiles::new(alloc, held, plan.fetches.clone()?)?;
    let mut out = sink(alloc, &plan.puts)?;
    let mut err = sink(alloc, &plan.error_puts)?;
    let status = run(
        rt,
        alloc,
        words.as_slice(),
        &mut files,
        &mut out,
        &mut err,
        &OpenGate,
    );
    Ok(Outcome { status, out, err })
}

fn sink(alloc: Global, failing: &Vec<(u64, u64)>) -> Result<MemorySink, AllocError> {
    let mut sink = MemorySink::new(alloc, failing.clone()?)?;
    sink.reserve(ROOM)?;
    Ok(sink)
}

impl Outcome {
    /// Adds the status and all that was printed.
    pub fn report(&self, alloc: Global, report: &mut Report) -> Result<(), AllocError> {
        self.report_status(alloc, report)?;
        report.lines("| ", self.out.written(), 0)?;
        report.lines("! ", self.err.written(), 0)
    }

    /// Adds the status, how much was printed, and so many last lines of it.
    pub fn report_end(
        &self,
        alloc: Global,
        report: &mut Report,
        count: usize,
    ) -> Result<(), AllocError> {
        self.report_status(alloc, report)?;
        let out = self.out.written();
        let len = out.len();
        let lines = out.iter().filter(|byte| **byte == b'\n').count();
        let text = format!(in alloc; "{len} bytes, {lines} lines")?;
        report.line("= ", text.as_bytes())?;
        report.lines("| ", out, lines.saturating_sub(count))
    }

    fn report_status(&self, alloc: Global, report: &mut Report) -> Result<(), AllocError> {
        let status = self.status;
        let text = format!(in alloc; "{status:?}")?;
        report.line("= ", text.as_bytes())
    }
}
