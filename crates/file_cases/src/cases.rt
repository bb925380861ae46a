use crate::chains::{Link, chain_file};
use crate::faults::CaseFault;
use crate::items::bytes_of;
use crate::reports::Report;
use crate::runs::{Plan, outcome_of};
use crate::shelf::Shelf;
use crate::spellings::{Spelled, report_spelled, report_text};
use std::alloc::{AllocError, Global};
use std::mem;
use std::thread::Threads;

/// The files of a block of lines, and the calls of its next run that fail.
#[derive(Drop)]
pub struct Block {
    alloc: Global,
    files: Shelf,
    plan: Plan,
}

impl Block {
    pub fn new(alloc: Global) -> Block {
        Block {
            alloc,
            files: Shelf::new(alloc),
            plan: Plan::new(alloc),
        }
    }

    /// What is printed of a line: nothing of a comment or a file, else the line and what comes of it. An empty line
    /// ends the block.
    pub fn answer<R: Threads + Sync>(&mut self, rt: &R, line: &str) -> Result<Report, AllocError> {
        let mut report = Report::new(self.alloc);
        match self.carry_out(rt, line, &mut report) {
            Ok(()) => {}
            Err(CaseFault::Unclear) => {
                report = Report::new(self.alloc);
                report.line("", line.as_bytes())?;
                report.line("= ", b"no case")?;
            }
            Err(CaseFault::OutOfMemory(fault)) => return Err(fault),
        }
        Ok(report)
    }

    fn carry_out<R: Threads + Sync>(
        &mut self,
        rt: &R,
        line: &str,
        report: &mut Report,
    ) -> Result<(), CaseFault> {
        if line.is_empty() {
            *self = Block::new(self.alloc);
            return Ok(());
        }
        let (kind, rest) = line.split_once(' ').unwrap_or((line, ""));
        match kind {
            "#" => Ok(()),
            "file" => self.add_file(rest),
            "" => self.add_bytes(rest),
            "chain" => self.add_chain(rest),
            "fail" => self.plan_failure(rest),
            _ => {
                report.line("", line.as_bytes())?;
                self.ask(rt, kind, rest, report)
            }
        }
    }

    /// The cases that print something.
    fn ask<R: Threads + Sync>(
        &mut self,
        rt: &R,
        kind: &str,
        rest: &str,
        report: &mut Report,
    ) -> Result<(), CaseFault> {
        match kind {
            "run" => self.run(rt, rest, report),
            "cuts" => self.run_cuts(rt, rest, report),
            "end" => self.run_to_end(rt, rest, report),
            "number" => self.read(Spelled::Number, rest, report),
            "signed" => self.read(Spelled::Signed, rest, report),
            "flag" => self.read(Spelled::Flag, rest, report),
            "whole" => {
                let (ty, items) = parted(rest)?;
                self.read(Spelled::Whole(ty), items, report)
            }
            "text" => self.find_text(rest, report),
            _ => Err(CaseFault::Unclear),
        }
    }

    /// `NAME ITEMS`
    fn add_file(&mut self, rest: &str) -> Result<(), CaseFault> {
        let (name, items) = rest.split_once(' ').unwrap_or((rest, ""));
        let bytes = bytes_of(self.alloc, items, &self.files)?;
        Ok(self.files.add(name, bytes)?)
    }

    /// `ITEMS`, behind those of the last file
    fn add_bytes(&mut self, items: &str) -> Result<(), CaseFault> {
        let bytes = bytes_of(self.alloc, items, &self.files)?;
        match self.files.last() {
            Some(file) => Ok(file.extend_from_slice(bytes.as_slice())?),
            None => Err(CaseFault::Unclear),
        }
    }

    /// `NAME COUNT KIND`
    fn add_chain(&mut self, rest: &str) -> Result<(), CaseFault> {
        let (name, rest) = parted(rest)?;
        let (count, kind) = parted(rest)?;
        let link = match kind {
            "pointers" => Link::Pointer,
            "structs" => Link::Struct,
            _ => return Err(CaseFault::Unclear),
        };
        let bytes = chain_file(self.alloc, link, number(count)?)?;
        Ok(self.files.add(name, bytes)?)
    }

    /// `fetch K`, `put K after N` or `error K after N`
    fn plan_failure(&mut self, rest: &str) -> Result<(), CaseFault> {
        let (kind, call) = parted(rest)?;
        if kind == "fetch" {
            return Ok(self.plan.fetches.push(number(call)?)?);
        }
        let Some((call, count)) = call.split_once(" after ") else {
            return Err(CaseFault::Unclear);
        };
        let pair = (number(call)?, number(count)?);
        match kind {
            "put" => Ok(self.plan.puts.push(pair)?),
            "error" => Ok(self.plan.error_puts.push(pair)?),
            _ => Err(CaseFault::Unclear),
        }
    }

    /// `WORDS`
    fn run<R: Threads + Sync>(
        &mut self,
        rt: &R,
        words: &str,
        report: &mut Report,
    ) -> Result<(), CaseFault> {
        let files = self.files.copy()?;
        let plan = mem::replace(&mut self.plan, Plan::new(self.alloc));
        let outcome = outcome_of(rt, self.alloc, words, files, &plan)?;
        Ok(outcome.report(self.alloc, report)?)
    }

    /// `COUNT WORDS`, of which no call fails
    fn run_to_end<R: Threads + Sync>(
        &self,
        rt: &R,
        rest: &str,
        report: &mut Report,
    ) -> Result<(), CaseFault> {
        let (count, words) = parted(rest)?;
        let files = self.files.copy()?;
        let outcome = outcome_of(rt, self.alloc, words, files, &Plan::new(self.alloc))?;
        Ok(outcome.report_end(self.alloc, report, number(count)? as usize)?)
    }

    /// `NAME WORDS`, of which no call fails
    fn run_cuts<R: Threads + Sync>(
        &self,
        rt: &R,
        rest: &str,
        report: &mut Report,
    ) -> Result<(), CaseFault> {
        let (name, words) = parted(rest)?;
        let Some(bytes) = self.files.get(name) else {
            return Err(CaseFault::Unclear);
        };
        for len in 0..bytes.len() {
            let files = self.files.copy_cut(name, len)?;
            let outcome = outcome_of(rt, self.alloc, words, files, &Plan::new(self.alloc))?;
            outcome.report(self.alloc, report)?;
        }
        Ok(())
    }

    /// `ITEMS`
    fn read(
        &self,
        spelled: Spelled<'_>,
        items: &str,
        report: &mut Report,
    ) -> Result<(), CaseFault> {
        let bytes = bytes_of(self.alloc, items, &self.files)?;
        match report_spelled(self.alloc, spelled, bytes.as_slice(), report)? {
            Some(()) => Ok(()),
            None => Err(CaseFault::Unclear),
        }
    }

    /// `OFFSET ITEMS`
    fn find_text(&self, rest: &str, report: &mut Report) -> Result<(), CaseFault> {
        let (offset, items) = parted(rest)?;
        let strings = bytes_of(self.alloc, items, &self.files)?;
        Ok(report_text(strings.as_slice(), number(offset)?, report)?)
    }
}

/// The first word, and what stands behind it.
fn parted(rest: &str) -> Result<(&str, &str), CaseFault> {
    rest.split_once(' ').ok_or(CaseFault::Unclear)
}

fn number(digits: &str) -> Result<u64, CaseFault> {
    digits.parse().map_err(|_| CaseFault::Unclear)
}
