//! Answers the cases of its standard input, each after the line that asks for it. README.md has their form.
#![tactic(auto)]

mod cases;
mod chains;
mod faults;
mod items;
mod reports;
mod runs;
mod shelf;
mod spellings;
mod words;

use crate::cases::Block;
use std::io::{self, Write};

fn main(rt: HostRuntime) -> io::Result<()> {
    let alloc = rt.alloc();
    let input = io::read_to_string(alloc, rt.reader())?;
    let mut block = Block::new(alloc);
    for line in input.lines() {
        let report = block.answer(&rt, line)?;
        io::writer(&rt).write_all(report.bytes())?;
    }
    Ok(())
}
