//! Answers cases of type sets over no environment: each line of the input is printed, and below a case what is opened of
//! a type, or which pairs of methods it has.
#![tactic(auto)]

mod answers;
mod kinds;
mod no_answer;
mod types;

use no_answer::NoAnswer;
use std::alloc::Global;
use std::io;

fn main(rt: HostRuntime) -> io::Result<()> {
    let alloc = rt.alloc();
    for line in rt.lines(alloc) {
        let line = line?;
        println!(rt; "{line}")?;
        if !is_remark(line.as_str()) {
            let found = answer(alloc, line.as_str());
            println!(rt; "  {}", told(&found))?;
        }
    }
    Ok(())
}

/// Whether a line is no case: an empty one, or one that begins with `#`.
fn is_remark(line: &str) -> bool {
    line.is_empty() || line.starts_with('#')
}

/// The answer to a case: the name of a call, a space, and the types, each of which is made of earlier ones.
fn answer(alloc: Global, case: &str) -> Result<String, NoAnswer> {
    let (call, text) = case.split_once(' ').unwrap_or((case, ""));
    match call {
        "open" => answers::opened(alloc, text),
        "pairs" => answers::paired(alloc, text),
        _ => Err(NoAnswer::NoCase),
    }
}

/// What is printed of an answer.
fn told(found: &Result<String, NoAnswer>) -> &str {
    match found {
        Ok(text) => text.as_str(),
        Err(NoAnswer::NoCase) => "no case",
        Err(NoAnswer::OutOfMemory) => "out of memory",
    }
}
