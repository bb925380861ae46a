//! Answers cases of the layers that read Go source: each line of the input is printed, and below a case what its layer
//! answers.
#![tactic(auto)]

mod codes;
mod constants;
mod cycles;
mod escapes;
mod fitting;
mod no_answer;
mod operators;
mod sources;
mod values;

use no_answer::NoAnswer;
use sources::Wanted;
use std::alloc::Global;
use std::io;

fn main(rt: HostRuntime) -> io::Result<()> {
    let alloc = rt.alloc();
    for line in rt.lines(alloc) {
        let line = line?;
        println!(rt; "{line}")?;
        if !is_remark(line.as_str()) {
            let found = answer(alloc, line.as_str());
            println!(rt; "  {}", told(&found))?;
        }
    }
    Ok(())
}

/// Whether a line is no case: an empty one, or one that begins with `#`.
fn is_remark(line: &str) -> bool {
    line.is_empty() || line.starts_with('#')
}

/// The answer to a case: the name of a call, a space, and what it is given.
fn answer(alloc: Global, case: &str) -> Result<String, NoAnswer> {
    let (call, text) = case.split_once(' ').unwrap_or((case, ""));
    let text = escapes::expanded(alloc, text)?;
    match call {
        "lex" => sources::answer(alloc, Wanted::Tokens, &text),
        "parse" => sources::answer(alloc, Wanted::Counts, &text),
        "tree" => sources::answer(alloc, Wanted::Tree, &text),
        "unquote" => sources::value(alloc, &text),
        "copy" => values::copied(alloc, &text),
        _ => answer_words(alloc, call, &text),
    }
}

/// The answer to a case that is written in words.
fn answer_words(alloc: Global, call: &str, text: &[u8]) -> Result<String, NoAnswer> {
    let text = str::from_utf8(text).or(Err(NoAnswer::NoCase))?;
    let words = text.split_whitespace().collect::<Vec<&str>>(alloc)?;
    match call {
        "const" => constants::value(alloc, &words),
        "convert" => constants::converted(alloc, &words),
        "operators" => constants::operators_of(alloc, &words),
        "cycles" => cycles::checked(alloc, &words),
        "kinds" => cycles::kinds(alloc, &words),
        "code" => codes::row(alloc, &words),
        "compare" => values::compared(alloc, &words),
        _ => Err(NoAnswer::NoCase),
    }
}

/// What is printed of an answer.
fn told(found: &Result<String, NoAnswer>) -> &str {
    match found {
        Ok(text) => text.as_str(),
        Err(NoAnswer::NoCase) => "no case",
        Err(NoAnswer::OutOfMemory) => "out of memory",
    }
}
