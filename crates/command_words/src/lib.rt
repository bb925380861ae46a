//! Reads the words of the command line: each command has one form, and words that are of no form have one wrong word.
#![tactic(auto)]

mod commands;
mod laws;
mod names;
mod sources;
mod texts;

pub use commands::{Command, WrongWord, first_wrong_word, read_command};
pub use laws::words_have_one_reading;
pub use names::{NameWord, NameWords};
pub use sources::{SourceWord, SourceWords};
pub use texts::{is_file, is_path};
