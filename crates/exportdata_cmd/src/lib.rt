//! The command: it reads its words, carries them out over files and sinks, and answers with a status.
#![tactic(auto)]

mod checking;
mod command;
mod error_line;
mod exits;
mod laws;
mod listing;
mod loading;
mod opening;
mod printing;
mod putting;
mod showing;
mod top;

pub use exits::Status;
pub use laws::one_end_is_due;
pub use top::{refuse_words, run};
