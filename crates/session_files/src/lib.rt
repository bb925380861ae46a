//! Sessions of files: what their names are, and what comes of taking files in.
#![tactic(auto)]

mod basics;
mod files;
mod index;
mod laws;
mod limits;
mod loading;
mod names;
mod packages;
mod session;
mod sources;

pub use files::Place;
pub use laws::{names_come_down, one_answer, sessions_load_in_one_way};
pub use limits::{MOST_BYTES, MOST_FILES};
pub use loading::LoadError;
pub use session::Session;
pub use sources::{Content, Source};
