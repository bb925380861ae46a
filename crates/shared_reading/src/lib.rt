//! Reading many declarations of one open file, each descriptor once: what is remembered between them, and that nothing
//! else is read so.
#![tactic(auto)]

mod laws;

pub use laws::{apart_from_memory, counted_once, shared_declarations, two_tables};
