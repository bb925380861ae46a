//! What a command takes from outside and gives to it: files by name, a sink for bytes, and a gate that workers pass.
//!
//! A contract sees of such an object what it holds, where it tells that, and a count of its faults. A call answers
//! that it failed only where the count rose, so a caller that reports a fault of the outside has met one.
#![tactic(auto)]

mod file_access;
mod gates;
mod memory_files;
mod memory_sink;
mod sinks;

pub use file_access::{FetchFault, Files, StoreFault};
pub use gates::{Gate, OpenGate};
pub use memory_files::MemoryFiles;
pub use memory_sink::MemorySink;
pub use sinks::{Sink, SinkFault};
