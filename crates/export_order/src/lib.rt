//! Which declarations an exported file lists, and in which order they are written. The definitions and their laws stand
//! here; the exporter and the layout of a file both cite them.
#![tactic(auto)]

mod laws;

pub use laws::each_needed_once;
