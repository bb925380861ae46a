//! What an exporter writes of a type. The definitions and their laws stand here, for the layout of a file and for the
//! code that writes one.
#![tactic(auto)]

mod laws;

pub use laws::{methods_by_name, the_same_names};
