//! The declarations that two environments have for one name, compared: a definition over their entries, with laws, each
//! the contract of a function that does nothing.
#![tactic(auto)]

mod laws;

pub use laws::comparing_declarations_decides;
