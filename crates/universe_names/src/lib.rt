//! The names that Go declares before any package does, and what each stands for.
#![tactic(auto)]

mod laws;
mod names;

pub use laws::as_listed;
pub use names::{Predeclared, predeclared_meaning};
