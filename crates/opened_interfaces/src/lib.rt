//! The interfaces of a type, opened over an environment.
#![tactic(auto)]

mod looking;
mod opening;
mod run;
mod turning;

pub use opening::open_interfaces;
