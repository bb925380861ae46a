//! Interfaces that every type implements.
#![tactic(auto)]

mod all_types;
mod freedom;

pub use freedom::is_free;
