//! What two types demand of each other at one level, read from the nodes of an arena.
#![tactic(auto)]

mod demands;
mod fields;
mod in_step;
mod signatures;

pub use demands::{Demand, Pair, demand_of};
