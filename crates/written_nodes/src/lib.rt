//! Nodes of what an exporter writes of types.
#![tactic(auto)]

mod declarations;
mod elements;
mod laws;
mod methods;
mod nodes;
mod parts;
mod pool;
mod positions;
mod reaching;

pub use laws::a_longer_arena_keeps_what_was_made;
pub use pool::WrittenNodes;
