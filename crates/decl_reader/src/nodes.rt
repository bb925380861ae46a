//! From numbers of types to nodes of an arena.

mod declarations;
mod descriptors;
mod kept;
mod members;
mod numbers;

pub(crate) use declarations::add_spelled;
