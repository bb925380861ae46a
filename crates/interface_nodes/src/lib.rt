//! What an interface holds, read from the nodes of an arena: its own methods as those of a type set, and its elements.
#![tactic(auto)]

mod beneath;
mod held;
mod methods;

pub use beneath::held_beneath;
pub use held::{Held, held_at};
pub use methods::SetMethod;
