//! What becomes known as interfaces are opened, over the nodes of an arena.
#![tactic(auto)]

mod found;
mod open_names;
mod tasks;

pub use found::{Event, Found, enter, join, mark, note};
pub use open_names::{begin, end, is_open};
pub use tasks::{Task, put_element, put_inside, put_top};
