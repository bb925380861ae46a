//! The first place at which a name of a list is declared again.
#![tactic(auto)]

mod laws;
mod names;
mod scans;

pub use laws::no_repeats;
pub use names::{NameAt, first_of_two};
pub use scans::{first_clash, first_repeat};
