//! Which names are mentioned as a declaration is written. The law stands here, for the queue of an exporter.
#![tactic(auto)]

mod laws;

pub use laws::the_walk_meets_the_references;
