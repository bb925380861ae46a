//! What has to be told of a declaration, over an environment, before what is written of it can be put.
#![tactic(auto)]

mod telling;

pub use telling::tell;
