//! A session of files as an environment.
#![tactic(auto)]

mod session_env;

pub use session_env::SessionEnv;
