//! Tests of pairs that go level by level, and the walk that decides them: what is due is visited in order, and each
//! pair that is ready leads on once. The walk and what it decides stand here as definitions over whatever is tested,
//! with a law; the code that walks cites them.
#![tactic(auto)]

mod laws;

pub use laws::{Tested, answers_as_the_test};
