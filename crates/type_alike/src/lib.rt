//! Identity of types, read by one environment or by two: definitions over their entries, with laws, each the contract
//! of a function that does nothing.
#![tactic(auto)]

mod laws;

pub use laws::{
    a_lesser_depth_demands_less, comparing_decides_identity, each_pair_is_compared_once,
    identity_is_symmetric,
};
