//! Identity of types as an equivalence: laws over the definitions of `type_alike`, each the contract of a function that
//! does nothing.
#![tactic(auto)]

mod laws;

pub use laws::{identity_is_reflexive, identity_is_transitive};
