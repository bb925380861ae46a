//! The type set of a type, and its pairs of equally named methods: definitions over an environment's entries, with
//! laws, each the contract of a function that does nothing.
#![tactic(auto)]

mod laws;

pub use laws::{
    each_interface_is_opened_once, terms_are_those_in_common, the_first_of_a_key_counts,
    the_flag_is_that_of_comparable, what_is_opened_gives_the_set,
};
