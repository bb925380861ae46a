//! How the interfaces of a type are opened, and which terms they leave together: definitions over whatever stands for
//! types, names and methods, with laws, each the contract of a function that does nothing.
#![tactic(auto)]

mod laws;

pub use laws::{
    Openable, an_item_at_a_time, each_opened_once, more_room, of_the_opened, terms_in_common,
    what_is_known_by_number,
};
