//! Tables whose entries are what one step makes of them from other entries of the table: definitions over whatever
//! stands in them, with laws, each the contract of a function that does nothing.
#![tactic(auto)]

mod laws;

pub use laws::{Table, filled_in_order, one_table, reached_all};
