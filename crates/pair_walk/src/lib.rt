//! Comparing things that lead to each other in cycles, as recursive types do: all pairs to which a pair leads are
//! visited, each once. The walk and what it decides stand here as definitions over whatever is compared, with laws,
//! each the contract of a function that does nothing; the code that walks cites them.
#![tactic(auto)]

mod laws;

pub use laws::{Comparison, differs_where_it_stops, each_pair_once, more_room, same_where_it_ends};
