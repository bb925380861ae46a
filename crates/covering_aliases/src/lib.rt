//! What a type covers that has aliases in it which come to an end.
#![tactic(auto)]

mod laws;

pub use laws::{
    a_type_is_what_it_is_expanded_to, an_alias_is_its_right_side, more_right_sides_change_nothing,
    what_mentions_itself_nowhere_ends,
};
