//! Type parameters replaced by types.
#![tactic(auto)]

mod expanding;
mod faults;
mod laws;
mod nodes;
mod parts;
mod reaching;
mod substituting;
mod underlying;

pub use expanding::expand;
pub use faults::SetFault;
pub use laws::{
    a_replacement_depends_on_its_parameters, a_replacement_goes_by_levels,
    a_replacement_touches_no_other_parameter, an_expanded_type_has_no_alias_at_its_head,
    more_names_change_no_expansion, only_names_at_heads_count,
    the_first_of_equal_parameters_counts,
};
pub use substituting::substitute;
pub use underlying::{defined_name, right_beneath, under};
