//! The declarations of export data as text.
#![tactic(auto)]

mod decls;
mod escapes;
mod laws;
mod methods;
mod naming;
mod numbering;
mod pieces;
mod references;
mod rendering;
mod signatures;
mod tasks;
mod types;
mod walking;
mod words;

pub use escapes::put_printed;
pub use laws::{
    a_finished_type_adds_nothing, a_walk_finishes_parts_first, each_line_is_of_a_type_referred_to,
    each_type_referred_to_has_a_number, types_of_one_number_have_one_line,
};
pub use rendering::{Room, put_decl, render};
