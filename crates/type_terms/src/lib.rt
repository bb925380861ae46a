//! The types and declarations of Go as values: an arena of shared descriptors, whose nodes denote finite trees over
//! qualified names.
#![tactic(auto)]

mod declarations;
mod descriptors;
mod laws;
mod lists;
mod literals;
mod names;
mod node_numbers;
mod parts;
mod shared_nodes;

pub use declarations::{DeclNode, Method};
pub use descriptors::Node;
pub use laws::{
    a_full_arena_is_outgrown, additions_join, equal_trees_have_equal_numbers,
    equality_of_types_is_tested, more_types_outgrow, nodes_keep_their_trees, parts_are_smaller,
    want_of_nodes_joins,
};
pub use lists::{Fields, MethodList, Methods, Nodes, Params, Terms};
pub use literals::{Dir, Field, IMethod, Origin, ParamNode, Sig, Term};
pub use node_numbers::NodeId;
pub use parts::{push_children, push_decl};
pub use shared_nodes::{Arena, ArenaError, MAX_NODES};
