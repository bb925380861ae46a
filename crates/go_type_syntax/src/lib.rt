//! Go's types as trees, or where reading one stops.
#![tactic(auto)]

mod elements;
mod instances;
mod laws;
mod params;
mod tree;
mod types;

pub use elements::union_type;
pub use laws::{type_stands, type_start};
pub use params::signature;
pub use tree::{ElemExpr, FieldExpr, ParamExpr, SigExpr, TermExpr, TypeExpr};
pub use types::type_expr;
