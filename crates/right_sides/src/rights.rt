//! Right sides as they are declared.

use go_values::QName;
use indexmap::IndexMap;
use type_terms::NodeId;

/// An alias as it is declared: its type parameters, and its right side.
#[derive(Drop)]
pub struct Right {
    pub tparams: Vec<QName>,
    pub ty: NodeId,
}

/// Right sides by the names of their aliases, and how many of them may stand in one another.
#[derive(Drop)]
pub struct Rights {
    pub sides: IndexMap<QName, Right>,
    pub most: usize,
}
