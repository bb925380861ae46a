ghost use Rattle.decl_text.specs.NodeNumbers.{AreThere};

use indexmap::IndexMap;
use type_terms::{Arena, NodeId};

/// How types are referred to: by their names, or by the numbers that they were given.
#[derive(Drop)]
pub struct References<'a> {
    pub arena: &'a Arena,
    pub numbers: &'a IndexMap<NodeId, usize>,

    ghost there: { AreThere arena.now.nodes numbers.now.entries },
}
