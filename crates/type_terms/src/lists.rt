ghost use Rattle.std.specs.Prelude.{◌≡◌, ℕ, List, nat_eq};
ghost use Rattle.std.specs.Cmp.Lexicographic.{pointwise};
ghost use Rattle.std.specs.Cmp.Rules.{comparing, hashing};
ghost use Rattle.std.specs.Hash as fed;
ghost use Rattle.std.proofs.Common.{rules};

use crate::declarations::Method;
use crate::literals::{Field, IMethod, ParamNode, Term};
use crate::node_numbers::NodeId;
use go_values::Sequence;
use smallvec::SmallVec;
use std::alloc::AllocError;
use std::hash::{Hash, Hasher};
use std::marker::Model;

pub type Fields = Sequence<Field>;

pub type Methods = Sequence<IMethod>;

pub type MethodList = Sequence<Method>;

pub type Params = Sequence<ParamNode>;

pub type Terms = Sequence<Term>;

/// A list of nodes that doesn't change. Most are short, and up to four stand in the value itself, so such a node needs
/// no memory of its own: this is why it is no `Sequence`. A contract sees the list of the nodes' numbers.
#[derive(Debug, Drop)]
pub struct Nodes {
    numbers: SmallVec<NodeId, 4>,
}

impl Model for Nodes {
    ghost Value = { List ℕ };

    ghost view = { λ nodes. nodes.numbers.items };
}

impl Nodes {
    /// The list of these nodes. Takes no memory.
    pub fn from_items(items: Vec<NodeId>) -> Nodes
        ensures { result ≡ items.items }
    {
        Nodes {
            numbers: SmallVec::from(items),
        }
    }

    /// Lends the nodes. Takes no memory.
    pub fn items(&self) -> &[NodeId]
        ensures { result.now ≡ self.now }
    {
        self.numbers.as_slice()
    }
}

impl PartialEq for Nodes {
    ghost eq = { pointwise nat_eq };

    ghost laws = { Prim.search (comparing, rules) };

    fn eq(&self, other: &Nodes) -> bool {
        self.items() == other.items()
    }
}

impl Eq for Nodes {
    ghost laws = { Prim.search (comparing, rules) };
}

impl Hash for Nodes {
    ghost hash_input = { fed.slice fed.u32 };

    ghost respects_eq = { Prim.search (hashing, rules) };

    fn hash<H: Hasher>(&self, state: &mut H) {
        self.items().hash(state);
    }
}

impl Clone for Nodes {
    ghost is_clone = { λ nodes copy. copy ≡ nodes };

    fn clone(&self) -> Result<Nodes, AllocError> {
        Ok(Nodes {
            numbers: SmallVec::from_slice(*self.numbers.allocator(), self.items())?,
        })
    }
}
