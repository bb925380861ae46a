//! Pairs of types in the order of two lists.

ghost use Rattle.std.specs.Prelude.{◌≡◌, ℕ, ◌++◌, map, length, OnOk, Option};
ghost use Rattle.go_values.specs.declared.qualified.QName.{QName as Name};
ghost use Rattle.type_alike.specs.Demands.{in_step};
ghost use Rattle.type_demands.specs.NodeDemands.{node_pair};

use crate::demands::Pair;
use std::alloc::AllocError;
use type_terms::{Field, NodeId, ParamNode};

/// What has one type.
pub(crate) trait Typed {
    ghost type_of: { Self → ℕ };

    fn type_of(&self) -> NodeId
        ensures { result ≡ type_of self.now };
}

impl Typed for ParamNode {
    ghost type_of = { λ param. param.ty };

    fn type_of(&self) -> NodeId {
        self.ty
    }
}

impl Typed for Field {
    ghost type_of = { λ field. field.ty };

    fn type_of(&self) -> NodeId {
        self.ty
    }
}

impl Typed for NodeId {
    ghost type_of = { λ id. id };

    fn type_of(&self) -> NodeId {
        *self
    }
}

/// Adds the pairs of the types in the same places.
pub(crate) fn push_in_step<T: Typed>(
    left: &[T],
    right: &[T],
    into: &mut Vec<Pair>,
) -> Result<(), AllocError>
    requires count { length left.now ≡ length right.now }
    ensures { (generic : ℕ → Option Name) → OnOk result (into.new.items ≡ into.old.items
        ++ in_step generic node_pair (map T.type_of left.now) (map T.type_of right.now)) }
{
    for k in 0..left.len() {
        into.push(Pair {
            left: left[k].type_of(),
            right: right[k].type_of(),
        })?;
    }
    Ok(())
}
