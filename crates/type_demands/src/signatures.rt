//! Signatures.

ghost use Rattle.std.specs.Prelude.{◌≡◌, ℕ, Option, IfOk};
ghost use Rattle.go_values.specs.declared.qualified.QName.{QName as Name};
ghost use Rattle.type_terms.specs.NodeShapes.{sig_shape};
ghost use Rattle.type_alike.specs.Demands.{parts_where, same_form, sig_pairs};
ghost use Rattle.type_demands.specs.NodeDemands.{node_pair, meant};

use crate::demands::Demand;
use crate::in_step::push_in_step;
use std::alloc::{AllocError, Global};
use type_terms::Sig;

/// What two signatures demand. Names of parameters don't count.
pub(crate) fn sig_demand(alloc: Global, left: &Sig, right: &Sig) -> Result<Demand, AllocError>
    ensures { (generic : ℕ → Option Name) → IfOk result (λ found. meant found
        ≡ parts_where (same_form (sig_shape left.now) (sig_shape right.now))
        (sig_pairs generic node_pair (sig_shape left.now) (sig_shape right.now))) }
{
    if !same_form(left, right) {
        return Ok(Demand::Differ);
    }
    let mut parts = Vec::new(alloc);
    push_in_step(left.params.items(), right.params.items(), &mut parts)?;
    push_in_step(left.results.items(), right.results.items(), &mut parts)?;
    Ok(Demand::Parts(parts))
}

/// Whether there are as many parameters and as many results, and both signatures are variadic or neither is.
fn same_form(left: &Sig, right: &Sig) -> bool
    ensures { result ≡ same_form (sig_shape left.now) (sig_shape right.now) }
{
    left.variadic == right.variadic
        && left.params.items().len() == right.params.items().len()
        && left.results.items().len() == right.results.items().len()
}
