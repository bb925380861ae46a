//! What the interfaces that are opened have of terms so far.

ghost use Rattle.std.specs.Prelude.{◌≡◌, ℕ, [], ◌∷◌, None, Some, IfOk, OnOk};
ghost use Rattle.set_terms.specs.Shares.{listed, joined, wholes_of, unions_of, put};
ghost use Rattle.set_terms.specs.Known.{known_of, Takes};

use indexmap::IndexMap;
use replacement::SetFault;
use std::alloc::{AllocError, Global};
use type_terms::{NodeId, Term};

/// Of each interface, what the elements that ended leave, and the union that is under way. An interface without an entry
/// has all types, and an empty union under way; a union that is `None` has all types.
#[derive(Debug, Drop)]
pub struct Shares {
    pub wholes: IndexMap<NodeId, Vec<Term>>,
    pub unions: IndexMap<NodeId, Option<Vec<Term>>>,
}

/// Adds a term to the union of an interface that is under way. All types stay all types.
pub(crate) fn add_term(
    alloc: Global,
    shares: &mut Shares,
    holder: NodeId,
    term: Term,
) -> Result<(), SetFault>
    ensures { Takes holder (Some (term ∷ [])) (known_of shares.old) (known_of shares.new) result }
{
    match add_terms(alloc, &mut shares.unions, holder, &[term]) {
        Ok(()) => Ok(()),
        Err(_) => Err(SetFault::OutOfMemory),
    }
}

/// Adds the terms that the elements of another interface leave.
pub(crate) fn add_interface(
    alloc: Global,
    shares: &mut Shares,
    holder: NodeId,
    of: NodeId,
) -> Result<(), SetFault>
    ensures { Takes holder (wholes_of shares.old.wholes.entries of) (known_of shares.old) (known_of shares.new) result }
{
    match add_whole(alloc, &shares.wholes, &mut shares.unions, holder, of) {
        Ok(()) => Ok(()),
        Err(_) => Err(SetFault::OutOfMemory),
    }
}

/// Adds terms to the union of an interface that is under way.
fn add_terms(
    alloc: Global,
    unions: &mut IndexMap<NodeId, Option<Vec<Term>>>,
    holder: NodeId,
    terms: &[Term],
) -> Result<(), AllocError>
    ensures { OnOk result ((id : ℕ) → unions_of unions.new.entries id
        ≡ put holder (joined (unions_of unions.old.entries holder) (Some terms.now)) (unions_of unions.old.entries) id) }
{
    let union = take_union(alloc, unions, holder);
    let more = longer(union, terms)?;
    put_union(unions, holder, more)
}

/// Adds the terms of another interface to that union.
fn add_whole(
    alloc: Global,
    wholes: &IndexMap<NodeId, Vec<Term>>,
    unions: &mut IndexMap<NodeId, Option<Vec<Term>>>,
    holder: NodeId,
    of: NodeId,
) -> Result<(), AllocError>
    ensures { OnOk result ((id : ℕ) → unions_of unions.new.entries id
        ≡ put holder (joined (unions_of unions.old.entries holder) (wholes_of wholes.now.entries of))
        (unions_of unions.old.entries) id) }
{
    match wholes.get(&of) {
        Some(terms) => add_terms(alloc, unions, holder, terms),
        None => put_union(unions, holder, None),
    }
}

/// A union with terms at its end.
fn longer(union: Option<Vec<Term>>, terms: &[Term]) -> Result<Option<Vec<Term>>, AllocError>
    ensures { IfOk result (λ more. listed more ≡ joined (listed union) (Some terms.now)) }
{
    match union {
        Some(mut own) => {
            own.extend_from_slice(terms)?;
            Ok(Some(own))
        }
        None => Ok(None),
    }
}

/// Takes the union of an interface that is under way. An empty one is left.
pub(crate) fn take_union(
    alloc: Global,
    unions: &mut IndexMap<NodeId, Option<Vec<Term>>>,
    id: NodeId,
) -> Option<Vec<Term>>
    ensures value { listed result ≡ unions_of unions.old.entries id }
    ensures left { (other : ℕ) → unions_of unions.new.entries other
        ≡ put id (Some []) (unions_of unions.old.entries) other }
{
    match unions.swap_remove(&id) {
        Some(union) => union,
        None => Some(Vec::new(alloc)),
    }
}

/// Puts the union of an interface that is under way.
fn put_union(
    unions: &mut IndexMap<NodeId, Option<Vec<Term>>>,
    id: NodeId,
    union: Option<Vec<Term>>,
) -> Result<(), AllocError>
    ensures { OnOk result ((other : ℕ) → unions_of unions.new.entries other
        ≡ put id (listed union) (unions_of unions.old.entries) other) }
{
    unions.insert(id, union)?;
    Ok(())
}

/// Takes what the elements of an interface that ended leave. All types are left.
pub(crate) fn take_whole(wholes: &mut IndexMap<NodeId, Vec<Term>>, id: NodeId) -> Option<Vec<Term>>
    ensures value { listed result ≡ wholes_of wholes.old.entries id }
    ensures left { (other : ℕ) → wholes_of wholes.new.entries other
        ≡ put id None (wholes_of wholes.old.entries) other }
{
    wholes.swap_remove(&id)
}

/// Puts what the elements of an interface that ended leave, where there are all types so far.
pub(crate) fn put_whole(
    wholes: &mut IndexMap<NodeId, Vec<Term>>,
    id: NodeId,
    whole: Option<Vec<Term>>,
) -> Result<(), AllocError>
    requires all { wholes_of wholes.old.entries id ≡ None }
    ensures { OnOk result ((other : ℕ) → wholes_of wholes.new.entries other
        ≡ put id (listed whole) (wholes_of wholes.old.entries) other) }
{
    if let Some(terms) = whole {
        wholes.insert(id, terms)?;
    }
    Ok(())
}
