//! What holds types, with these moved.

ghost use Rattle.std.specs.Prelude.{◌≡◌, ℕ, map, IfOk};
ghost use Rattle.replacement.specs.Moves.{moved, sig_moved};

use indexmap::IndexMap;
use std::alloc::{AllocError, Global};
use type_terms::{Field, IMethod, NodeId, ParamNode, Params, Sig, Term};

/// For nodes, the nodes that were made for them.
pub type Moves = IndexMap<NodeId, NodeId>;

/// The node that was made for a node, or the node itself.
pub fn moved(moves: &Moves, id: NodeId) -> NodeId
    ensures { result ≡ moved moves.now.entries id }
{
    match moves.get(&id) {
        Some(made) => *made,
        None => id,
    }
}

/// What stands in a list of a node, and holds types.
pub trait Part: Drop {
    /// The same with each of its types moved.
    ghost with: { (ℕ → ℕ) → Self → Self };

    /// The same with its types moved.
    fn with_moved(&self, alloc: Global, moves: &Moves) -> Result<Self, AllocError>
        ensures { IfOk result (λ part. part ≡ with (moved moves.now.entries) self.now) };
}

impl Part for NodeId {
    ghost with = { λ move id. move id };

    fn with_moved(&self, _alloc: Global, moves: &Moves) -> Result<NodeId, AllocError> {
        Ok(moved(moves, *self))
    }
}

impl Part for ParamNode {
    ghost use Rattle.replacement.specs.Moves.{param_moved};

    ghost with = { param_moved };

    fn with_moved(&self, _alloc: Global, moves: &Moves) -> Result<ParamNode, AllocError> {
        Ok(ParamNode {
            pos: self.pos.clone()?,
            name: self.name.clone()?,
            ty: moved(moves, self.ty),
        })
    }
}

impl Part for Field {
    ghost use Rattle.replacement.specs.Moves.{field_moved};

    ghost with = { field_moved };

    fn with_moved(&self, _alloc: Global, moves: &Moves) -> Result<Field, AllocError> {
        let mut field = self.clone()?;
        field.ty = moved(moves, self.ty);
        Ok(field)
    }
}

impl Part for Term {
    ghost use Rattle.replacement.specs.Moves.{term_moved};

    ghost with = { term_moved };

    fn with_moved(&self, _alloc: Global, moves: &Moves) -> Result<Term, AllocError> {
        Ok(Term {
            tilde: self.tilde,
            ty: moved(moves, self.ty),
        })
    }
}

impl Part for IMethod {
    ghost use Rattle.replacement.specs.Moves.{method_moved};

    ghost with = { method_moved };

    fn with_moved(&self, alloc: Global, moves: &Moves) -> Result<IMethod, AllocError> {
        let sig = sig_with_moved(alloc, &self.sig, moves)?;
        Ok(IMethod {
            origin: self.origin.clone()?,
            pos: self.pos.clone()?,
            name: self.name.clone()?,
            sig,
        })
    }
}

/// Some parts with their types moved.
pub fn all_with_moved<T: Part>(
    alloc: Global,
    parts: &[T],
    moves: &Moves,
) -> Result<Vec<T>, AllocError>
    ensures { IfOk result (λ made. made.items ≡ map (T.with (moved moves.now.entries)) parts.now) }
{
    let mut made = Vec::with_capacity(alloc, parts.len())?;
    for part in parts {
        made.push(part.with_moved(alloc, moves)?)?;
    }
    Ok(made)
}

/// A signature with its types moved.
pub fn sig_with_moved(alloc: Global, sig: &Sig, moves: &Moves) -> Result<Sig, AllocError>
    ensures { IfOk result (λ made. made ≡ sig_moved (moved moves.now.entries) sig.now) }
{
    let params = all_with_moved(alloc, sig.params.items(), moves)?;
    let results = all_with_moved(alloc, sig.results.items(), moves)?;
    Ok(Sig {
        params: Params::from_items(params),
        results: Params::from_items(results),
        variadic: sig.variadic,
    })
}
