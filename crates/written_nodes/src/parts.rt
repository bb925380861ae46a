//! What stands in lists of a node, as it is written.

ghost use Rattle.std.specs.Prelude.{◌≡◌, ℕ, map, IfOk};
ghost use Rattle.written_nodes.specs.Making.{no_origin, sig_made};
ghost use Rattle.written_nodes.specs.Pools.{number_for};

use crate::positions::position_written;
use go_values::Bytes;
use indexmap::IndexMap;
use std::alloc::{AllocError, Global};
use type_terms::{Field, IMethod, Method, NodeId, Origin, ParamNode, Params, Sig, Term};

/// For nodes of one arena, the nodes of another that were made for them.
pub(crate) type Made = IndexMap<NodeId, NodeId>;

/// The node that was made for a node, or its own number.
pub(crate) fn number_for(made: &Made, id: NodeId) -> NodeId
    ensures { result ≡ number_for made.now.entries id }
{
    match made.get(&id) {
        Some(own) => *own,
        None => id,
    }
}

/// What stands in a list of a node, and holds types.
pub(crate) trait Part: Drop {
    /// The same as it is written, where each type has another number.
    ghost with: { (ℕ → ℕ) → Self → Self };

    /// The same as it is written, with the nodes that were made for its types.
    fn written(&self, alloc: Global, made: &Made) -> Result<Self, AllocError>
        ensures { IfOk result (λ part. part ≡ with (number_for made.now.entries) self.now) };
}

impl Part for NodeId {
    ghost with = { λ number id. number id };

    fn written(&self, _alloc: Global, made: &Made) -> Result<NodeId, AllocError> {
        Ok(number_for(made, *self))
    }
}

impl Part for ParamNode {
    ghost use Rattle.written_nodes.specs.Making.{param_made};

    ghost with = { param_made };

    fn written(&self, _alloc: Global, made: &Made) -> Result<ParamNode, AllocError> {
        Ok(ParamNode {
            pos: position_written(&self.pos)?,
            name: self.name.clone()?,
            ty: number_for(made, self.ty),
        })
    }
}

impl Part for Field {
    ghost use Rattle.written_nodes.specs.Making.{field_made};

    ghost with = { field_made };

    fn written(&self, alloc: Global, made: &Made) -> Result<Field, AllocError> {
        let name = self.name.clone()?;
        let tag = self.tag.clone()?;
        Ok(Field {
            origin: no_origin(alloc),
            pos: position_written(&self.pos)?,
            name,
            ty: number_for(made, self.ty),
            embedded: self.embedded,
            tag,
        })
    }
}

impl Part for Term {
    ghost use Rattle.written_nodes.specs.Making.{term_made};

    ghost with = { term_made };

    fn written(&self, _alloc: Global, made: &Made) -> Result<Term, AllocError> {
        Ok(Term {
            tilde: self.tilde,
            ty: number_for(made, self.ty),
        })
    }
}

impl Part for IMethod {
    ghost use Rattle.written_nodes.specs.Making.{method_made};

    ghost with = { method_made };

    fn written(&self, alloc: Global, made: &Made) -> Result<IMethod, AllocError> {
        let sig = sig_written(alloc, &self.sig, made)?;
        Ok(IMethod {
            origin: no_origin(alloc),
            pos: position_written(&self.pos)?,
            name: self.name.clone()?,
            sig,
        })
    }
}

impl Part for Method {
    ghost use Rattle.written_nodes.specs.Making.{receiver_made};

    ghost with = { receiver_made };

    fn written(&self, alloc: Global, made: &Made) -> Result<Method, AllocError> {
        let recv = self.recv.written(alloc, made)?;
        let sig = sig_written(alloc, &self.sig, made)?;
        Ok(Method {
            pos: position_written(&self.pos)?,
            name: self.name.clone()?,
            recv,
            sig,
        })
    }
}

/// Full files have no origins.
fn no_origin(alloc: Global) -> Origin
    ensures { result ≡ no_origin }
{
    Origin {
        text: Bytes::new(alloc),
        path: Bytes::new(alloc),
    }
}

/// Some parts as they are written.
pub(crate) fn all_written<T: Part>(
    alloc: Global,
    parts: &[T],
    made: &Made,
) -> Result<Vec<T>, AllocError>
    ensures { IfOk result (λ all. all.items ≡ map (T.with (number_for made.now.entries)) parts.now) }
{
    let mut all = Vec::with_capacity(alloc, parts.len())?;
    for part in parts {
        all.push(part.written(alloc, made)?)?;
    }
    Ok(all)
}

/// A signature as it is written.
pub(crate) fn sig_written(alloc: Global, sig: &Sig, made: &Made) -> Result<Sig, AllocError>
    ensures { IfOk result (λ own. own ≡ sig_made (number_for made.now.entries) sig.now) }
{
    let params = all_written(alloc, sig.params.items(), made)?;
    let results = all_written(alloc, sig.results.items(), made)?;
    Ok(Sig {
        params: Params::from_items(params),
        results: Params::from_items(results),
        variadic: sig.variadic,
    })
}
