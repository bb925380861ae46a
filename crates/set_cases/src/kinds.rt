//! The kinds of types that a case is made of.

use crate::no_answer::NoAnswer;
use crate::types::add;
use code_tables::Basic;
use go_values::{Bytes, Pos, QName};
use std::alloc::{AllocError, Global};
use type_terms::{
    Arena, IMethod, Methods, Node, NodeId, Nodes, Origin, ParamNode, Params, Sig, Term, Terms,
};

/// The types of a case, with `;` between two.
pub fn made(alloc: Global, arena: &mut Arena, text: &str) -> Result<Vec<NodeId>, NoAnswer> {
    let mut ids = Vec::new(alloc);
    for words in text.split(';') {
        let words = words.split_whitespace().collect::<Vec<&str>>(alloc)?;
        let id = one(alloc, arena, &ids, &words)?;
        ids.push(id)?;
    }
    Ok(ids)
}

/// A type, made of these.
fn one(
    alloc: Global,
    arena: &mut Arena,
    ids: &[NodeId],
    words: &[&str],
) -> Result<NodeId, NoAnswer> {
    let [kind, parts @ ..] = words else {
        return Err(NoAnswer::NoCase);
    };
    match *kind {
        "union" => union(alloc, arena, ids, parts),
        "interface" => interface(alloc, arena, ids, parts),
        "slice" => slice(alloc, arena, ids, parts),
        "name" => name(alloc, arena, parts),
        "chain" => chain(alloc, arena, ids, parts),
        word => add(alloc, arena, Node::Predeclared(basic(word)?)),
    }
}

fn basic(word: &str) -> Result<Basic, NoAnswer> {
    match word {
        "any" => Ok(Basic::Any),
        "error" => Ok(Basic::Error),
        "comparable" => Ok(Basic::Comparable),
        "int" => Ok(Basic::Int),
        "string" => Ok(Basic::String),
        "bool" => Ok(Basic::Bool),
        _ => Err(NoAnswer::NoCase),
    }
}

/// The type with a number.
fn at(ids: &[NodeId], word: &str) -> Result<NodeId, NoAnswer> {
    let place = word.parse::<usize>().or(Err(NoAnswer::NoCase))?;
    match ids.get(place) {
        Some(id) => Ok(*id),
        None => Err(NoAnswer::NoCase),
    }
}

fn name(alloc: Global, arena: &mut Arena, parts: &[&str]) -> Result<NodeId, NoAnswer> {
    let [own] = parts else {
        return Err(NoAnswer::NoCase);
    };
    let q = QName {
        path: Bytes::from_slice(alloc, b"p")?,
        name: Bytes::from_slice(alloc, own.as_bytes())?,
    };
    add(alloc, arena, Node::Named(q))
}

fn slice(
    alloc: Global,
    arena: &mut Arena,
    ids: &[NodeId],
    parts: &[&str],
) -> Result<NodeId, NoAnswer> {
    let [of] = parts else {
        return Err(NoAnswer::NoCase);
    };
    add(alloc, arena, Node::Slice(at(ids, of)?))
}

fn union(
    alloc: Global,
    arena: &mut Arena,
    ids: &[NodeId],
    parts: &[&str],
) -> Result<NodeId, NoAnswer> {
    let mut terms = Vec::new(alloc);
    for part in parts {
        terms.push(term(ids, part)?)?;
    }
    add(alloc, arena, Node::Union(Terms::from_items(terms)))
}

fn term(ids: &[NodeId], word: &str) -> Result<Term, NoAnswer> {
    match word.strip_prefix("~") {
        Some(of) => Ok(Term {
            tilde: true,
            ty: at(ids, of)?,
        }),
        None => Ok(Term {
            tilde: false,
            ty: at(ids, word)?,
        }),
    }
}

/// An interface: a part with a slash is a method with the type of its result, and another one is embedded.
fn interface(
    alloc: Global,
    arena: &mut Arena,
    ids: &[NodeId],
    parts: &[&str],
) -> Result<NodeId, NoAnswer> {
    let mut embedded = Vec::new(alloc);
    let mut own = Vec::new(alloc);
    for part in parts {
        match part.split_once('/') {
            Some((name, of)) => own.push(method(alloc, name, at(ids, of)?)?)?,
            None => embedded.push(at(ids, part)?)?,
        }
    }
    let literal = Node::Iface(
        Bytes::from_slice(alloc, b"p")?,
        Nodes::from_items(embedded),
        Methods::from_items(own),
    );
    add(alloc, arena, literal)
}

fn method(alloc: Global, name: &str, of: NodeId) -> Result<IMethod, AllocError> {
    let result = ParamNode {
        pos: Pos::Nowhere,
        name: Bytes::new(alloc),
        ty: of,
    };
    Ok(IMethod {
        origin: Origin {
            text: Bytes::new(alloc),
            path: Bytes::new(alloc),
        },
        pos: Pos::Nowhere,
        name: Bytes::from_slice(alloc, name.as_bytes())?,
        sig: Sig {
            params: Params::from_items(Vec::new(alloc)),
            results: Params::from_items(vec![in alloc; result]?),
            variadic: false,
        },
    })
}

/// So many interfaces, each of which embeds the one before it, and the first a given type.
fn chain(
    alloc: Global,
    arena: &mut Arena,
    ids: &[NodeId],
    parts: &[&str],
) -> Result<NodeId, NoAnswer> {
    let [first, count] = parts else {
        return Err(NoAnswer::NoCase);
    };
    let mut last = at(ids, first)?;
    let count = count.parse::<u32>().or(Err(NoAnswer::NoCase))?;
    for _ in 0..count {
        last = around(alloc, arena, last)?;
    }
    Ok(last)
}

fn around(alloc: Global, arena: &mut Arena, of: NodeId) -> Result<NodeId, NoAnswer> {
    let literal = Node::Iface(
        Bytes::new(alloc),
        Nodes::from_items(vec![in alloc; of]?),
        Methods::from_items(Vec::new(alloc)),
    );
    add(alloc, arena, literal)
}
