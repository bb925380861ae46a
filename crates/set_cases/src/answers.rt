//! What is asked of the last type of a case.

use crate::kinds::made;
use crate::no_answer::NoAnswer;
use crate::types::is_there;
use environments::NoDeps;
use interface_nodes::SetMethod;
use interface_opener::Found;
use method_pairs::{method_pairs, open_type};
use set_methods::MethodPair;
use std::alloc::Global;
use type_terms::{Arena, NodeId, Sig};

// The most nodes of an arena here.
const LIMIT: u32 = 1 << 20;

/// The interfaces that are opened, and what they have.
pub fn opened(alloc: Global, text: &str) -> Result<String, NoAnswer> {
    let mut arena = Arena::new(alloc, LIMIT);
    let ids = made(alloc, &mut arena, text)?;
    let last = last_of(&ids)?;
    if !is_there(&arena, last) {
        return Err(NoAnswer::NoCase);
    }
    match open_type(alloc, &mut NoDeps, &mut arena, last) {
        Ok(found) => found_text(alloc, &found),
        Err(fault) => Ok(format!(in alloc; "{fault:?}")?),
    }
}

/// The pairs of methods of one key, by the types of their results.
pub fn paired(alloc: Global, text: &str) -> Result<String, NoAnswer> {
    let mut arena = Arena::new(alloc, LIMIT);
    let ids = made(alloc, &mut arena, text)?;
    let last = last_of(&ids)?;
    if !is_there(&arena, last) {
        return Err(NoAnswer::NoCase);
    }
    match method_pairs(alloc, &mut NoDeps, &mut arena, last) {
        Ok(pairs) => pairs_text(alloc, &ids, &pairs),
        Err(fault) => Ok(format!(in alloc; "{fault:?}")?),
    }
}

fn last_of(ids: &[NodeId]) -> Result<NodeId, NoAnswer> {
    match ids.last() {
        Some(id) => Ok(*id),
        None => Err(NoAnswer::NoCase),
    }
}

fn found_text(alloc: Global, found: &Found) -> Result<String, NoAnswer> {
    let count = found.types.len();
    let flag = found.comparable;
    let mut text = format!(in alloc; "{count} opened, comparable {flag}, methods")?;
    for method in found.methods.iter() {
        text.push_str(" ")?;
        text.push_str(name_of(method)?)?;
    }
    Ok(text)
}

fn name_of(method: &SetMethod) -> Result<&str, NoAnswer> {
    str::from_utf8(method.name.as_slice()).or(Err(NoAnswer::NoCase))
}

fn pairs_text(alloc: Global, ids: &[NodeId], pairs: &[MethodPair]) -> Result<String, NoAnswer> {
    let mut text = format!(in alloc; "pairs")?;
    for pair in pairs {
        let later = place_of(ids, &pair.later)?;
        let first = place_of(ids, &pair.first)?;
        let one = format!(in alloc; " {later}-{first}")?;
        text.push_str(one.as_str())?;
    }
    Ok(text)
}

/// The number of the type of a signature's result.
fn place_of(ids: &[NodeId], sig: &Sig) -> Result<usize, NoAnswer> {
    let [result] = sig.results.items() else {
        return Err(NoAnswer::NoCase);
    };
    for (place, id) in ids.iter().enumerate() {
        if *id == result.ty {
            return Ok(place);
        }
    }
    Err(NoAnswer::NoCase)
}
