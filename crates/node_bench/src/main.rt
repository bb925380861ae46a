//! Adds many nodes to an arena, or as many numbers to the kit's index map, so that a script can time one against the
//! other. The words are `nodes` or `numbers`, and how many; or `arrays`, and the lengths of the arrays that are added.
#![tactic(auto)]

ghost use Rattle.std.specs.Prelude.{◌<◌, length};

use code_tables::Basic;
use indexmap::IndexMap;
use std::alloc::Global;
use std::env;
use type_terms::{Arena, ArenaError, Node, NodeId};

// The most nodes of an arena here.
const LIMIT: u32 = 1 << 24;

fn main(rt: HostRuntime) {
    let alloc = rt.alloc();
    let Ok(args) = env::args(&rt) else {
        return;
    };
    let Ok(words) = args.skip(1).collect::<Vec<String>>(alloc) else {
        return;
    };
    let [what, rest @ ..] = words.as_slice() else {
        return;
    };
    let added = match what.as_str() {
        "nodes" => nodes(alloc, count_of(rest)),
        "arrays" => arrays(alloc, rest),
        _ => numbers(alloc, count_of(rest)),
    };
    let _ = println!(rt; "{added}");
}

fn count_of(words: &[String]) -> u32 {
    match words.first() {
        Some(word) => word.as_str().parse::<u32>().unwrap_or(0),
        None => 0,
    }
}

// How many nodes an arena has after a chain of pointers of this length was added to it.
fn nodes(alloc: Global, count: u32) -> u64 {
    let mut arena = Arena::new(alloc, LIMIT);
    let _ = chain(&mut arena, count);
    u64::from(arena.len())
}

fn chain(arena: &mut Arena, count: u32) -> Result<NodeId, ArenaError> {
    let mut last = arena.add(Node::Predeclared(Basic::Int))?;
    for _ in 0..count {
        last = arena.add(Node::Pointer(last))?;
    }
    Ok(last)
}

// How many nodes an arena has after arrays of these lengths were added to it.
fn arrays(alloc: Global, lengths: &[String]) -> u64 {
    let mut arena = Arena::new(alloc, LIMIT);
    let _ = add_arrays(&mut arena, lengths);
    u64::from(arena.len())
}

fn add_arrays(arena: &mut Arena, lengths: &[String]) -> Result<(), ArenaError> {
    let element = arena.add(Node::Predeclared(Basic::Int))?;
    for length in lengths {
        if let Ok(length) = length.as_str().parse::<u64>() {
            arena.add(Node::Array(length, element))?;
        }
    }
    Ok(())
}

// How many numbers a map has after as many were put into it.
fn numbers(alloc: Global, count: u32) -> u64 {
    let mut map: IndexMap<u64, u64> = IndexMap::new(alloc);
    for number in 0..u64::from(count) {
        if map.insert(number, number).is_err() {
            break;
        }
    }
    map.len() as u64
}
