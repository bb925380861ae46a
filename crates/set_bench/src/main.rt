//! Replaces a type parameter in a graph of nodes, or opens an interface that embeds many others, so that a script can
//! time either. The words are `replaced` or `opened`, and how many nodes or interfaces.
#![tactic(auto)]

ghost use Rattle.std.specs.Prelude.{◌≡◌, ◌<◌, ◌∷◌, [], length, IfOk, IfSome};
ghost use Rattle.type_terms.specs.Arenas.{Extends};

use code_tables::Basic;
use environments::NoDeps;
use go_values::{Bytes, Pos, QName};
use opened_interfaces::open_interfaces;
use replacement::substitute;
use std::alloc::{AllocError, Global};
use std::env;
use type_terms::{Arena, ArenaError, IMethod, Methods, Node, NodeId, Nodes, Origin, Params, Sig};

// The most nodes of an arena here.
const LIMIT: u32 = 1 << 24;

fn main(rt: HostRuntime) {
    let alloc = rt.alloc();
    let Ok(args) = env::args(&rt) else {
        return;
    };
    let Ok(words) = args.skip(1).collect::<Vec<String>>(alloc) else {
        return;
    };
    let [what, rest @ ..] = words.as_slice() else {
        return;
    };
    let count = count_of(rest);
    let mut arena = Arena::new(alloc, LIMIT);
    let done = match what.as_str() {
        "opened" => opened(alloc, &mut arena, count).unwrap_or(0),
        _ => replaced(alloc, &mut arena, count).unwrap_or(0),
    };
    let _ = println!(rt; "{done}");
}

fn count_of(words: &[String]) -> u32 {
    match words.first() {
        Some(word) => word.as_str().parse::<u32>().unwrap_or(0),
        None => 0,
    }
}

// How many nodes an arena has after a type parameter was replaced beneath a chain of pointers.
fn replaced(alloc: Global, arena: &mut Arena, count: u32) -> Option<u64> {
    let parameter = QName {
        path: Bytes::from_slice(alloc, b"p").ok()?,
        name: Bytes::from_slice(alloc, b"T.E").ok()?,
    };
    let int = arena.add(Node::Predeclared(Basic::Int)).ok()?;
    let inner = arena.add(Node::Param(parameter.clone().ok()?)).ok()?;
    let outer = chain(arena, inner, count).ok()?;
    substitute(alloc, arena, outer, &[parameter], &[int]).ok()?;
    Some(u64::from(arena.len()))
}

fn chain(arena: &mut Arena, inner: NodeId, count: u32) -> Result<NodeId, ArenaError>
    requires { inner < length arena.old.nodes }
    ensures within { IfOk result (λ outer. outer < length arena.new.nodes) }
    ensures extends { Extends arena.old arena.new }
{
    let mut last = inner;
    for _ in 0..count {
        last = arena.add(Node::Pointer(last))?;
    }
    Ok(last)
}

// How many interfaces are opened of one that embeds another, which embeds another, and so on. Each has a method.
fn opened(alloc: Global, arena: &mut Arena, count: u32) -> Option<u64> {
    let outer = nested(alloc, arena, count)?;
    let mut env = NoDeps;
    let found = open_interfaces(alloc, &mut env, arena, outer).ok()?;
    Some(found.types.len() as u64)
}

fn nested(alloc: Global, arena: &mut Arena, count: u32) -> Option<NodeId>
    ensures { IfSome result (λ outer. outer < length arena.new.nodes) }
{
    let mut last = arena.add(Node::Predeclared(Basic::Any)).ok()?;
    for number in 0..count {
        let types = embedded(alloc, last).ok()?;
        let methods = alone(alloc, method(alloc, number).ok()?).ok()?;
        last = arena
            .add(Node::Iface(Bytes::new(alloc), types, methods))
            .ok()?;
    }
    Some(last)
}

fn embedded(alloc: Global, id: NodeId) -> Result<Nodes, AllocError>
    ensures { IfOk result (λ nodes. nodes ≡ id ∷ []) }
{
    let mut types = Vec::with_capacity(alloc, 1)?;
    types.push(id)?;
    Ok(Nodes::from_items(types))
}

// A method with no parameters and no results, which is named by the number's bytes.
fn method(alloc: Global, number: u32) -> Result<IMethod, AllocError>
    ensures params { IfOk result (λ method. method.sig.params ≡ []) }
    ensures results { IfOk result (λ method. method.sig.results ≡ []) }
{
    let name = Bytes::from_slice(alloc, &number.to_be_bytes())?;
    Ok(IMethod {
        origin: Origin {
            text: Bytes::new(alloc),
            path: Bytes::new(alloc),
        },
        pos: Pos::Nowhere,
        name,
        sig: Sig {
            params: Params::from_items(Vec::new(alloc)),
            results: Params::from_items(Vec::new(alloc)),
            variadic: false,
        },
    })
}

fn alone(alloc: Global, method: IMethod) -> Result<Methods, AllocError>
    ensures { IfOk result (λ methods. methods ≡ method ∷ []) }
{
    let mut methods = Vec::with_capacity(alloc, 1)?;
    methods.push(method)?;
    Ok(Methods::from_items(methods))
}
