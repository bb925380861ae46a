//! Interfaces.

ghost use Rattle.std.specs.Prelude.{◌≡◌, ◌<◌, List, [], ◌∷◌, length, false, Option, Some, None};
ghost use Rattle.std.specs.Prelude.{option_map, IfOk, IfSome, IsErrOf};
ghost use Rattle.go_values.specs.declared.qualified.QName.{QName as Name};
ghost use Rattle.code_tables.specs.declared.predeclared.Basic.TheVariants.{String as StringType};
ghost use Rattle.type_terms.specs.declared.descriptors.Node.{Node as Descriptor};
ghost use Rattle.type_terms.specs.Additions.{AddsOnly, Outgrows};
ghost use Rattle.type_terms.specs.Arenas.{AllBelow, Extends};
ghost use Rattle.type_terms.specs.Denotation.{tree};
ghost use Rattle.type_terms.specs.Names.{basic_of};
ghost use Rattle.type_terms.specs.Trees.{predeclared};
ghost use Rattle.type_sets.specs.Interfaces.{interface_of, predeclared_interface};
ghost use Rattle.interface_nodes.specs.HeldNodes.{meant, error_at, held_nodes, made_for};

use crate::methods::{SetMethod, error_method, own_methods};
use code_tables::Basic;
use std::alloc::{AllocError, Global};
use type_terms::{Arena, ArenaError, Node, NodeId};

/// What an interface holds: its own methods, whether it is `comparable`, and the types that it embeds, each one
/// element.
#[derive(Debug, Drop)]
pub struct Held {
    pub own: Vec<SetMethod>,
    pub comparable: bool,
    pub embedded: Vec<NodeId>,
}

/// What an underlying type holds if it is an interface: a literal, a predeclared one, or a union, which is the
/// interface that embeds it. For `error` the type `string` may come to the arena.
pub fn held_at(alloc: Global, arena: &mut Arena, under: NodeId) -> Result<Option<Held>, ArenaError>
    requires there { under < length arena.old.nodes }
    ensures exact { (name : Option Name) → IfOk result (λ held.
        option_map (meant arena.new.nodes name) held ≡ interface_of name (tree arena.old.nodes under)) }
    ensures within { IfOk result (λ held. IfSome held (λ held. AllBelow (length arena.new.nodes) (held_nodes held))) }
    ensures extends { Extends arena.old arena.new }
    ensures adds { AddsOnly (made_for (tree arena.old.nodes under)) arena.old arena.new }
    ensures outgrown { IsErrOf result ArenaError.Full → Outgrows arena.old (made_for (tree arena.old.nodes under)) }
{
    if let Some(basic) = arena.predeclared(under) {
        return predeclared_at(alloc, arena, basic);
    }
    match literal_at(alloc, arena, under) {
        Ok(held) => Ok(held),
        Err(_) => Err(ArenaError::OutOfMemory),
    }
}

/// What a predeclared type holds if it is an interface.
fn predeclared_at(
    alloc: Global,
    arena: &mut Arena,
    basic: Basic,
) -> Result<Option<Held>, ArenaError>
    ensures exact { (name : Option Name) → IfOk result (λ held.
        option_map (meant arena.new.nodes name) held ≡ predeclared_interface name basic) }
    ensures within { IfOk result (λ held. IfSome held (λ held. AllBelow (length arena.new.nodes) (held_nodes held))) }
    ensures extends { Extends arena.old arena.new }
    ensures adds { AddsOnly (made_for (predeclared basic)) arena.old arena.new }
    ensures outgrown { IsErrOf result ArenaError.Full → Outgrows arena.old (made_for (predeclared basic)) }
{
    if basic == Basic::Error {
        return Ok(Some(error_held(alloc, arena)?));
    }
    Ok(methodless(alloc, basic))
}

/// What a predeclared type other than `error` holds if it is an interface. Takes no memory.
fn methodless(alloc: Global, basic: Basic) -> Option<Held>
    requires other { basic ≡ Basic.Error → ⊥ }
    ensures exact { (nodes : List Descriptor) (name : Option Name)
        → option_map (meant nodes name) result ≡ predeclared_interface name basic }
    ensures within { IfSome result (λ held. held_nodes held ≡ []) }
{
    if basic != Basic::Any && basic != Basic::Comparable {
        return None;
    }
    Some(Held {
        own: Vec::new(alloc),
        comparable: basic == Basic::Comparable,
        embedded: Vec::new(alloc),
    })
}

/// What `error` holds.
fn error_held(alloc: Global, arena: &mut Arena) -> Result<Held, ArenaError>
    ensures exact { (name : Option Name) → IfOk result (λ held.
        Some (meant arena.new.nodes name held) ≡ predeclared_interface name Basic.Error) }
    ensures within { IfOk result (λ held. AllBelow (length arena.new.nodes) (held_nodes held)) }
    ensures extends { Extends arena.old arena.new }
    ensures adds { AddsOnly (predeclared StringType ∷ []) arena.old arena.new }
    ensures outgrown { IsErrOf result ArenaError.Full → Outgrows arena.old (predeclared StringType ∷ []) }
{
    let string = arena.add(Node::Predeclared(Basic::String))?;
    match error_alone(alloc, string) {
        Ok(held) => Ok(held),
        Err(_) => Err(ArenaError::OutOfMemory),
    }
}

/// The same, where this is the node of `string`.
fn error_alone(alloc: Global, string: NodeId) -> Result<Held, AllocError>
    ensures own { IfOk result (λ held. held.own.items ≡ error_at string ∷ []) }
    ensures flag { IfOk result (λ held. held.comparable ≡ false) }
    ensures embedded { IfOk result (λ held. held.embedded.items ≡ []) }
{
    let mut own = Vec::new(alloc);
    own.push(error_method(alloc, string)?)?;
    Ok(Held {
        own,
        comparable: false,
        embedded: Vec::new(alloc),
    })
}

/// The same of a type that isn't predeclared.
fn literal_at(alloc: Global, arena: &Arena, under: NodeId) -> Result<Option<Held>, AllocError>
    requires there { under < length arena.now.nodes }
    requires other { basic_of (tree arena.now.nodes under) ≡ None }
    ensures exact { (name : Option Name) → IfOk result (λ held.
        option_map (meant arena.now.nodes name) held ≡ interface_of name (tree arena.now.nodes under)) }
    ensures within { IfOk result (λ held. IfSome held (λ held. AllBelow (length arena.now.nodes) (held_nodes held))) }
{
    match arena.node(under) {
        Node::Iface(home, embedded, own) => {
            let own = own_methods(alloc, home, own.items())?;
            let embedded = Vec::from_slice(alloc, embedded.items())?;
            Ok(Some(Held {
                own,
                comparable: false,
                embedded,
            }))
        }
        Node::Union(_) => {
            let mut embedded = Vec::new(alloc);
            embedded.push(under)?;
            Ok(Some(Held {
                own: Vec::new(alloc),
                comparable: false,
                embedded,
            }))
        }
        Node::Predeclared(_)
        | Node::Named(_)
        | Node::Param(_)
        | Node::AliasName(_)
        | Node::Pointer(_)
        | Node::Slice(_)
        | Node::Array(_, _)
        | Node::Chan(_, _)
        | Node::MapOf(_, _)
        | Node::FuncOf(_, _)
        | Node::StructOf(_, _)
        | Node::Instance(_, _) => Ok(None),
    }
}
