//! Type sets.

ghost use Rattle.std.specs.Prelude.{◌≡◌, ◌<◌, ℕ, List, [], length, map, IfOk};
ghost use Rattle.std.specs.List.{AllByRecursion};
ghost use Rattle.environments.specs.Kept.{world, Kept};
ghost use Rattle.interface_nodes.specs.HeldNodes.{method_meant, method_nodes};
ghost use Rattle.interface_sets.specs.Sets.{IsCovering, AsksSet, OpensSet, AsksSettled, OpensSettled};
ghost use Rattle.interface_sets.specs.Sets.{set_by, settled_set};
ghost use Rattle.interface_sets.specs.Calls.{GivesSet};
ghost use Rattle.set_terms.specs.Shares.{listed};
ghost use Rattle.type_sets.specs.TypeSets.{with_methods, type_set};
ghost use Rattle.type_terms.specs.Arenas.{AllBelow};
ghost use Rattle.type_terms.specs.declared.descriptors.Node.{Node as Descriptor};
ghost use Rattle.type_terms.specs.Denotation.{tree};

use common_terms::Covering;
use environments::Env;
use interface_nodes::SetMethod;
use interface_opener::Found;
use opened_interfaces::open_interfaces;
use replacement::{SetFault, expand};
use set_methods::first_of_each;
use set_terms::set_terms;
use std::alloc::{AllocError, Global};
use type_terms::{Arena, NodeId, Term};

/// What a type set has. Methods stand in the order of their names, and of their homes where names are equal: the first
/// of each key that was met. Without terms it is all types that have the methods.
#[derive(Debug, Drop)]
pub struct TypeSet {
    pub methods: Vec<SetMethod>,
    pub comparable: bool,
    pub terms: Option<Vec<Term>>,
}

/// The type set of a type. An alias at its head is replaced by its right side, its interfaces are opened depth first,
/// each distinct one once, and then terms are compared. The first fault is that of the expansion, of the opening, or of
/// the comparisons in the order in which elements end; `TooMany` where more than 65,536 interfaces would be opened.
pub fn type_set<'a, E: Env<'a>, C: Covering<'a, E>>(
    alloc: Global,
    env: &mut E,
    arena: &mut Arena,
    covering: &C,
    node: NodeId,
) -> Result<TypeSet, SetFault>
    requires stands { E.stands env.old arena.old.nodes }
    requires there { node < length arena.old.nodes }
    ensures exact { GivesSet
        (OpensSet (E.entries env.old arena.old.nodes) (E.names env.old) C.covered C.opens (tree arena.old.nodes node))
        arena.old arena.new (E.full env.new) result
        (set_by (E.entries env.old arena.old.nodes) (E.names env.old) C.covered (tree arena.old.nodes node)) }
    ensures defined { IsCovering C.covered → GivesSet
        (OpensSet (E.entries env.old arena.old.nodes) (E.names env.old) C.covered C.opens (tree arena.old.nodes node))
        arena.old arena.new (E.full env.new) result
        (type_set (E.entries env.old arena.old.nodes) (E.names env.old) (tree arena.old.nodes node)) }
    ensures kept { Kept
        (AsksSet (E.entries env.old arena.old.nodes) (E.names env.old) C.covered C.asks (tree arena.old.nodes node))
        (OpensSet (E.entries env.old arena.old.nodes) (E.names env.old) C.covered C.opens (tree arena.old.nodes node))
        (world (E.entries env.old arena.old.nodes) (E.names env.old) (E.packages env.old) (E.asked env.old))
        (world (E.entries env.new arena.new.nodes) (E.names env.new) (E.packages env.new) (E.asked env.new))
        arena.old arena.new }
    ensures stands_after { E.stands env.new arena.new.nodes }
{
    set_as_told(alloc, env, arena, covering, node)
}

/// The type set by what is told of the terms.
fn set_as_told<'a, E: Env<'a>, C: Covering<'a, E>>(
    alloc: Global,
    env: &mut E,
    arena: &mut Arena,
    covering: &C,
    node: NodeId,
) -> Result<TypeSet, SetFault>
    requires stands { E.stands env.old arena.old.nodes }
    requires there { node < length arena.old.nodes }
    ensures exact { GivesSet
        (OpensSet (E.entries env.old arena.old.nodes) (E.names env.old) C.covered C.opens (tree arena.old.nodes node))
        arena.old arena.new (E.full env.new) result
        (set_by (E.entries env.old arena.old.nodes) (E.names env.old) C.covered (tree arena.old.nodes node)) }
    ensures kept { Kept
        (AsksSet (E.entries env.old arena.old.nodes) (E.names env.old) C.covered C.asks (tree arena.old.nodes node))
        (OpensSet (E.entries env.old arena.old.nodes) (E.names env.old) C.covered C.opens (tree arena.old.nodes node))
        (world (E.entries env.old arena.old.nodes) (E.names env.old) (E.packages env.old) (E.asked env.old))
        (world (E.entries env.new arena.new.nodes) (E.names env.new) (E.packages env.new) (E.asked env.new))
        arena.old arena.new }
    ensures stands_after { E.stands env.new arena.new.nodes }
{
    let found = expand(alloc, env, arena, node)?;
    settled_set(alloc, env, arena, covering, found)
}

/// The type set of a type that has no alias at its head.
fn settled_set<'a, E: Env<'a>, C: Covering<'a, E>>(
    alloc: Global,
    env: &mut E,
    arena: &mut Arena,
    covering: &C,
    node: NodeId,
) -> Result<TypeSet, SetFault>
    requires stands { E.stands env.old arena.old.nodes }
    requires there { node < length arena.old.nodes }
    ensures exact { GivesSet
        (OpensSettled (E.entries env.old arena.old.nodes) (E.names env.old) C.covered C.opens
        (tree arena.old.nodes node))
        arena.old arena.new (E.full env.new) result
        (settled_set (E.entries env.old arena.old.nodes) (E.names env.old) C.covered (tree arena.old.nodes node)) }
    ensures kept { Kept
        (AsksSettled (E.entries env.old arena.old.nodes) (E.names env.old) C.covered C.asks
        (tree arena.old.nodes node))
        (OpensSettled (E.entries env.old arena.old.nodes) (E.names env.old) C.covered C.opens
        (tree arena.old.nodes node))
        (world (E.entries env.old arena.old.nodes) (E.names env.old) (E.packages env.old) (E.asked env.old))
        (world (E.entries env.new arena.new.nodes) (E.names env.new) (E.packages env.new) (E.asked env.new))
        arena.old arena.new }
    ensures stands_after { E.stands env.new arena.new.nodes }
{
    let found = open_interfaces(alloc, env, arena, node)?;
    let terms = set_terms(alloc, env, arena, covering, &found.events, node)?;
    match set_from(alloc, found, terms) {
        Ok(set) => Ok(set),
        Err(_) => Err(SetFault::OutOfMemory),
    }
}

/// The type set with these terms, by what was opened for it.
fn set_from(alloc: Global, found: Found, terms: Option<Vec<Term>>) -> Result<TypeSet, AllocError>
    ensures methods { (nodes : List Descriptor) → IfOk result (λ set. map (method_meant nodes) set.methods.items
        ≡ with_methods (map (method_meant nodes) found.methods.items) []) }
    ensures flag { IfOk result (λ set. set.comparable ≡ found.comparable) }
    ensures terms { IfOk result (λ set. listed set.terms ≡ listed terms) }
    ensures within { (n : ℕ) → AllByRecursion (λ x. AllBelow n (method_nodes x)) found.methods.items
        → IfOk result (λ set. AllByRecursion (λ x. AllBelow n (method_nodes x)) set.methods.items) }
{
    let methods = first_of_each(alloc, found.methods)?;
    Ok(TypeSet {
        methods,
        comparable: found.comparable,
        terms,
    })
}
