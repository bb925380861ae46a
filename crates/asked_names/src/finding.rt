//! Looking names up.

ghost use Rattle.std.specs.Prelude.{◌≡◌, Option, Bool, Some, true, length, IfOk, IsErrOf};
ghost use Rattle.std.specs.List.{Contains};
ghost use Rattle.type_terms.specs.Arenas.{Extends};
ghost use Rattle.type_terms.specs.Additions.{AddsOnly, Outgrows};
ghost use Rattle.environments.specs.Environments.{AsksOnly, entry_types};
ghost use Rattle.environments.specs.Kept.{world, Kept, OpensBehind};
ghost use Rattle.environments.specs.OpenedTypes.{OutgrowsAmong};
ghost use Rattle.asked_names.specs.Finding.{IsFound, AreFound, IsCopied};

use dangling_references::AskFault;
use environments::{Env, EnvError, Given};
use go_values::QName;
use std::alloc::{AllocError, Global};
use type_terms::{Arena, DeclNode};
use wire_bytes::ByteFault;

/// What stands behind a name, as nodes of an arena.
#[derive(Debug, Drop)]
pub enum Found {
    /// Nothing.
    Unknown,
    /// A declaration with this first fault.
    Damaged(ByteFault),
    Declared(DeclNode),
}

/// What stands behind each of these names.
pub fn find_all<'a, E: Env<'a>>(
    alloc: Global,
    env: &mut E,
    arena: &mut Arena,
    names: &[QName],
) -> Result<Vec<Found>, AskFault>
    requires stands { E.stands env.old arena.old.nodes }
    ensures found { IfOk result
        (λ found. AreFound arena.new.nodes (E.entries env.old arena.old.nodes) names.now found.items) }
    ensures kept { Kept (Contains names.now) (OpensBehind (E.entries env.old arena.old.nodes) (Contains names.now))
        (world (E.entries env.old arena.old.nodes) (E.names env.old) (E.packages env.old) (E.asked env.old))
        (world (E.entries env.new arena.new.nodes) (E.names env.new) (E.packages env.new) (E.asked env.new))
        arena.old arena.new }
    ensures outgrown { IsErrOf result AskFault.Nodes
        → OutgrowsAmong (OpensBehind (E.entries env.old arena.old.nodes) (Contains names.now)) arena.old }
    ensures full { IsErrOf result AskFault.TableFull → E.full env.new ≡ Some true }
    ensures stands_after { E.stands env.new arena.new.nodes }
{
    let mut found = Vec::new(alloc);
    for place in 0..names.len() {
        let one = find(env, arena, &names[place])?;
        if found.push(one).is_err() {
            return Err(AskFault::OutOfMemory);
        }
    }
    Ok(found)
}

/// What stands behind a name.
pub fn find<'a, E: Env<'a>>(env: &mut E, arena: &mut Arena, q: &QName) -> Result<Found, AskFault>
    requires stands { E.stands env.old arena.old.nodes }
    ensures found { IfOk result (IsFound arena.new.nodes (E.entries env.old arena.old.nodes q.now)) }
    ensures entries { E.entries env.new arena.new.nodes ≡ E.entries env.old arena.old.nodes }
    ensures names { E.names env.new ≡ E.names env.old }
    ensures packages { E.packages env.new ≡ E.packages env.old }
    ensures asked { AsksOnly (E.asked env.old) q.now (E.asked env.new) }
    ensures extends { Extends arena.old arena.new }
    ensures adds { AddsOnly (entry_types (E.entries env.old arena.old.nodes q.now)) arena.old arena.new }
    ensures outgrown { IsErrOf result AskFault.Nodes
        → Outgrows arena.old (entry_types (E.entries env.old arena.old.nodes q.now)) }
    ensures full { IsErrOf result AskFault.TableFull → E.full env.new ≡ Some true }
    ensures stands_after { E.stands env.new arena.new.nodes }
{
    match env.declare(q, arena) {
        Ok(given) => declared(given),
        Err(EnvError::Unknown { .. }) => Ok(Found::Unknown),
        Err(EnvError::Damaged { fault, .. }) => Ok(Found::Damaged(fault)),
        Err(EnvError::TableFull) => Err(AskFault::TableFull),
        Err(EnvError::Nodes) => Err(AskFault::Nodes),
        Err(EnvError::OutOfMemory) => Err(AskFault::OutOfMemory),
    }
}

/// A declaration that was given, for keeps.
fn declared(given: Given<'_>) -> Result<Found, AskFault>
    ensures { IsCopied given.entry result }
{
    let node = match given {
        Given::Made(node) => node,
        Given::Lent(node) => copy_of(node)?,
    };
    Ok(Found::Declared(node))
}

fn copy_of(node: &DeclNode) -> Result<DeclNode, AllocError>
    ensures { IfOk result (λ copy. copy ≡ node.now) }
{
    node.clone()
}
