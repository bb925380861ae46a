//! References that dangle.

ghost use Rattle.std.specs.Prelude.{◌≡◌, ◌↔◌, Bool, true, Some, length, IfOk, IfErr, IsErrOf, IsTrue};
ghost use Rattle.type_terms.specs.Arenas.{AllBelow, Extends};
ghost use Rattle.type_terms.specs.Additions.{AddsOnly, Outgrows};
ghost use Rattle.type_terms.specs.Declarations.{decl_nodes, decl_of};
ghost use Rattle.environments.specs.Environments.{AsksOnly, entry_types};
ghost use Rattle.environments.specs.Kept.{world, Kept};
ghost use Rattle.environments.specs.OpenedTypes.{OutgrowsAmong};
ghost use Rattle.environments.specs.References.{references};
ghost use Rattle.dangling_references.specs.Dangling.{Dangles, IsFirstIfAny, IsFirstOf, IsNamed, OpensNamed};

use crate::fault::AskFault;
use environments::{Env, EnvError, Reference, meets_role, references};
use indexmap::IndexSet;
use std::alloc::Global;
use type_terms::{Arena, DeclNode};

/// The first reference of a declaration, in the order of their first mention, behind whose name nothing stands, or a
/// fault, or a declaration that may not be used in its role. It asks the environment for the names of references
/// alone, and adds to the arena what these answers add.
pub fn first_dangling<'a, E: Env<'a>>(
    alloc: Global,
    env: &mut E,
    arena: &mut Arena,
    decl: &DeclNode,
) -> Result<Option<Reference>, AskFault>
    requires stands { E.stands env.old arena.old.nodes }
    requires there { AllBelow (length arena.old.nodes) (decl_nodes decl.now) }
    ensures first { IfOk result
        (IsFirstOf (E.entries env.old arena.old.nodes) (decl_of arena.old.nodes decl.now)) }
    ensures kept { Kept (IsNamed (references (decl_of arena.old.nodes decl.now)))
        (OpensNamed (E.entries env.old arena.old.nodes) (references (decl_of arena.old.nodes decl.now)))
        (world (E.entries env.old arena.old.nodes) (E.names env.old) (E.packages env.old) (E.asked env.old))
        (world (E.entries env.new arena.new.nodes) (E.names env.new) (E.packages env.new) (E.asked env.new))
        arena.old arena.new }
    ensures outgrown { IsErrOf result AskFault.Nodes → OutgrowsAmong
        (OpensNamed (E.entries env.old arena.old.nodes) (references (decl_of arena.old.nodes decl.now))) arena.old }
    ensures full { IsErrOf result AskFault.TableFull → E.full env.new ≡ Some true }
    ensures stands_after { E.stands env.new arena.new.nodes }
{
    let Ok(mentions) = references(alloc, arena, decl) else {
        return Err(AskFault::OutOfMemory);
    };
    first_among(env, arena, &mentions)
}

/// The first of these references that dangles.
fn first_among<'a, E: Env<'a>>(
    env: &mut E,
    arena: &mut Arena,
    mentions: &IndexSet<Reference>,
) -> Result<Option<Reference>, AskFault>
    requires stands { E.stands env.old arena.old.nodes }
    ensures first { IfOk result (IsFirstIfAny (E.entries env.old arena.old.nodes) mentions.now.keys) }
    ensures kept { Kept (IsNamed mentions.now.keys) (OpensNamed (E.entries env.old arena.old.nodes) mentions.now.keys)
        (world (E.entries env.old arena.old.nodes) (E.names env.old) (E.packages env.old) (E.asked env.old))
        (world (E.entries env.new arena.new.nodes) (E.names env.new) (E.packages env.new) (E.asked env.new))
        arena.old arena.new }
    ensures outgrown { IsErrOf result AskFault.Nodes
        → OutgrowsAmong (OpensNamed (E.entries env.old arena.old.nodes) mentions.now.keys) arena.old }
    ensures full { IsErrOf result AskFault.TableFull → E.full env.new ≡ Some true }
    ensures stands_after { E.stands env.new arena.new.nodes }
{
    for place in 0..mentions.len() {
        let Some(reference) = mentions.get_index(place) else {
            unreachable!();
        };
        if dangles(env, arena, reference)? {
            return copy_of(reference);
        }
    }
    Ok(None)
}

fn copy_of(reference: &Reference) -> Result<Option<Reference>, AskFault>
    ensures copied { IfOk result (λ found. found ≡ Some reference.now) }
    ensures memory { IfErr result (λ error. error ≡ AskFault.OutOfMemory) }
{
    let copy = reference.clone()?;
    Ok(Some(copy))
}

/// Whether nothing that may be used so stands behind the name of a reference.
fn dangles<'a, E: Env<'a>>(
    env: &mut E,
    arena: &mut Arena,
    reference: &Reference,
) -> Result<bool, AskFault>
    requires stands { E.stands env.old arena.old.nodes }
    ensures exact { IfOk result
        (λ dangles. IsTrue dangles ↔ Dangles (E.entries env.old arena.old.nodes) reference.now) }
    ensures entries { E.entries env.new arena.new.nodes ≡ E.entries env.old arena.old.nodes }
    ensures names { E.names env.new ≡ E.names env.old }
    ensures packages { E.packages env.new ≡ E.packages env.old }
    ensures asked { AsksOnly (E.asked env.old) reference.now.name (E.asked env.new) }
    ensures extends { Extends arena.old arena.new }
    ensures adds { AddsOnly (entry_types (E.entries env.old arena.old.nodes reference.now.name)) arena.old arena.new }
    ensures outgrown { IsErrOf result AskFault.Nodes
        → Outgrows arena.old (entry_types (E.entries env.old arena.old.nodes reference.now.name)) }
    ensures full { IsErrOf result AskFault.TableFull → E.full env.new ≡ Some true }
    ensures stands_after { E.stands env.new arena.new.nodes }
{
    match env.declare(&reference.name, arena) {
        Ok(given) => Ok(!meets_role(given.decl(), reference.role)),
        Err(EnvError::Unknown { .. }) => Ok(true),
        Err(EnvError::Damaged { .. }) => Ok(true),
        Err(EnvError::TableFull) => Err(AskFault::TableFull),
        Err(EnvError::Nodes) => Err(AskFault::Nodes),
        Err(EnvError::OutOfMemory) => Err(AskFault::OutOfMemory),
    }
}
