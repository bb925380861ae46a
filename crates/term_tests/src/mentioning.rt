//! The aliases that a type mentions.

ghost use Rattle.std.specs.Prelude.{◌≡◌, ◌<◌, ◌^◌, [], ◌∷◌, ◌++◌, length, map, OnOk};
ghost use Rattle.type_terms.specs.Denotation.{tree};
ghost use Rattle.term_tests.specs.declared.walking.Task.TheVariants.{Enter};
ghost use Rattle.term_tests.specs.Aliases.{aliases_of};
ghost use Rattle.term_tests.specs.Walks.{Puts, stack};

use crate::walking::Task;
use environments::{Reference, Role, references};
use go_values::{Pos, QName};
use indexmap::IndexSet;
use std::alloc::{AllocError, Global};
use type_terms::{Arena, DeclNode, NodeId};

/// Puts the aliases that a type mentions before all that is to be done, the first of them next.
pub(crate) fn put_mentions(
    alloc: Global,
    arena: &Arena,
    tasks: &mut Vec<Task>,
    id: NodeId,
) -> Result<(), AllocError>
    requires there { id < length arena.now.nodes }
    ensures { OnOk result (Puts (tree arena.now.nodes id) (stack tasks.old.items) (stack tasks.new.items)) }
{
    let holder = DeclNode::Var {
        pos: Pos::Nowhere,
        ty: id,
    };
    let found = references(alloc, arena, &holder)?;
    put_aliases(tasks, &found)
}

/// Puts the aliases among these references.
fn put_aliases(tasks: &mut Vec<Task>, found: &IndexSet<Reference>) -> Result<(), AllocError>
    ensures put { OnOk result (stack tasks.new.items
        ≡ map Enter (aliases_of found.now.keys) ++ stack tasks.old.items) }
    ensures small { length found.now.keys < 2 ^ 63 }
{
    let mut left = found.len();
    while left > 0 {
        left -= 1;
        let Some(reference) = found.get_index(left) else {
            unreachable!();
        };
        put_alias(tasks, reference)?;
    }
    Ok(())
}

/// Puts the alias that a reference names, if it is one.
fn put_alias(tasks: &mut Vec<Task>, reference: &Reference) -> Result<(), AllocError>
    ensures { OnOk result (stack tasks.new.items
        ≡ map Enter (aliases_of (reference.now ∷ [])) ++ stack tasks.old.items) }
{
    match reference.role {
        Role::Alias | Role::AliasBase(_) => put(tasks, &reference.name),
        Role::Defined | Role::Parameter | Role::DefinedBase(_) => Ok(()),
    }
}

fn put(tasks: &mut Vec<Task>, q: &QName) -> Result<(), AllocError>
    ensures { OnOk result (stack tasks.new.items ≡ Enter q.now ∷ stack tasks.old.items) }
{
    let name = q.clone()?;
    tasks.push(Task::Enter(name))?;
    Ok(())
}
