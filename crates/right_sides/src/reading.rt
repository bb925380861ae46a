//! The right sides of the aliases that a type mentions, read from an environment.

ghost use Rattle.std.specs.Prelude.{◌≡◌, ◌<◌, [], length, map, IfOk, IfErr, OnOk};
ghost use Rattle.std.specs.List.{Contains};
ghost use Rattle.environments.specs.Kept.{world, Kept, OpensBehind};
ghost use Rattle.type_terms.specs.Arenas.{AllBelow};
ghost use Rattle.type_terms.specs.Denotation.{tree};
ghost use Rattle.replacement.specs.Expansion.{parameter_names};
ghost use Rattle.type_sets.specs.TermTests.{no_cycle};
ghost use Rattle.term_tests.specs.Mentions.{IsMentioned, OpensMentioned};
ghost use Rattle.term_tests.specs.Walks.{AreRanked, Passes};
ghost use Rattle.right_sides.specs.Tables.{table_of, AreWithin};
ghost use Rattle.right_sides.specs.Readings.{AreTold, IsFree, Adds, IsPut, CoversAlike};

use crate::rights::{Right, Rights};
use environments::Env;
use go_values::QName;
use indexmap::{IndexMap, IndexSet};
use replacement::SetFault;
use std::alloc::{AllocError, Global};
use term_tests::ordered_aliases;
use type_terms::{Arena, DeclNode, NodeId};

/// The right sides of the aliases that a type mentions, itself or through right sides, as they are declared; or why an
/// alias among them mentions itself or has none. By these alone it is told what the type covers. It asks the
/// environment for the aliases that are mentioned alone.
pub fn right_sides<'a, E: Env<'a>>(
    alloc: Global,
    env: &mut E,
    arena: &mut Arena,
    node: NodeId,
) -> Result<Rights, SetFault>
    requires stands { E.stands env.old arena.old.nodes }
    requires there { node < length arena.old.nodes }
    ensures exact { Passes (OpensMentioned (E.entries env.old arena.old.nodes) (tree arena.old.nodes node))
        arena.old (E.full env.new) result
        (no_cycle (E.entries env.old arena.old.nodes) (E.names env.old) (tree arena.old.nodes node)) }
    ensures covers { IfOk result (λ rights. CoversAlike (E.entries env.old arena.old.nodes) (E.names env.old)
        (tree arena.old.nodes node) (table_of arena.new.nodes rights.sides.entries) rights.most) }
    ensures within { IfOk result (λ rights. AreWithin (length arena.new.nodes) rights.sides.entries) }
    ensures kept { Kept (IsMentioned (E.entries env.old arena.old.nodes) (tree arena.old.nodes node))
        (OpensMentioned (E.entries env.old arena.old.nodes) (tree arena.old.nodes node))
        (world (E.entries env.old arena.old.nodes) (E.names env.old) (E.packages env.old) (E.asked env.old))
        (world (E.entries env.new arena.new.nodes) (E.names env.new) (E.packages env.new) (E.asked env.new))
        arena.old arena.new }
    ensures stands_after { E.stands env.new arena.new.nodes }
{
    let order = ordered_aliases(alloc, env, arena, node)?;
    let sides = read_all(alloc, env, arena, &order)?;
    Ok(Rights {
        sides,
        most: order.len(),
    })
}

/// The right sides of these aliases.
fn read_all<'a, E: Env<'a>>(
    alloc: Global,
    env: &mut E,
    arena: &mut Arena,
    order: &IndexSet<QName>,
) -> Result<IndexMap<QName, Right>, SetFault>
    requires stands { E.stands env.old arena.old.nodes }
    requires ranked { AreRanked (E.entries env.old arena.old.nodes) [] order.now.keys }
    ensures told { IfOk result (λ rights. AreTold (E.entries env.old arena.old.nodes) order.now.keys
        (table_of arena.new.nodes rights.entries)) }
    ensures within { IfOk result (λ rights. AreWithin (length arena.new.nodes) rights.entries) }
    ensures free { IfErr result
        (λ fault. IsFree (OpensBehind (E.entries env.old arena.old.nodes) (Contains order.now.keys)) arena.old
        (E.full env.new) fault) }
    ensures kept { Kept (Contains order.now.keys)
        (OpensBehind (E.entries env.old arena.old.nodes) (Contains order.now.keys))
        (world (E.entries env.old arena.old.nodes) (E.names env.old) (E.packages env.old) (E.asked env.old))
        (world (E.entries env.new arena.new.nodes) (E.names env.new) (E.packages env.new) (E.asked env.new))
        arena.old arena.new }
    ensures stands_after { E.stands env.new arena.new.nodes }
{
    let mut rights = IndexMap::new(alloc);
    for place in 0..order.len() {
        let Some(q) = order.get_index(place) else {
            unreachable!();
        };
        add(alloc, env, arena, &mut rights, q)?;
    }
    Ok(rights)
}

/// Adds the right side of an alias.
fn add<'a, E: Env<'a>>(
    alloc: Global,
    env: &mut E,
    arena: &mut Arena,
    rights: &mut IndexMap<QName, Right>,
    q: &QName,
) -> Result<(), SetFault>
    requires stands { E.stands env.old arena.old.nodes }
    ensures adds { Adds (E.entries env.old arena.old.nodes) q.now rights.old.entries rights.new.entries
        arena.old arena.new (E.full env.new) result }
    ensures kept { Kept (λ name. name ≡ q.now)
        (OpensBehind (E.entries env.old arena.old.nodes) (λ name. name ≡ q.now))
        (world (E.entries env.old arena.old.nodes) (E.names env.old) (E.packages env.old) (E.asked env.old))
        (world (E.entries env.new arena.new.nodes) (E.names env.new) (E.packages env.new) (E.asked env.new))
        arena.old arena.new }
    ensures stands_after { E.stands env.new arena.new.nodes }
{
    let given = match env.declare(q, arena) {
        Ok(given) => given,
        Err(fault) => return Err(SetFault::Env(fault)),
    };
    match given.decl() {
        DeclNode::Alias { tparams, ty, .. } => {
            match put(alloc, arena, rights, q, tparams.items(), *ty) {
                Ok(()) => Ok(()),
                Err(_) => Err(SetFault::OutOfMemory),
            }
        }
        DeclNode::Var { .. }
        | DeclNode::Func { .. }
        | DeclNode::Constant { .. }
        | DeclNode::Defined { .. }
        | DeclNode::Parameter { .. } => Ok(()),
    }
}

/// Puts the right side of an alias that has these type parameters.
fn put(
    alloc: Global,
    arena: &Arena,
    rights: &mut IndexMap<QName, Right>,
    q: &QName,
    tparams: &[NodeId],
    right: NodeId,
) -> Result<(), AllocError>
    requires there { right < length arena.now.nodes }
    requires tparams { AllBelow (length arena.now.nodes) tparams.now }
    ensures { OnOk result (IsPut arena.now.nodes q.now (map (tree arena.now.nodes) tparams.now)
        (tree arena.now.nodes right) rights.old.entries rights.new.entries) }
{
    let name = q.clone()?;
    let names = names_of(alloc, arena, tparams)?;
    let side = Right {
        tparams: names,
        ty: right,
    };
    rights.insert(name, side)?;
    Ok(())
}

/// The names of type parameters.
fn names_of(alloc: Global, arena: &Arena, tparams: &[NodeId]) -> Result<Vec<QName>, AllocError>
    requires there { AllBelow (length arena.now.nodes) tparams.now }
    ensures { IfOk result (λ names. names.items ≡ parameter_names (map (tree arena.now.nodes) tparams.now)) }
{
    let mut names = Vec::new(alloc);
    for id in tparams {
        if let Some(q) = arena.parameter_name(*id) {
            names.push(q.clone()?)?;
        }
    }
    Ok(names)
}
