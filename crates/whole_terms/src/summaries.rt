//! What is told of aliases, each after those that its right side mentions.

ghost use Rattle.std.specs.Prelude.{◌≡◌, ◌<◌, [], length, map, IfOk, IfErr, OnOk};
ghost use Rattle.std.specs.List.{Contains};
ghost use Rattle.environments.specs.Kept.{world, Kept, OpensBehind};
ghost use Rattle.type_terms.specs.Arenas.{AllBelow};
ghost use Rattle.type_terms.specs.Denotation.{tree};
ghost use Rattle.replacement.specs.Expansion.{parameter_names};
ghost use Rattle.term_tests.specs.Walks.{AreRanked};
ghost use Rattle.whole_terms.specs.Tables.{table_of, told};
ghost use Rattle.whole_terms.specs.Summaries.{Tells, IsFree, Adds, IsPut, IsSummary};

use crate::breaches::Breach;
use crate::looking::look;
use environments::Env;
use go_values::QName;
use indexmap::{IndexMap, IndexSet};
use replacement::SetFault;
use std::alloc::{AllocError, Global};
use type_terms::{Arena, DeclNode, NodeId};

/// What is told of an alias: its type parameters, those that its right side comes to, in order, and the breach behind
/// them, if there is one.
#[derive(Drop)]
pub struct Summary {
    pub tparams: Vec<QName>,
    pub looks: IndexSet<QName>,
    pub breach: Option<Breach>,
}

/// What is told of these aliases.
pub(crate) fn summaries<'a, E: Env<'a>>(
    alloc: Global,
    env: &mut E,
    arena: &mut Arena,
    order: &IndexSet<QName>,
) -> Result<IndexMap<QName, Summary>, SetFault>
    requires stands { E.stands env.old arena.old.nodes }
    requires ranked { AreRanked (E.entries env.old arena.old.nodes) [] order.now.keys }
    ensures told { IfOk result
        (λ table. Tells (E.entries env.old arena.old.nodes) order.now.keys (table_of table.entries)) }
    ensures free { IfErr result
        (λ fault. IsFree (OpensBehind (E.entries env.old arena.old.nodes) (Contains order.now.keys)) arena.old
        (E.full env.new) fault) }
    ensures kept { Kept (Contains order.now.keys)
        (OpensBehind (E.entries env.old arena.old.nodes) (Contains order.now.keys))
        (world (E.entries env.old arena.old.nodes) (E.names env.old) (E.packages env.old) (E.asked env.old))
        (world (E.entries env.new arena.new.nodes) (E.names env.new) (E.packages env.new) (E.asked env.new))
        arena.old arena.new }
    ensures stands_after { E.stands env.new arena.new.nodes }
{
    let mut table = IndexMap::new(alloc);
    for place in 0..order.len() {
        let Some(q) = order.get_index(place) else {
            unreachable!();
        };
        add(alloc, env, arena, &mut table, q)?;
    }
    Ok(table)
}

/// Adds what is told of an alias, where all that its right side mentions was added.
fn add<'a, E: Env<'a>>(
    alloc: Global,
    env: &mut E,
    arena: &mut Arena,
    table: &mut IndexMap<QName, Summary>,
    q: &QName,
) -> Result<(), SetFault>
    requires stands { E.stands env.old arena.old.nodes }
    ensures adds { Adds (E.entries env.old arena.old.nodes) q.now (table_of table.old.entries)
        (table_of table.new.entries) arena.old (E.full env.new) result }
    ensures kept { Kept (λ name. name ≡ q.now)
        (OpensBehind (E.entries env.old arena.old.nodes) (λ name. name ≡ q.now))
        (world (E.entries env.old arena.old.nodes) (E.names env.old) (E.packages env.old) (E.asked env.old))
        (world (E.entries env.new arena.new.nodes) (E.names env.new) (E.packages env.new) (E.asked env.new))
        arena.old arena.new }
    ensures stands_after { E.stands env.new arena.new.nodes }
{
    let given = match env.declare(q, arena) {
        Ok(given) => given,
        Err(fault) => return Err(SetFault::Env(fault)),
    };
    match given.decl() {
        DeclNode::Alias { tparams, ty, .. } => {
            match put(alloc, arena, table, q, tparams.items(), *ty) {
                Ok(()) => Ok(()),
                Err(_) => Err(SetFault::OutOfMemory),
            }
        }
        DeclNode::Var { .. }
        | DeclNode::Func { .. }
        | DeclNode::Constant { .. }
        | DeclNode::Defined { .. }
        | DeclNode::Parameter { .. } => Ok(()),
    }
}

/// Puts what is told of an alias with these type parameters and this right side.
fn put(
    alloc: Global,
    arena: &Arena,
    table: &mut IndexMap<QName, Summary>,
    q: &QName,
    tparams: &[NodeId],
    right: NodeId,
) -> Result<(), AllocError>
    requires there { right < length arena.now.nodes }
    requires tparams { AllBelow (length arena.now.nodes) tparams.now }
    ensures { OnOk result (IsPut q.now (map (tree arena.now.nodes) tparams.now) (tree arena.now.nodes right)
        (table_of table.old.entries) (table_of table.new.entries)) }
{
    let name = q.clone()?;
    let summary = summary_of(alloc, arena, table, tparams, right)?;
    table.insert(name, summary)?;
    Ok(())
}

/// What is told of an alias with these type parameters and this right side.
fn summary_of(
    alloc: Global,
    arena: &Arena,
    table: &IndexMap<QName, Summary>,
    tparams: &[NodeId],
    right: NodeId,
) -> Result<Summary, AllocError>
    requires there { right < length arena.now.nodes }
    requires tparams { AllBelow (length arena.now.nodes) tparams.now }
    ensures { IfOk result (λ summary. IsSummary (map (tree arena.now.nodes) tparams.now) (tree arena.now.nodes right)
        (table_of table.now.entries) (told summary)) }
{
    let names = names_of(alloc, arena, tparams)?;
    let found = look(alloc, arena, table, right)?;
    Ok(Summary {
        tparams: names,
        looks: found.looks,
        breach: found.breach,
    })
}

/// The names of type parameters.
fn names_of(alloc: Global, arena: &Arena, tparams: &[NodeId]) -> Result<Vec<QName>, AllocError>
    requires there { AllBelow (length arena.now.nodes) tparams.now }
    ensures { IfOk result (λ names. names.items ≡ parameter_names (map (tree arena.now.nodes) tparams.now)) }
{
    let mut names = Vec::new(alloc);
    for id in tparams {
        if let Some(q) = arena.parameter_name(*id) {
            names.push(q.clone()?)?;
        }
    }
    Ok(names)
}
