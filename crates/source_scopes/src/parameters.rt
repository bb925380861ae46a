//! The type parameters that are in scope in a declaration: their names, with the places of these.

ghost use Rattle.std.specs.Prelude.{◌≡◌, ◌++◌, ℕ, IfOk, List, OnOk, map};
ghost use Rattle.go_syntax.specs.declared.tree.Top.{Top as TopTree};
ghost use Rattle.source_scopes.specs.Imports.{parameter_table, parameter_word};
ghost use Rattle.source_trees.specs.Files.{receiver_if_any, written_top, written_tops, written_tparam};
ghost use Rattle.source_trees.specs.Words.{word};
ghost use Rattle.source_walk.specs.Rows.{written_parsed};
ghost use Rattle.source_walk.specs.Spots.{receiver_words, scope, tparam_words};

use crate::table::{Item, Table};
use go_syntax::{Ident, Receiver, TParam, Top};
use source_trees::text;
use source_walk::ParsedFile;
use std::alloc::{AllocError, Global};

/// Adds type parameters with these names.
#[tactic(auto, unfolding(source_trees::specs::Words::word))]
fn add_names<'s>(
    source: &'s [u8],
    names: &[Ident],
    parameters: &mut Vec<Item<'s, u32>>,
) -> Result<(), AllocError>
    ensures { OnOk result (map parameter_word parameters.new.items ≡ map parameter_word parameters.old.items
        ++ map (word source.now) names.now) }
{
    for name in names {
        parameters.push(Item {
            name: text(source, name.start, name.end),
            what: name.start,
        })?;
    }
    Ok(())
}

/// Adds the type parameters of a list.
fn add_tparams<'s>(
    source: &'s [u8],
    tparams: &[TParam],
    parameters: &mut Vec<Item<'s, u32>>,
) -> Result<(), AllocError>
    ensures { OnOk result (map parameter_word parameters.new.items ≡ map parameter_word parameters.old.items
        ++ tparam_words (map (written_tparam source.now) tparams.now)) }
{
    for tparam in tparams {
        add_names(source, tparam.names.as_slice(), parameters)?;
    }
    Ok(())
}

/// Adds the names that a receiver gives the parameters of its type.
fn add_receiver<'s>(
    source: &'s [u8],
    receiver: &Option<Receiver>,
    parameters: &mut Vec<Item<'s, u32>>,
) -> Result<(), AllocError>
    ensures { OnOk result (map parameter_word parameters.new.items ≡ map parameter_word parameters.old.items
        ++ receiver_words (receiver_if_any source.now receiver.now)) }
{
    match receiver {
        Some(receiver) => add_names(source, receiver.args.as_slice(), parameters),
        None => Ok(()),
    }
}

/// The type parameters that are in scope in a declaration.
fn parameters_of<'s>(
    alloc: Global,
    source: &'s [u8],
    top: &Top,
) -> Result<Table<'s, u32>, AllocError>
    ensures { (all : List TopTree) (k : ℕ) → IfOk result (λ parameters.
        map parameter_word parameters ≡ scope (written_top source.now all k top.now)) }
{
    let mut parameters = Vec::new(alloc);
    match top {
        Top::Constant(_) | Top::Var(_) => {}
        Top::Defined(declared) | Top::Alias(declared) => {
            add_tparams(source, declared.tparams.as_slice(), &mut parameters)?;
        }
        Top::Func(func) => {
            add_receiver(source, &func.receiver, &mut parameters)?;
            add_tparams(source, func.tparams.as_slice(), &mut parameters)?;
        }
    }
    Table::new(alloc, parameters)
}

/// The type parameters of each declaration of a file.
fn parameters_by_top<'s>(
    alloc: Global,
    source: &'s [u8],
    tops: &[Top],
) -> Result<Vec<Table<'s, u32>>, AllocError>
    ensures { IfOk result (λ tables. map parameter_table tables.items
        ≡ map scope (written_tops source.now tops.now 0 tops.now)) }
{
    let mut tables = Vec::new(alloc);
    for top in tops {
        tables.push(parameters_of(alloc, source, top)?)?;
    }
    Ok(tables)
}

/// The type parameters of each declaration of each file.
pub(crate) fn parameters_by_file<'s>(
    alloc: Global,
    files: &[ParsedFile<'s>],
) -> Result<Vec<Vec<Table<'s, u32>>>, AllocError>
    ensures { IfOk result (λ found. map (λ tables. map parameter_table tables.items) found.items
        ≡ map (λ f. map scope f.tops) (map written_parsed files.now)) }
{
    let mut found = Vec::new(alloc);
    for file in files {
        found.push(parameters_by_top(alloc, file.source, file.tree.tops.as_slice())?)?;
    }
    Ok(found)
}
