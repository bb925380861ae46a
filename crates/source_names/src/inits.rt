//! Names called `init`, where only a function may be called so.

ghost use Rattle.std.specs.Prelude.{◌≡◌, ℕ, List, map};
ghost use Rattle.go_syntax.specs.declared.tree.Top.{Top as TopTree};
ghost use Rattle.repeated_names.specs.Firsts.{first};
ghost use Rattle.source_trees.specs.Files.{receiver_if_any, written_import, written_tparam, written_top};
ghost use Rattle.source_trees.specs.Trees.{written_param, written_sig};
ghost use Rattle.go_type_syntax.specs.PlainTypes.{params_of};
ghost use Rattle.source_trees.specs.Words.{word};
ghost use Rattle.source_names.specs.Duplicates.{init_at, inits, import_init, import_inits, is_bare, no_params};
ghost use Rattle.source_names.specs.Duplicates.{no_tparams};
ghost use Rattle.source_names.specs.Duplicates.{func_inits, top_inits};

use go_syntax::{FuncDecl, Ident, Import, ParamExpr, TParam, Top};
use repeated_names::first_of_two;
use source_places::Place;
use source_walk::Source;
use sqlite_items::Items;

/// The place of a name that is called `init`.
fn init_at(source: Source<'_>, name: &Ident) -> Option<Place>
    ensures { result ≡ first (init_at source.entry.file (word source.entry.bytes.now name.now)) }
{
    if source.text(name) == b"init".as_slice() {
        Some(source.place(name))
    } else {
        None
    }
}

/// The first place of a name that is called `init`.
fn first_init(source: Source<'_>, names: &[Ident]) -> Option<Place>
    ensures { result ≡ first (inits source.entry.file (map (word source.entry.bytes.now) names.now)) }
{
    let mut found = None;
    for name in names {
        found = first_of_two(found, init_at(source, name));
    }
    found
}

/// The place of an import that is given this name.
fn init_of_import(source: Source<'_>, import: &Import) -> Option<Place>
    ensures { result ≡ first (import_init source.entry.file
        (written_import source.entry.bytes.now import.now).name) }
{
    match &import.name {
        Some(name) => init_at(source, name),
        None => None,
    }
}

/// The first import that is given this name.
pub(crate) fn init_of_imports(source: Source<'_>, imports: &[Import]) -> Option<Place>
    ensures { result ≡ first (import_inits source.entry.file
        (map (written_import source.entry.bytes.now) imports.now)) }
{
    let mut found = None;
    for import in imports {
        found = first_of_two(found, init_of_import(source, import));
    }
    found
}

fn no_tparams(tparams: &Items<TParam>) -> bool
    ensures { (source : List ℕ) → result ≡ no_tparams (map (written_tparam source) tparams.now) }
{
    tparams.is_empty()
}

fn no_params(params: &Items<ParamExpr>) -> bool
    ensures { (source : List ℕ) → result ≡ no_params (params_of (map (written_param source) params.now)) }
{
    params.is_empty()
}

/// Whether a function has neither type parameters nor parameters nor results.
fn is_bare(func: &FuncDecl) -> bool
    ensures { (source : List ℕ) → result
        ≡ is_bare (map (written_tparam source) func.now.tparams) (written_sig source func.now.sig) }
{
    no_tparams(&func.tparams) && no_params(&func.sig.params) && no_params(&func.sig.results)
}

/// The place of a function called `init` that isn't bare.
fn init_of_func(source: Source<'_>, func: &FuncDecl) -> Option<Place>
    ensures { result ≡ first (func_inits source.entry.file (receiver_if_any source.entry.bytes.now func.now.receiver)
        (is_bare (map (written_tparam source.entry.bytes.now) func.now.tparams)
        (written_sig source.entry.bytes.now func.now.sig)) (word source.entry.bytes.now func.now.name)) }
{
    match &func.receiver {
        Some(_) => None,
        None => {
            if is_bare(func) {
                None
            } else {
                init_at(source, &func.name)
            }
        }
    }
}

/// The first name of a declaration that is called `init` and may not be.
pub(crate) fn init_of_top(source: Source<'_>, top: &Top) -> Option<Place>
    ensures { (all : List TopTree) (k : ℕ)
        → result ≡ first (top_inits source.entry.file (written_top source.entry.bytes.now all k top.now)) }
{
    match top {
        Top::Constant(constants) => first_init(source, constants.names.as_slice()),
        Top::Var(variables) => first_init(source, variables.names.as_slice()),
        Top::Defined(declared) | Top::Alias(declared) => init_at(source, &declared.name),
        Top::Func(func) => init_of_func(source, func),
    }
}
