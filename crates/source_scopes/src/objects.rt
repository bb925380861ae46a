//! The objects that the files of a package declare in it.

ghost use Rattle.std.specs.Prelude.{◌≡◌, ◌++◌, ℕ, List, [], ◌∷◌, IfOk, OnOk, map};
ghost use Rattle.go_syntax.specs.declared.tree.Top.{Top as TopTree};
ghost use Rattle.source_scopes.specs.Objects.{files_objects, func_objects, object, object_at};
ghost use Rattle.source_scopes.specs.Objects.{top_objects, tops_objects};
ghost use Rattle.source_trees.specs.Files.{receiver_if_any, written_top, written_tops};
ghost use Rattle.source_trees.specs.Words.{word};
ghost use Rattle.source_walk.specs.Rows.{written_parsed};

use crate::table::{Item, Table};
use go_syntax::{FuncDecl, Ident, Top};
use source_walk::{ParsedFile, Source};
use std::alloc::{AllocError, Global};

/// What an object is.
#[derive(Clone, Copy, Debug, PartialEq, Eq)]
pub enum ObjectKind {
    Constant,
    Variable,
    Defined,
    Alias,
    Function,
}

/// An object apart from its name: what it is, and where the name stands.
#[derive(Clone, Copy, Debug, Drop)]
pub struct ObjectAt {
    pub kind: ObjectKind,
    /// The number of the file.
    pub file: usize,
    pub at: u32,
}

/// Adds an object with this name.
#[tactic(auto, unfolding(source_trees::specs::Words::word))]
fn add<'s>(
    kind: ObjectKind,
    source: Source<'s>,
    name: &Ident,
    objects: &mut Vec<Item<'s, ObjectAt>>,
) -> Result<(), AllocError>
    ensures { OnOk result (map object_at objects.new.items ≡ map object_at objects.old.items
        ++ object kind source.entry.file (word source.entry.bytes.now name.now) ∷ []) }
{
    let what = ObjectAt {
        kind,
        file: source.file,
        at: name.start,
    };
    let name = source.text(name);
    objects.push(Item { name, what })?;
    Ok(())
}

/// Adds an object of this kind for each name.
fn add_all<'s>(
    kind: ObjectKind,
    source: Source<'s>,
    names: &[Ident],
    objects: &mut Vec<Item<'s, ObjectAt>>,
) -> Result<(), AllocError>
    ensures { OnOk result (map object_at objects.new.items ≡ map object_at objects.old.items
        ++ map (object kind source.entry.file) (map (word source.entry.bytes.now) names.now)) }
{
    for name in names {
        add(kind, source, name, objects)?;
    }
    Ok(())
}

/// Adds a function, unless it is a method or `init`.
fn add_func<'s>(
    source: Source<'s>,
    func: &FuncDecl,
    objects: &mut Vec<Item<'s, ObjectAt>>,
) -> Result<(), AllocError>
    ensures { OnOk result (map object_at objects.new.items ≡ map object_at objects.old.items
        ++ func_objects source.entry.file (receiver_if_any source.entry.bytes.now func.now.receiver)
        (word source.entry.bytes.now func.now.name)) }
{
    if func.receiver.is_some() || source.text(&func.name) == b"init".as_slice() {
        return Ok(());
    }
    add(ObjectKind::Function, source, &func.name, objects)
}

/// Adds the objects of a declaration.
fn add_top<'s>(
    source: Source<'s>,
    top: &Top,
    objects: &mut Vec<Item<'s, ObjectAt>>,
) -> Result<(), AllocError>
    ensures { (all : List TopTree) (k : ℕ) → OnOk result (map object_at objects.new.items
        ≡ map object_at objects.old.items
        ++ top_objects source.entry.file (written_top source.entry.bytes.now all k top.now)) }
{
    match top {
        Top::Constant(constants) => add_all(
            ObjectKind::Constant,
            source,
            constants.names.as_slice(),
            objects,
        ),
        Top::Var(variables) => add_all(
            ObjectKind::Variable,
            source,
            variables.names.as_slice(),
            objects,
        ),
        Top::Defined(declared) => add(ObjectKind::Defined, source, &declared.name, objects),
        Top::Alias(declared) => add(ObjectKind::Alias, source, &declared.name, objects),
        Top::Func(func) => add_func(source, func, objects),
    }
}

/// Adds the objects of a file.
fn add_tops<'s>(
    source: Source<'s>,
    tops: &[Top],
    objects: &mut Vec<Item<'s, ObjectAt>>,
) -> Result<(), AllocError>
    ensures { OnOk result (map object_at objects.new.items ≡ map object_at objects.old.items
        ++ tops_objects source.entry.file (written_tops source.entry.bytes.now tops.now 0 tops.now)) }
{
    for top in tops {
        add_top(source, top, objects)?;
    }
    Ok(())
}

/// The objects that files declare, in the order of the files and of their places.
pub(crate) fn objects_of<'s>(
    alloc: Global,
    files: &[ParsedFile<'s>],
) -> Result<Table<'s, ObjectAt>, AllocError>
    ensures { IfOk result (λ objects. map object_at objects ≡ files_objects 0 (map written_parsed files.now)) }
{
    let mut objects = Vec::new(alloc);
    for (number, file) in files.iter().enumerate() {
        let source = Source {
            file: number,
            bytes: file.source,
        };
        add_tops(source, file.tree.tops.as_slice(), &mut objects)?;
    }
    Table::new(alloc, objects)
}
