//! What declares names in a list of its own, and the first name of such a list that is declared again.

ghost use Rattle.std.specs.Prelude.{◌≡◌, ℕ, List, ◌++◌, [], ◌∷◌, IfOk, OnOk, flat_map, map};
ghost use Rattle.repeated_names.specs.Firsts.{first};
ghost use Rattle.repeated_names.specs.Names.{named};
ghost use Rattle.repeated_names.specs.Repeats.{repeats};
ghost use Rattle.source_trees.specs.Files.{receiver_if_any};
ghost use Rattle.source_trees.specs.Trees.{written_type};
ghost use Rattle.source_trees.specs.Words.{word};
ghost use Rattle.source_names.specs.Duplicates.{named_word, embedded_word};
ghost use Rattle.source_names.specs.Names.{declared_at, words_at, func_words};

use go_syntax::{ElemExpr, FieldExpr, FuncDecl, Ident, ParamExpr, TParam, Top, TypeExpr};
use repeated_names::{NameAt, first_repeat};
use source_places::Place;
use source_walk::Source;
use std::alloc::{AllocError, Global};

/// Adds a name that begins at this byte, unless it is blank.
pub(crate) fn add_text<'s>(
    source: Source<'s>,
    text: &'s [u8],
    at: u32,
    names: &mut Vec<NameAt<'s>>,
) -> Result<(), AllocError>
    ensures { OnOk result (map named names.new.items ≡ map named names.old.items
        ++ declared_at source.entry.file (record { text = text.entry.now; at = at })) }
{
    if text == b"_".as_slice() {
        return Ok(());
    }
    let place = Place {
        file: source.file,
        at,
    };
    names.push(NameAt { text, place })?;
    Ok(())
}

/// Adds a name at its place, unless it is blank.
#[tactic(auto, unfolding(source_trees::specs::Words::word))]
pub(crate) fn add_name<'s>(
    source: Source<'s>,
    name: &Ident,
    names: &mut Vec<NameAt<'s>>,
) -> Result<(), AllocError>
    ensures { OnOk result (map named names.new.items ≡ map named names.old.items
        ++ declared_at source.entry.file (word source.entry.bytes.now name.now)) }
{
    add_text(source, source.text(name), name.start, names)
}

/// What declares names in the list in which it stands.
pub(crate) trait Declares {
    ghost use Rattle.std.specs.Prelude.{◌≡◌, ◌++◌, ℕ, List, OnOk, map};
    ghost use Rattle.repeated_names.specs.Names.{named};
    ghost use Rattle.source_trees.specs.Words.{Word};
    ghost use Rattle.source_names.specs.Names.{words_at};

    /// The names, by the source.
    ghost words: { List ℕ → Self → List Word };

    /// Adds the names at their places, apart from those that are blank.
    fn add_to<'s>(&self, source: Source<'s>, names: &mut Vec<NameAt<'s>>) -> Result<(), AllocError>
        ensures { OnOk result (map named names.new.items ≡ map named names.old.items
            ++ words_at source.entry.file (words source.entry.bytes.now self.now)) };
}

/// Adds the names that the items of a list declare in it.
pub(crate) fn add_all<'s, T: Declares>(
    items: &[T],
    source: Source<'s>,
    names: &mut Vec<NameAt<'s>>,
) -> Result<(), AllocError>
    ensures { OnOk result (map named names.new.items ≡ map named names.old.items
        ++ words_at source.entry.file (flat_map (T.words source.entry.bytes.now) items.now)) }
{
    for item in items {
        item.add_to(source, names)?;
    }
    Ok(())
}

/// The first place at which a name of a list is declared again.
pub(crate) fn first_repeated<T: Declares>(
    alloc: Global,
    source: Source<'_>,
    items: &[T],
) -> Result<Option<Place>, AllocError>
    ensures { IfOk result (λ x. x ≡ first (repeats (words_at source.entry.file
        (flat_map (T.words source.entry.bytes.now) items.now)))) }
{
    let mut names = Vec::new(alloc);
    add_all(items, source, &mut names)?;
    first_repeat(alloc, names.as_slice())
}

impl Declares for Ident {
    ghost use Rattle.std.specs.Prelude.{[], ◌∷◌};
    ghost use Rattle.source_trees.specs.Words.{word};

    ghost words = { λ source name. word source name ∷ [] };

    fn add_to<'s>(
        &self,
        source: Source<'s>,
        names: &mut Vec<NameAt<'s>>,
    ) -> Result<(), AllocError> {
        add_name(source, self, names)
    }
}

impl Declares for ParamExpr {
    ghost use Rattle.source_trees.specs.Trees.{written_param};
    ghost use Rattle.source_names.specs.Duplicates.{param_words};

    ghost words = { λ source param. param_words (written_param source param) };

    fn add_to<'s>(
        &self,
        source: Source<'s>,
        names: &mut Vec<NameAt<'s>>,
    ) -> Result<(), AllocError> {
        add_all(self.names.as_slice(), source, names)
    }
}

impl Declares for TParam {
    ghost use Rattle.source_trees.specs.Files.{written_tparam};

    ghost words = { λ source tparam. (written_tparam source tparam).names };

    fn add_to<'s>(
        &self,
        source: Source<'s>,
        names: &mut Vec<NameAt<'s>>,
    ) -> Result<(), AllocError> {
        add_all(self.names.as_slice(), source, names)
    }
}

/// Adds the name of a type that is written with its name alone, or behind a package.
fn add_named<'s>(
    ty: &TypeExpr,
    source: Source<'s>,
    names: &mut Vec<NameAt<'s>>,
) -> Result<(), AllocError>
    ensures { OnOk result (map named names.new.items ≡ map named names.old.items
        ++ words_at source.entry.file (named_word (written_type source.entry.bytes.now ty.now))) }
{
    match ty {
        TypeExpr::Name { name, .. } => add_name(source, &name.name, names),
        _ => Ok(()),
    }
}

/// Adds the name of an embedded field.
fn add_embedded<'s>(
    ty: &TypeExpr,
    source: Source<'s>,
    names: &mut Vec<NameAt<'s>>,
) -> Result<(), AllocError>
    ensures { OnOk result (map named names.new.items ≡ map named names.old.items
        ++ words_at source.entry.file (embedded_word (written_type source.entry.bytes.now ty.now))) }
{
    match ty {
        TypeExpr::Pointer { ty, .. } => add_named(ty.get(), source, names),
        _ => add_named(ty, source, names),
    }
}

impl Declares for FieldExpr {
    ghost use Rattle.source_trees.specs.Trees.{written_field};
    ghost use Rattle.source_names.specs.Duplicates.{field_words};

    ghost words = { λ source field. field_words (written_field source field) };

    fn add_to<'s>(
        &self,
        source: Source<'s>,
        names: &mut Vec<NameAt<'s>>,
    ) -> Result<(), AllocError> {
        if self.names.is_empty() {
            add_embedded(&self.ty, source, names)
        } else {
            add_all(self.names.as_slice(), source, names)
        }
    }
}

impl Declares for ElemExpr {
    ghost use Rattle.source_trees.specs.Trees.{written_elem};
    ghost use Rattle.source_names.specs.Duplicates.{elem_words};

    ghost words = { λ source elem. elem_words (written_elem source elem) };

    fn add_to<'s>(
        &self,
        source: Source<'s>,
        names: &mut Vec<NameAt<'s>>,
    ) -> Result<(), AllocError> {
        match self {
            ElemExpr::Method { name, .. } => add_name(source, name, names),
            ElemExpr::Embedded { .. } => Ok(()),
        }
    }
}

/// Adds the name of a function, unless that is `init`. A method declares no name of the package.
fn add_func<'s>(
    func: &FuncDecl,
    source: Source<'s>,
    names: &mut Vec<NameAt<'s>>,
) -> Result<(), AllocError>
    ensures { OnOk result (map named names.new.items ≡ map named names.old.items ++ words_at source.entry.file
        (func_words (receiver_if_any source.entry.bytes.now func.now.receiver)
        (word source.entry.bytes.now func.now.name))) }
{
    if func.receiver.is_some() || source.text(&func.name) == b"init".as_slice() {
        return Ok(());
    }
    add_name(source, &func.name, names)
}

impl Declares for Top {
    ghost use Rattle.std.specs.Prelude.{[]};
    ghost use Rattle.source_trees.specs.Files.{written_top};
    ghost use Rattle.source_names.specs.Names.{top_words};

    ghost words = { λ source top. top_words (written_top source [] 0 top) };

    fn add_to<'s>(
        &self,
        source: Source<'s>,
        names: &mut Vec<NameAt<'s>>,
    ) -> Result<(), AllocError> {
        match self {
            Top::Constant(constants) => add_all(constants.names.as_slice(), source, names),
            Top::Var(variables) => add_all(variables.names.as_slice(), source, names),
            Top::Defined(declared) | Top::Alias(declared) => add_name(
                source,
                &declared.name,
                names,
            ),
            Top::Func(func) => add_func(func, source, names),
        }
    }
}
