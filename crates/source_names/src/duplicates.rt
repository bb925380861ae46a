//! Names that are declared twice, or that may not be declared.

ghost use Rattle.std.specs.Prelude.{◌≡◌, ℕ, List, IfOk, map, option_map};
ghost use Rattle.go_syntax.specs.declared.tree.Top.{Top as TopTree};
ghost use Rattle.repeated_names.specs.Firsts.{first};
ghost use Rattle.repeated_names.specs.Names.{named};
ghost use Rattle.repeated_names.specs.Repeats.{clashes, repeats};
ghost use Rattle.source_places.specs.declared.places.Found.{Found as FoundAt};
ghost use Rattle.source_places.specs.Places.{least};
ghost use Rattle.source_places.specs.Stages.{IsStage};
ghost use Rattle.source_trees.specs.Files.{receiver_if_any, written_file, written_func, written_top};
ghost use Rattle.source_trees.specs.Trees.{written_sig, written_type};
ghost use Rattle.source_walk.specs.Rows.{written_parsed};
ghost use Rattle.source_walk.specs.Spots.{receiver_words};
ghost use Rattle.source_names.specs.Duplicates.{duplicates, duplicates_found, found_at, imports_named, in_func};
ghost use Rattle.source_names.specs.Duplicates.{first_clause, in_sig, in_top, in_type, other_package};
ghost use Rattle.source_names.specs.Duplicates.{package_duplicates};
ghost use Rattle.source_names.specs.Names.{files_named, words_at};
ghost use Rattle.source_scopes.specs.Imports.{text_if_any};

use crate::declared::{add_all, first_repeated};
use crate::imports::names_by_file;
use crate::inits::{init_of_imports, init_of_top};
use go_syntax::{Expr, FuncDecl, Receiver, SigExpr, SourceFile, Top, TypeExpr};
use repeated_names::{NameAt, first_clash, first_of_two};
use source_places::{Found, Place, StageError, earlier, settle};
use source_scopes::Packages;
use source_trees::text;
use source_walk::{Around, ParsedFile, Rule, Source, Spot, first_place};
use std::alloc::{AllocError, Global};

/// A place with its cause.
fn found<C: Drop>(cause: C, place: Option<Place>) -> Option<Found<C>>
    ensures { result ≡ option_map (found_at cause) place }
{
    match place {
        Some(place) => Some(Found { place, cause }),
        None => None,
    }
}

/// The first parameter or result of a signature whose name is declared again.
#[tactic(auto, using(source_walk::proofs::SigLaws::plain_sig_out))]
fn first_in_sig(
    alloc: Global,
    source: Source<'_>,
    sig: &SigExpr,
) -> Result<Option<Place>, AllocError>
    ensures { IfOk result (λ x. x ≡ first (in_sig source.entry.file (written_sig source.entry.bytes.now sig.now))) }
{
    let in_params = first_repeated(alloc, source, sig.params.as_slice())?;
    let in_results = first_repeated(alloc, source, sig.results.as_slice())?;
    Ok(first_of_two(in_params, in_results))
}

/// The first parameter of a receiver whose name is declared again.
fn first_in_receiver(
    alloc: Global,
    source: Source<'_>,
    receiver: &Option<Receiver>,
) -> Result<Option<Place>, AllocError>
    ensures { IfOk result (λ x. x ≡ first (repeats (words_at source.entry.file
        (receiver_words (receiver_if_any source.entry.bytes.now receiver.now))))) }
{
    match receiver {
        Some(receiver) => first_repeated(alloc, source, receiver.args.as_slice()),
        None => Ok(None),
    }
}

/// The first name that a function or method declares again in one of its lists.
fn first_in_func(
    alloc: Global,
    source: Source<'_>,
    func: &FuncDecl,
) -> Result<Option<Place>, AllocError>
    ensures { IfOk result (λ x. x ≡ first (in_func source.entry.file (written_func source.entry.bytes.now func.now))) }
{
    let in_receiver = first_in_receiver(alloc, source, &func.receiver)?;
    let in_tparams = first_repeated(alloc, source, func.tparams.as_slice())?;
    let in_sig = first_in_sig(alloc, source, &func.sig)?;
    Ok(first_of_two(first_of_two(in_receiver, in_tparams), in_sig))
}

/// The first name that a declaration declares again in one of its lists.
fn first_in_top(alloc: Global, source: Source<'_>, top: &Top) -> Result<Option<Place>, AllocError>
    ensures { IfOk result (λ x. (all : List TopTree) (k : ℕ)
        → x ≡ first (in_top source.entry.file (written_top source.entry.bytes.now all k top.now))) }
{
    match top {
        Top::Constant(_) | Top::Var(_) => Ok(None),
        Top::Defined(declared) | Top::Alias(declared) => first_repeated(
            alloc,
            source,
            declared.tparams.as_slice(),
        ),
        Top::Func(func) => first_in_func(alloc, source, func),
    }
}

/// The first name that is declared again in a list of a type, apart from the types inside.
#[tactic(auto, using(source_trees::proofs::Equations::types))]
fn first_in_type(
    alloc: Global,
    source: Source<'_>,
    ty: &TypeExpr,
) -> Result<Option<Place>, AllocError>
    ensures { IfOk result (λ x. x ≡ first (in_type source.entry.file (written_type source.entry.bytes.now ty.now))) }
{
    match ty {
        TypeExpr::Func { sig, .. } => first_in_sig(alloc, source, sig),
        TypeExpr::Struct { fields, .. } => first_repeated(alloc, source, fields.as_slice()),
        TypeExpr::Interface { elems, .. } => first_repeated(alloc, source, elems.as_slice()),
        _ => Ok(None),
    }
}

/// The rule that no name is declared twice inside of a declaration, and that none but functions is called `init`, with
/// the cause that comes with its places.
#[derive(Drop)]
struct InnerNames<C> {
    alloc: Global,
    cause: C,
}

impl<C: Copy + Drop> Rule for InnerNames<C> {
    ghost use Rattle.source_names.specs.Duplicates.{duplicate_at};

    type Cause = C;

    type Stop = AllocError;

    ghost places = { λ rule. duplicate_at rule.cause };

    fn at_file(
        &mut self,
        number: usize,
        source: &[u8],
        tree: &SourceFile,
    ) -> Result<Option<Found<C>>, AllocError> {
        let source = Source {
            file: number,
            bytes: source,
        };
        Ok(found(self.cause, init_of_imports(source, tree.imports.as_slice())))
    }

    fn at_top(&mut self, around: &Around<'_>, spot: Spot) -> Result<Option<Found<C>>, AllocError> {
        let source = Source {
            file: spot.file,
            bytes: around.source,
        };
        let again = first_in_top(self.alloc, source, around.top)?;
        Ok(found(
            self.cause,
            first_of_two(again, init_of_top(source, around.top)),
        ))
    }

    fn at_type(
        &mut self,
        around: &Around<'_>,
        spot: Spot,
        ty: &TypeExpr,
    ) -> Result<Option<Found<C>>, AllocError> {
        let source = Source {
            file: spot.file,
            bytes: around.source,
        };
        Ok(found(self.cause, first_in_type(self.alloc, source, ty)?))
    }

    fn at_expr(
        &mut self,
        _: &Around<'_>,
        _: Spot,
        _: &Expr,
    ) -> Result<Option<Found<C>>, AllocError> {
        Ok(None)
    }
}

/// The names that the files of a package declare in it.
fn names_of_package<'s>(
    alloc: Global,
    files: &'s [ParsedFile<'s>],
) -> Result<Vec<NameAt<'s>>, AllocError>
    ensures { IfOk result (λ names. map named names.items ≡ files_named 0 (map written_parsed files.now)) }
{
    let mut names = Vec::new(alloc);
    for (number, file) in files.iter().enumerate() {
        let source = Source {
            file: number,
            bytes: file.source,
        };
        add_all(file.tree.tops.as_slice(), source, &mut names)?;
    }
    Ok(names)
}

/// The first name that the package or a file's imports declare again.
fn first_in_package<'s, P: Packages>(
    alloc: Global,
    packages: &'s P,
    files: &'s [ParsedFile<'s>],
) -> Result<Option<Place>, AllocError>
    ensures { IfOk result (λ x. x ≡ first (clashes (files_named 0 (map written_parsed files.now))
        (imports_named (P.names packages.now) 0 (map written_parsed files.now)))) }
{
    let names = names_of_package(alloc, files)?;
    let imports = names_by_file(alloc, packages, files)?;
    first_clash(alloc, names.as_slice(), imports.as_slice())
}

/// The place of a package clause with another name.
fn other_package(name: &[u8], source: Source<'_>, file: &SourceFile) -> Option<Place>
    ensures { result ≡ first (other_package name.now source.entry.file (written_file source.entry.bytes.now file.now)) }
{
    if source.text(&file.name) == name {
        None
    } else {
        Some(source.place(&file.name))
    }
}

/// The name in the package clause of the first file.
#[tactic(auto, unfolding(source_trees::specs::Words::word))]
fn first_clause<'s>(files: &[ParsedFile<'s>]) -> Option<&'s [u8]>
    ensures { text_if_any result ≡ first_clause (map written_parsed files.now) }
{
    match files {
        [] => None,
        [first, ..] => Some(text(first.source, first.tree.name.start, first.tree.name.end)),
    }
}

/// The first package clause whose name isn't that of the first file.
fn first_other_package(files: &[ParsedFile<'_>]) -> Option<Place>
    ensures { result ≡ first (package_duplicates (map written_parsed files.now)) }
{
    let name = first_clause(files)?;
    let mut found = None;
    for (number, file) in files.iter().enumerate() {
        let source = Source {
            file: number,
            bytes: file.source,
        };
        found = first_of_two(found, other_package(name, source, &file.tree));
    }
    found
}

/// The first place at which a name is declared again, or may not be declared.
fn first_duplicate<'s, C: Copy + Drop, P: Packages>(
    alloc: Global,
    cause: C,
    packages: &'s P,
    files: &'s [ParsedFile<'s>],
) -> Result<Option<Found<C>>, AllocError>
    ensures { IfOk result (λ x. x
        ≡ least (duplicates_found cause (P.names packages.now) (map written_parsed files.now))) }
{
    let clash = first_in_package(alloc, packages, files)?;
    let outer = first_of_two(clash, first_other_package(files));
    let inner = first_place(InnerNames { alloc, cause }, files)?;
    Ok(earlier(found(cause, outer), inner))
}

/// Goes on where no name is declared twice in the files of a package and each may be declared, and else refuses, under
/// the code that is given for this, at the first one, with the cause that is given. Files are in the order in which
/// they count. An import without a name of its own declares that of the package at its path, if this is known.
pub fn check_duplicates<'s, K: Drop, C: Copy + Drop, P: Packages>(
    alloc: Global,
    code: K,
    cause: C,
    packages: &'s P,
    files: &'s [ParsedFile<'s>],
) -> Result<(), StageError<K, C, AllocError>>
    ensures { (places : K → List (FoundAt C))
        → places code ≡ duplicates_found cause (P.names packages.now) (map written_parsed files.now)
        → IsStage places code result }
{
    match first_duplicate(alloc, cause, packages, files) {
        Ok(first) => settle(code, first),
        Err(error) => Err(StageError::Failed(error)),
    }
}
