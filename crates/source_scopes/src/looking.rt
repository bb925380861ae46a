//! Looking up what a name means where it stands.

ghost use Rattle.std.specs.Prelude.{◌≡◌, ℕ, IfOk, List, [], None, map, option_map, slice_get};
ghost use Rattle.go_expr_syntax.specs.PlainExprs.{plain_name};
ghost use Rattle.source_trees.specs.Words.{Word, word};
ghost use Rattle.source_scopes.specs.Imports.{imports_if_any, words_if_any};
ghost use Rattle.source_scopes.specs.Scopes.{declared_by, is_constant, is_type, meaning, of_import};
ghost use Rattle.source_scopes.specs.Scopes.{offered_by, or_nothing, or_universe, parameter_names, parameters_at};
ghost use Rattle.source_scopes.specs.Scopes.{position, resolved, scopes_at, scopes_in};
ghost use Rattle.source_walk.specs.Rows.{written_parsed};

use crate::imports::{Packages, imports_by_file};
use crate::objects::{ObjectAt, ObjectKind, objects_of};
use crate::parameters::parameters_by_file;
use crate::table::Table;
use code_tables::Basic;
use go_syntax::NameExpr;
use source_walk::{ParsedFile, Source};
use std::alloc::{AllocError, Global};
use std::marker::Model;
use universe_names::{Predeclared, predeclared_meaning};

/// What a name that stands alone means. A type parameter is one of the declaration, an object one of the package, and
/// an imported package one of the file, each by its number.
#[derive(Clone, Copy, Debug, PartialEq, Eq)]
pub enum Meaning {
    Parameter(usize),
    Object(usize),
    Package(usize),
    Predeclared(Predeclared),
}

/// What a name comes to as it is written, with a package before a dot or without one.
#[derive(Clone, Copy, Debug, PartialEq, Eq)]
pub enum Resolution {
    /// It means nothing, or what stands before the dot does, or the package doesn't offer it.
    Unknown,
    /// What stands before the dot is no imported package.
    NoPackage,
    Own(Meaning),
    /// It is a name of the imported package with this number.
    Foreign(usize),
}

/// What the files of a package declare in it, what each of them imports, and the type parameters of each declaration.
#[derive(Drop)]
pub struct PackageScopes<'s> {
    objects: Table<'s, ObjectAt>,
    imports: Vec<Table<'s, &'s [u8]>>,
    parameters: Vec<Vec<Table<'s, u32>>>,
}

impl<'s> Model for PackageScopes<'s> {
    ghost use Rattle.std.specs.Prelude.{map};
    ghost use Rattle.source_scopes.specs.Imports.{imported_table, parameter_table};
    ghost use Rattle.source_scopes.specs.Objects.{object_at};
    ghost use Rattle.source_scopes.specs.Scopes.{Declared};

    ghost Value = { Declared };

    ghost view = { λ s. record {
      objects = map object_at s.objects;
      imports = map imported_table s.imports.items;
      parameters = map (λ tables. map parameter_table tables.items) s.parameters.items;
    } };
}

/// What a name means that no type parameter, object or import of the file has.
fn predeclared(text: &[u8]) -> Option<Meaning>
    ensures { result ≡ or_universe text.now None }
{
    match predeclared_meaning(text) {
        Some(found) => Some(Meaning::Predeclared(found)),
        None => None,
    }
}

impl<'s> PackageScopes<'s> {
    /// What these files declare and import. An import without a name of its own has the name of the package at its
    /// path, if that is known.
    pub fn new<P: Packages>(
        alloc: Global,
        packages: &'s P,
        files: &'s [ParsedFile<'s>],
    ) -> Result<PackageScopes<'s>, AllocError>
        ensures { IfOk result (λ scopes. scopes ≡ declared_by (P.names packages.now) (map written_parsed files.now)) }
    {
        let objects = objects_of(alloc, files)?;
        let imports = imports_by_file(alloc, packages, files)?;
        let parameters = parameters_by_file(alloc, files)?;
        Ok(PackageScopes {
            objects,
            imports,
            parameters,
        })
    }

    /// The type parameters of the declaration with this number in the file with this number.
    #[tactic(auto, using(crate::proofs::TableLaws::names))]
    fn parameters(&self, file: usize, top: usize) -> Option<&Table<'s, u32>>
        ensures { words_if_any result ≡ parameters_at self.now file top }
    {
        self.parameters.get(file)?.get(top)
    }

    /// The number of the first type parameter of a declaration that has this name.
    #[tactic(auto, using(crate::proofs::TableLaws::names))]
    fn parameter(&self, file: usize, top: usize, text: &[u8]) -> Option<usize>
        ensures { result ≡ position text.now (parameter_names (scopes_at self.now file top)) }
    {
        self.parameters(file, top)?.number(text)
    }

    /// What a name means that stands alone in the declaration with this number, in the file with this number: the first
    /// thing of that name, from the innermost scope outwards (docs/LANGUAGE.md, What a name means). It takes the time
    /// of three look-ups by hash.
    pub fn meaning(&self, file: usize, top: usize, text: &[u8]) -> Option<Meaning>
        ensures { result ≡ meaning (scopes_at self.now file top) text.now }
    {
        if text == b"_".as_slice() {
            return None;
        }
        match self.parameter(file, top, text) {
            Some(number) => Some(Meaning::Parameter(number)),
            None => self.meaning_outside(file, text),
        }
    }

    /// What a name means in the file with this number where no type parameters are in scope.
    pub fn meaning_outside(&self, file: usize, text: &[u8]) -> Option<Meaning>
        ensures { result ≡ meaning (scopes_in self.now file []) text.now }
    {
        if text == b"_".as_slice() {
            return None;
        }
        if let Some(number) = self.objects.number(text) {
            return Some(Meaning::Object(number));
        }
        match self.package(file, text) {
            Some(number) => Some(Meaning::Package(number)),
            None => predeclared(text),
        }
    }

    /// The packages that the file with this number imports.
    #[tactic(auto, using(crate::proofs::TableLaws::names))]
    fn imports(&self, file: usize) -> Option<&Table<'s, &'s [u8]>>
        ensures { imports_if_any result ≡ or_nothing (slice_get self.now.imports file) }
    {
        self.imports.get(file)
    }

    /// The number of the first package that a file imports under this name.
    #[tactic(auto, using(crate::proofs::TableLaws::names))]
    fn package(&self, file: usize, text: &[u8]) -> Option<usize>
        ensures { result ≡ position text.now (map (λ i. i.name) (or_nothing (slice_get self.now.imports file))) }
    {
        self.imports(file)?.number(text)
    }
}

/// A name of the package that a file imports with this number.
fn resolve_in<P: Packages>(packages: &P, number: usize, path: &[u8], name: &[u8]) -> Resolution
    ensures { result ≡ offered_by (P.offers packages.now) number name.now path.now }
{
    if path == b"unsafe".as_slice() {
        if name == b"Pointer".as_slice() {
            Resolution::Own(Meaning::Predeclared(Predeclared::Basic(Basic::UnsafePointer)))
        } else {
            Resolution::Unknown
        }
    } else if packages.offers(path, name) {
        Resolution::Foreign(number)
    } else {
        Resolution::Unknown
    }
}

impl<'s> PackageScopes<'s> {
    /// What a name of a file comes to as it is written, in the declaration with this number.
    pub fn resolve<P: Packages>(
        &self,
        packages: &P,
        source: Source<'_>,
        top: usize,
        name: &NameExpr,
    ) -> Resolution
        ensures { result ≡ resolved (P.offers packages.now) (scopes_at self.now source.entry.file top)
            (plain_name (word source.entry.bytes.now) name.now) }
    {
        let text = source.text(&name.name);
        let Some(qualifier) = &name.package else {
            return match self.meaning(source.file, top, text) {
                Some(meaning) => Resolution::Own(meaning),
                None => Resolution::Unknown,
            };
        };
        match self.meaning(source.file, top, source.text(qualifier)) {
            Some(Meaning::Package(number)) => self.resolve_behind(
                packages,
                source.file,
                number,
                text,
            ),
            Some(_) => Resolution::NoPackage,
            None => Resolution::Unknown,
        }
    }

    /// A name behind that of the package that a file imports with this number.
    fn resolve_behind<P: Packages>(
        &self,
        packages: &P,
        file: usize,
        number: usize,
        name: &[u8],
    ) -> Resolution
        ensures { result ≡ of_import (P.offers packages.now) number name.now
            (slice_get (or_nothing (slice_get self.now.imports file)) number) }
    {
        let Some(imports) = self.imports.get(file) else {
            return Resolution::Unknown;
        };
        match imports.items().get(number) {
            Some(import) => resolve_in(packages, number, import.what, name),
            None => Resolution::Unknown,
        }
    }

    fn kind(&self, number: usize) -> Option<ObjectKind>
        ensures { result ≡ option_map (λ o. o.kind) (slice_get self.now.objects number) }
    {
        Some(self.objects.items().get(number)?.what.kind)
    }

    /// Whether what a name means is a type.
    pub fn is_type(&self, meaning: Meaning) -> bool
        ensures { (file : ℕ) (parameters : List Word) → result ≡ is_type (scopes_in self.now file parameters) meaning }
    {
        match meaning {
            Meaning::Parameter(_) => true,
            Meaning::Object(number) => matches!(
                self.kind(number),
                Some(ObjectKind::Defined | ObjectKind::Alias)
            ),
            Meaning::Package(_) => false,
            Meaning::Predeclared(found) => matches!(found, Predeclared::Basic(_)),
        }
    }

    /// Whether what a name means is a constant, where `iota` has a value or not.
    pub fn is_constant(&self, meaning: Meaning, iota: bool) -> bool
        ensures { (file : ℕ) (parameters : List Word)
            → result ≡ is_constant iota (scopes_in self.now file parameters) meaning }
    {
        match meaning {
            Meaning::Parameter(_) | Meaning::Package(_) => false,
            Meaning::Object(number) => matches!(self.kind(number), Some(ObjectKind::Constant)),
            Meaning::Predeclared(Predeclared::Iota) => iota,
            Meaning::Predeclared(found) => matches!(found, Predeclared::Truth(_)),
        }
    }
}
