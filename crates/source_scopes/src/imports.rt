//! The packages that files import.

ghost use Rattle.std.specs.Prelude.{◌≡◌, IfOk, map};
ghost use Rattle.source_scopes.specs.Imports.{imported_table, name_or_package, text_if_any};
ghost use Rattle.source_scopes.specs.Objects.{imported_as, imports_in};
ghost use Rattle.source_trees.specs.Files.{written_import};
ghost use Rattle.source_trees.specs.Words.{word_if_any};
ghost use Rattle.source_walk.specs.Rows.{written_parsed};

use crate::table::{Item, Table};
use go_syntax::Import;
use source_walk::{ParsedFile, Source};
use std::alloc::{AllocError, Global};

/// The packages that can be imported.
pub trait Packages {
    ghost use Rattle.std.specs.Prelude.{◌≡◌, ℕ, Bool, List, Option};
    ghost use Rattle.source_scopes.specs.Imports.{text_if_any};

    /// The name of the package at a path, where one is known.
    ghost names: { Self → List ℕ → Option (List ℕ) };

    /// Whether the package at a path lists a name and exports it.
    ghost offers: { Self → List ℕ → List ℕ → Bool };

    /// The name of the package at a path.
    fn package_name<'n>(&'n self, path: &[u8]) -> Option<&'n [u8]>
        ensures { text_if_any result ≡ names self.now path.now };

    /// Whether the package at a path lists a name and exports it.
    fn offers(&self, path: &[u8], name: &[u8]) -> bool
        ensures { result ≡ offers self.now path.now name.now };
}

/// The name that an import has in its file: its own, or that of the package, where one is known.
fn import_name<'s, P: Packages>(
    packages: &'s P,
    source: Source<'s>,
    import: &'s Import,
) -> Option<&'s [u8]>
    ensures { text_if_any result ≡ name_or_package (word_if_any source.entry.bytes.now import.now.name)
        (P.names packages.now import.now.path) }
{
    match &import.name {
        Some(name) => Some(source.text(name)),
        None => packages.package_name(import.path.as_slice()),
    }
}

/// The paths of the packages that a file imports, by their names there.
fn imports_of<'s, P: Packages>(
    alloc: Global,
    packages: &'s P,
    source: Source<'s>,
    imports: &'s [Import],
) -> Result<Table<'s, &'s [u8]>, AllocError>
    ensures { IfOk result (λ found. map imported_as found
        ≡ imports_in (P.names packages.now) (map (written_import source.entry.bytes.now) imports.now)) }
{
    let mut found = Vec::new(alloc);
    for import in imports {
        if let Some(name) = import_name(packages, source, import) {
            let what = import.path.as_slice();
            found.push(Item { name, what })?;
        }
    }
    Table::new(alloc, found)
}

/// The paths of the packages that each file imports, by their names there.
pub(crate) fn imports_by_file<'s, P: Packages>(
    alloc: Global,
    packages: &'s P,
    files: &'s [ParsedFile<'s>],
) -> Result<Vec<Table<'s, &'s [u8]>>, AllocError>
    ensures { IfOk result (λ tables. map imported_table tables.items
        ≡ map (λ f. imports_in (P.names packages.now) f.imports) (map written_parsed files.now)) }
{
    let mut tables = Vec::new(alloc);
    for (number, file) in files.iter().enumerate() {
        let source = Source {
            file: number,
            bytes: file.source,
        };
        tables.push(imports_of(alloc, packages, source, file.tree.imports.as_slice())?)?;
    }
    Ok(tables)
}
