//! The names that the imports of files declare in them.

ghost use Rattle.std.specs.Prelude.{◌≡◌, ◌++◌, ℕ, List, IfOk, OnOk, map, option_map};
ghost use Rattle.repeated_names.specs.Names.{named, named_group};
ghost use Rattle.source_trees.specs.Files.{written_import};
ghost use Rattle.source_walk.specs.Rows.{written_parsed};
ghost use Rattle.source_names.specs.Duplicates.{import_word, import_words, imports_named};
ghost use Rattle.source_names.specs.Names.{words_at};

use crate::declared::{add_name, add_text};
use go_syntax::Import;
use repeated_names::NameAt;
use source_scopes::Packages;
use source_walk::{ParsedFile, Source};
use std::alloc::{AllocError, Global};

/// Adds the name that an import declares in its file, unless it is blank: its own, or that of the package.
fn add_import<'s, P: Packages>(
    packages: &'s P,
    source: Source<'s>,
    import: &Import,
    names: &mut Vec<NameAt<'s>>,
) -> Result<(), AllocError>
    ensures { OnOk result (map named names.new.items ≡ map named names.old.items ++ words_at source.entry.file
        (import_word import.now.at (written_import source.entry.bytes.now import.now).name
        (P.names packages.now import.now.path))) }
{
    if let Some(name) = &import.name {
        return add_name(source, name, names);
    }
    match packages.package_name(import.path.as_slice()) {
        Some(name) => add_text(source, name, import.at, names),
        None => Ok(()),
    }
}

/// The names that the imports of a file declare in it.
fn imported<'s, P: Packages>(
    alloc: Global,
    packages: &'s P,
    source: Source<'s>,
    imports: &[Import],
) -> Result<Vec<NameAt<'s>>, AllocError>
    ensures { IfOk result (λ names. map named names.items ≡ words_at source.entry.file
        (import_words (P.names packages.now) (map (written_import source.entry.bytes.now) imports.now))) }
{
    let mut names = Vec::new(alloc);
    for import in imports {
        add_import(packages, source, import, &mut names)?;
    }
    Ok(names)
}

/// The names that the imports of each file declare in it, file by file.
pub(crate) fn names_by_file<'s, P: Packages>(
    alloc: Global,
    packages: &'s P,
    files: &[ParsedFile<'s>],
) -> Result<Vec<Vec<NameAt<'s>>>, AllocError>
    ensures { IfOk result (λ groups. map named_group groups.items
        ≡ imports_named (P.names packages.now) 0 (map written_parsed files.now)) }
{
    let mut groups = Vec::new(alloc);
    for (number, file) in files.iter().enumerate() {
        let source = Source {
            file: number,
            bytes: file.source,
        };
        groups.push(imported(alloc, packages, source, file.tree.imports.as_slice())?)?;
    }
    Ok(groups)
}
