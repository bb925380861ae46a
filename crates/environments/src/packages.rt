ghost use Rattle.std.specs.Prelude.{◌≡◌, option_map};
ghost use Rattle.std.specs.Cmp.Lexicographic.{slice_cmp};
ghost use Rattle.std.specs.Ordering.{nat_cmp};
ghost use Rattle.environments.specs.Packages.{IsRising, name_of, package_decl};

use go_values::{Bytes, FileInfo};
use std::cmp::Ordering;
use type_terms::DeclNode;

/// A package. Its declarations are sorted by name, each name once, and hold the type parameters under their export
/// names: that of the owner, a dot and its own, as `T.P` or `T.Method.P`. Its imports are sorted paths, each once,
/// without `unsafe`. The lines of a file start at 0 and rise, and none starts behind the file's end. What asks for a
/// package says all this by `PackageStands`.
#[derive(Debug, Drop)]
pub struct Package {
    pub path: Bytes,
    pub name: Bytes,
    pub imports: Vec<Bytes>,
    pub decls: Vec<(Bytes, DeclNode)>,
    pub files: Vec<FileInfo>,
}

impl Package {
    /// The declaration with a name, if there is one. Takes no memory, and one comparison for each halving of the
    /// declarations.
    pub fn decl(&self, name: &[u8]) -> Option<&DeclNode>
        requires sorted { IsRising name_of self.now.decls.items }
        ensures { option_map (λ decl. decl.now) result ≡ package_decl self.now.decls.items name.now }
    {
        let place = self
            .decls
            .binary_search_by(
                |named: &(Bytes, DeclNode)| -> Ordering
                    ensures { result ≡ slice_cmp nat_cmp (name_of named.now) name.entry.now }
                { named.0.as_slice().cmp(name) },
            )
            .ok()?;
        Some(&self.decls[place].1)
    }
}
