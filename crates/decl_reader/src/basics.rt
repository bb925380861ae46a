//! The predeclared types to which named types come down.

ghost use Rattle.std.specs.Prelude.{◌≡◌};

use code_tables::Basic;

/// Tells to which predeclared type a named type comes down.
pub trait Basics {
    ghost use Rattle.decl_spelling.specs.Sections.{Basics as Meaning};

    /// What it tells of a package's path and a name in that package.
    ghost meaning: { Self → Meaning };

    /// The predeclared type to which a defined type or an alias comes down, if it does. It takes no memory.
    fn basic_of(&self, path: &[u8], name: &[u8]) -> Option<Basic>
        ensures { result ≡ meaning self.now path.now name.now };
}
