ghost use Rattle.std.specs.Prelude.{◌≡◌};
ghost use Rattle.environments.specs.Environments.{given_decl};

use type_terms::DeclNode;

/// A declaration that an environment gives: one that a package lends, or one that was made for the call. So a package's
/// declaration isn't copied at each mention of its name.
#[derive(Debug, Drop)]
pub enum Given<'a> {
    Lent(&'a DeclNode),
    Made(DeclNode),
}

impl Given<'_> {
    /// The declaration. Takes no memory.
    pub fn decl(&self) -> &DeclNode
        ensures { result.now ≡ given_decl self.now }
    {
        match self {
            Given::Lent(decl) => decl,
            Given::Made(decl) => decl,
        }
    }
}
