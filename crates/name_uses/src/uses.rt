ghost use Rattle.std.specs.Prelude.{◌≡◌, ℕ, List};
ghost use Rattle.name_uses.specs.Uses.{is_wrong};
ghost use Rattle.source_scopes.specs.Scopes.{scopes_in};
ghost use Rattle.source_trees.specs.Words.{Word};

use source_scopes::{PackageScopes, Resolution};

/// What may be wrong with a name where it stands.
#[derive(Clone, Copy, Debug, PartialEq, Eq)]
pub enum UseFault {
    /// It means nothing.
    Undefined,
    /// A type is wanted, and it is none.
    NotAType,
    /// A constant is wanted, and it is none.
    NotAConstant,
}

/// What is wanted of a name.
#[derive(Clone, Copy, Debug, PartialEq, Eq)]
pub(crate) enum Wanted {
    AType,
    /// A constant, where `iota` has a value or not.
    AConstant(bool),
}

/// Whether what a name comes to has this fault, where this is wanted.
pub(crate) fn is_wrong(
    scopes: &PackageScopes<'_>,
    fault: UseFault,
    wanted: Wanted,
    found: Resolution,
) -> bool
    ensures { (file : ℕ) (parameters : List Word)
        → result ≡ is_wrong fault (scopes_in scopes.now file parameters) wanted found }
{
    match (fault, wanted, found) {
        (UseFault::Undefined, _, Resolution::Unknown) => true,
        (UseFault::NotAType, Wanted::AType, Resolution::NoPackage) => true,
        (UseFault::NotAType, Wanted::AType, Resolution::Own(meaning)) => !scopes.is_type(meaning),
        (UseFault::NotAConstant, Wanted::AConstant(_), Resolution::NoPackage) => true,
        (UseFault::NotAConstant, Wanted::AConstant(iota), Resolution::Own(meaning)) => {
            !scopes.is_constant(meaning, iota)
        }
        _ => false,
    }
}
