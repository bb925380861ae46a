//! The roles in which names may be used.

ghost use Rattle.std.specs.Prelude.{◌≡◌};
ghost use Rattle.dangling_references.specs.Dangling.{Entries};
ghost use Rattle.dangling_types.specs.FirstDangling.{role_behind, is_role};

use environments::Role;
use go_values::QName;

/// Tells in which role a name may be used.
pub trait Roles {
    /// What stands behind names.
    ghost entries: { Self → Entries };

    /// What it needs to know, so that it can tell.
    ghost stands: { Self → Type 0 };

    /// The one role in which what stands behind the name may be used, if there is one. It takes no memory.
    fn role(&self, q: &QName) -> Option<Role>
        requires stands { stands self.now }
        ensures { result ≡ role_behind (entries self.now q.now) };
}

/// Whether a role is this one.
pub(crate) fn is_role(own: Option<Role>, role: Role) -> bool
    ensures { result ≡ is_role own role }
{
    match (own, role) {
        (Some(Role::Defined), Role::Defined)
        | (Some(Role::Parameter), Role::Parameter)
        | (Some(Role::Alias), Role::Alias) => true,
        (Some(Role::DefinedBase(own)), Role::DefinedBase(count)) => own == count,
        (Some(Role::AliasBase(own)), Role::AliasBase(count)) => own == count,
        _ => false,
    }
}
