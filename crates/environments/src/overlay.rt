ghost use Rattle.std.specs.Prelude.{◌≡◌, ◌⊎◌, None, Some, IfOk, IfErr, nat_eq, cond};
ghost use Rattle.environments.specs.Packages.{IsRising, name_of, package_decl};

use crate::declaring::{Env, EnvError, unknown};
use crate::given::Given;
use crate::packages::Package;
use go_values::QName;
use type_terms::{Arena, DeclNode};

/// A package over an environment: names of the package's own path are the package's, and all others the
/// environment's.
#[derive(Drop)]
pub struct Over<'a, 'b, E: Env<'a>> {
    pub package: &'a Package,
    pub base: &'b mut E,
}

impl<'a, 'b, E: Env<'a>> Env<'a> for Over<'a, 'b, E> {
    ghost use Rattle.std.specs.Prelude.{◌++◌, Some, nat_eq, cond};
    ghost use Rattle.std.specs.Cmp.Lexicographic.{pointwise};
    ghost use Rattle.environments.specs.Packages.{PackageStands, package_entry, package_names, over_entries};
    ghost use Rattle.environments.specs.EntryLaws.{package_stays, over_finite, over_proper, over_stays};

    ghost entries = { λ over nodes.
        over_entries over.package.now.path over.package.now.decls.items nodes (E.entries over.base.now nodes) };

    ghost names = { λ over. package_names over.package.now.path over.package.now.decls.items ++ E.names over.base.now };

    ghost packages = { λ over path.
        cond (pointwise nat_eq path over.package.now.path) (Some over.package.now.name)
        (E.packages over.base.now path) };

    ghost stands = { λ over nodes. PackageStands nodes over.package.now × E.stands over.base.now nodes };

    ghost asked = { λ over. E.asked over.base.now };

    ghost full = { λ over. E.full over.base.now };

    fn declare(&mut self, q: &QName, arena: &mut Arena) -> Result<Given<'a>, EnvError> {
        if q.path == self.package.path {
            Ok(Given::Lent(own(self.package, q)?))
        } else {
            self.base.declare(q, arena)
        }
    }

    fn package(&self, path: &[u8]) -> Option<&[u8]> {
        if path == self.package.path.as_slice() {
            Some(self.package.name.as_slice())
        } else {
            self.base.package(path)
        }
    }

    ghost finite = { λ over nodes q entry is.
        over_finite over.package.now.path over.package.now.decls.items (E.names over.base.now)
        (E.entries over.base.now nodes) nodes q entry (E.finite over.base.now nodes q entry) is };

    ghost proper = { λ over nodes q decl stands is.
        over_proper over.package.now.path over.package.now.decls.items (E.entries over.base.now nodes) nodes q decl
        stands.0.decls (E.proper over.base.now nodes q decl stands.1) is };

    ghost stays = { λ over nodes more stands.
        let base = E.stays over.base.now nodes more stands.1 in (
          (package_stays nodes more over.package.now stands.0, base.0),
          over_stays over.package.now.path
              over.package.now.decls.items nodes more stands.0.decls (E.entries over.base.now (nodes ++ more))
              (E.entries over.base.now nodes) base.1,
        ) };
}

/// The declaration that the package has for a name.
pub(crate) fn own<'a>(owner: &'a Package, q: &QName) -> Result<&'a DeclNode, EnvError>
    requires sorted { IsRising name_of owner.now.decls.items }
    ensures found { IfOk result (λ decl. package_decl owner.now.decls.items q.now.name ≡ Some decl.now) }
    ensures missing { IfErr result (λ error. (error ≡ EnvError.OutOfMemory)
        ⊎ ((error ≡ EnvError.Unknown q.now) × (package_decl owner.now.decls.items q.now.name ≡ None))) }
{
    match owner.decl(q.name.as_slice()) {
        Some(decl) => Ok(decl),
        None => Err(unknown(q)),
    }
}
