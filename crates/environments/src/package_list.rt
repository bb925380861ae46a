ghost use Rattle.std.specs.Prelude.{◌≡◌, option_map};
ghost use Rattle.environments.specs.PackageLists.{first_at};

use crate::declaring::{Env, EnvError, unknown};
use crate::given::Given;
use crate::overlay::own;
use crate::packages::Package;
use go_values::QName;
use type_terms::Arena;

/// The packages of a list: a name is that of the first with its path. Costs a comparison of paths for each package, and
/// then a search by halves.
#[derive(Clone, Copy, Debug)]
pub struct PackageList<'a> {
    pub packages: &'a [Package],
}

impl<'a> Env<'a> for PackageList<'a> {
    ghost use Rattle.std.specs.Prelude.{None};
    ghost use Rattle.environments.specs.PackageLists.{list_entries, list_names, list_packages, list_stands};
    ghost use Rattle.environments.specs.PackageListLaws.{list_finite, list_proper, list_stays};

    ghost entries = { λ list nodes. list_entries list.packages.now nodes };

    ghost names = { λ list. list_names list.packages.now };

    ghost packages = { λ list. list_packages list.packages.now };

    ghost stands = { λ list nodes. list_stands nodes list.packages.now };

    ghost asked = { λ list. None };

    ghost full = { λ list. None };

    fn declare(&mut self, q: &QName, _arena: &mut Arena) -> Result<Given<'a>, EnvError> {
        match first_at(self.packages, q.path.as_slice()) {
            Some(whole) => match own(whole, q) {
                Ok(decl) => Ok(Given::Lent(decl)),
                Err(fault) => Err(fault),
            },
            None => Err(unknown(q)),
        }
    }

    fn package(&self, path: &[u8]) -> Option<&[u8]> {
        let whole = first_at(self.packages, path)?;
        Some(whole.name.as_slice())
    }

    ghost finite = { λ list. list_finite list.packages.now };

    ghost proper = { λ list. list_proper list.packages.now };

    ghost stays = { λ list. list_stays list.packages.now };
}

/// The first package with the path.
fn first_at<'a>(packages: &'a [Package], path: &[u8]) -> Option<&'a Package>
    ensures { option_map (λ whole. whole.now) result ≡ first_at packages.now path.now }
{
    for whole in packages {
        if path == whole.path.as_slice() {
            return Some(whole);
        }
    }
    None
}
