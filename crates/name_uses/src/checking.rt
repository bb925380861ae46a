ghost use Rattle.std.specs.Prelude.{◌≡◌, List, Err, map};
ghost use Rattle.source_places.specs.declared.stages.StageError.TheVariants.{Failed};
ghost use Rattle.name_uses.specs.Uses.{wrong_uses};
ghost use Rattle.source_places.specs.declared.places.Found.{Found as FoundAt};
ghost use Rattle.source_places.specs.Stages.{IsStage};
ghost use Rattle.source_walk.specs.Rows.{written_parsed};

use crate::rule::NameUses;
use crate::uses::UseFault;
use source_places::{StageError, settle};
use source_scopes::{PackageScopes, Packages};
use source_walk::{ParsedFile, first_place};

/// Goes on where no name of a package has this fault where it stands, and else refuses, under the code that is given
/// for this, at the first one, with the cause that is given. Files are in the order in which they count, and `scopes`
/// are theirs (docs/LANGUAGE.md, Refusals). It takes time in proportion to the files.
pub fn check_uses<'s, K: Drop, C: Copy + Drop, P: Packages, E>(
    code: K,
    cause: C,
    fault: UseFault,
    packages: &'s P,
    scopes: &'s PackageScopes<'s>,
    files: &[ParsedFile<'_>],
) -> Result<(), StageError<K, C, E>>
    ensures stage { (places : K → List (FoundAt C)) → places code ≡ wrong_uses cause fault
        (record { names = P.names packages.now; offers = P.offers packages.now }) scopes.now
        (map written_parsed files.now) → IsStage places code result }
    ensures never_fails { (failure : E) → result ≡ Err (Failed failure) → ⊥ }
{
    let rule = NameUses {
        fault,
        cause,
        packages,
        scopes,
    };
    match first_place(rule, files) {
        Ok(first) => settle(code, first),
        Err(never) => match never {},
    }
}
