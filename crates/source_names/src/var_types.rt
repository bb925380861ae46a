//! Variables without a written type.

ghost use Rattle.std.specs.Prelude.{◌≡◌, ℕ, List, map, Err};
ghost use Rattle.source_places.specs.declared.places.Found.{Found as FoundAt};
ghost use Rattle.source_places.specs.declared.stages.StageError.TheVariants.{Failed};
ghost use Rattle.source_places.specs.Places.{least};
ghost use Rattle.source_places.specs.Stages.{IsStage};
ghost use Rattle.source_trees.specs.Trees.{type_if_any};
ghost use Rattle.source_trees.specs.Words.{word};
ghost use Rattle.source_walk.specs.Rows.{written_parsed};
ghost use Rattle.source_names.specs.VarTypes.{first_name, untyped, no_var_types};

use go_syntax::{Expr, Ident, SourceFile, Top, TypeExpr, VarSpec};
use source_places::{Found, Place, StageError, settle};
use source_walk::{Around, ParsedFile, Rule, Spot, first_place};
use std::convert::Infallible;

/// The place of the first of some names.
#[tactic(auto, unfolding(source_trees::specs::Words::word))]
fn first_name<C: Drop>(cause: C, file: usize, names: &[Ident]) -> Option<Found<C>>
    ensures { (source : List ℕ) → result ≡ least (first_name cause file (map (word source) names.now)) }
{
    let name = names.first()?;
    let place = Place {
        file,
        at: name.start,
    };
    Some(Found { place, cause })
}

/// The place of variables in the file with this number, where they have no type.
fn untyped<C: Drop>(cause: C, file: usize, variables: &VarSpec) -> Option<Found<C>>
    ensures { (source : List ℕ) → result ≡ least (untyped cause file (map (word source) variables.now.names)
        (type_if_any source variables.now.ty)) }
{
    match variables.ty {
        Some(_) => None,
        None => first_name(cause, file, variables.names.as_slice()),
    }
}

/// The rule that each variable has a written type, with the cause that comes with its places.
#[derive(Drop)]
struct VarTypes<C> {
    cause: C,
}

impl<C: Copy + Drop> Rule for VarTypes<C> {
    ghost use Rattle.source_names.specs.VarTypes.{no_var_type};

    type Cause = C;

    type Stop = Infallible;

    ghost places = { λ rule. no_var_type rule.cause };

    fn at_file(
        &mut self,
        _: usize,
        _: &[u8],
        _: &SourceFile,
    ) -> Result<Option<Found<C>>, Infallible> {
        Ok(None)
    }

    fn at_top(&mut self, around: &Around<'_>, spot: Spot) -> Result<Option<Found<C>>, Infallible> {
        match around.top {
            Top::Var(variables) => Ok(untyped(self.cause, spot.file, variables)),
            _ => Ok(None),
        }
    }

    fn at_type(
        &mut self,
        _: &Around<'_>,
        _: Spot,
        _: &TypeExpr,
    ) -> Result<Option<Found<C>>, Infallible> {
        Ok(None)
    }

    fn at_expr(
        &mut self,
        _: &Around<'_>,
        _: Spot,
        _: &Expr,
    ) -> Result<Option<Found<C>>, Infallible> {
        Ok(None)
    }
}

/// Goes on where each variable of a package has a written type, and else refuses, under the code that is given for
/// this, at the first name of the first declaration that has none, with the cause that is given. Files are in the order
/// in which they count.
#[tactic(auto, using(crate::proofs::VarTypeLaws::walks))]
pub fn check_var_types<K: Drop, C: Copy + Drop, E>(
    code: K,
    cause: C,
    files: &[ParsedFile<'_>],
) -> Result<(), StageError<K, C, E>>
    ensures stage { (places : K → List (FoundAt C))
        → places code ≡ no_var_types cause (map written_parsed files.now) → IsStage places code result }
    ensures never_fails { (failure : E) → result ≡ Err (Failed failure) → ⊥ }
{
    match first_place(VarTypes { cause }, files) {
        Ok(first) => settle(code, first),
        Err(never) => match never {},
    }
}
