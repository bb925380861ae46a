//! The first place at which a rule is broken.

ghost use Rattle.std.specs.Prelude.{◌≡◌, IfOk, map};
ghost use Rattle.source_places.specs.Places.{least};
ghost use Rattle.source_walk.specs.Rows.{written_parsed};
ghost use Rattle.source_walk.specs.Rules.{places_in};
ghost use Rattle.source_walk.specs.Visits.{files_visits};

use crate::files::visit_files;
use crate::parsed::ParsedFile;
use crate::spots::Spot;
use crate::visitor::{Around, Visitor};
use go_syntax::{Expr, SourceFile, TypeExpr};
use source_places::{Found, earlier};

/// A rule about what a walk sees: the places that it gives at a file, a declaration, a type or an expression by itself,
/// apart from those inside, with their causes.
pub trait Rule {
    ghost use Rattle.std.specs.Prelude.{◌≡◌, IfOk, List};
    ghost use Rattle.source_places.specs.declared.places.Found.{Found as FoundAt};
    ghost use Rattle.source_places.specs.Places.{least};
    ghost use Rattle.source_trees.specs.Trees.{written_expr, written_type};
    ghost use Rattle.source_trees.specs.Files.{written_top, written_file};
    ghost use Rattle.source_walk.specs.Rows.{scope_in};
    ghost use Rattle.source_walk.specs.Visits.{Visit, a_file, a_top, a_type, an_expr};

    type Cause: Drop;

    /// Why the search doesn't go on.
    type Stop: Drop;

    ghost places: { Self → Visit → List (FoundAt Self.Cause) };

    /// The first place at a file.
    fn at_file(
        &mut self,
        number: usize,
        source: &[u8],
        tree: &SourceFile,
    ) -> Result<Option<Found<Self::Cause>>, Self::Stop>
        ensures first { IfOk result (λ x. x ≡ least (places self.old
            (a_file number (written_file source.now tree.now)))) }
        ensures kept { places self.new ≡ places self.old };

    /// The first place at a declaration.
    fn at_top(
        &mut self,
        around: &Around<'_>,
        spot: Spot,
    ) -> Result<Option<Found<Self::Cause>>, Self::Stop>
        ensures first { IfOk result (λ x. x ≡ least (places self.old
            (a_top spot (written_top around.now.source.now around.now.tops.now spot.top around.now.top.now)))) }
        ensures kept { places self.new ≡ places self.old };

    /// The first place at a type.
    fn at_type(
        &mut self,
        around: &Around<'_>,
        spot: Spot,
        ty: &TypeExpr,
    ) -> Result<Option<Found<Self::Cause>>, Self::Stop>
        ensures first { IfOk result (λ x. x ≡ least (places self.old
            (a_type spot (scope_in around.now.source.now around.now.top.now)
            (written_type around.now.source.now ty.now)))) }
        ensures kept { places self.new ≡ places self.old };

    /// The first place at an expression.
    fn at_expr(
        &mut self,
        around: &Around<'_>,
        spot: Spot,
        expr: &Expr,
    ) -> Result<Option<Found<Self::Cause>>, Self::Stop>
        ensures first { IfOk result (λ x. x ≡ least (places self.old
            (an_expr spot (scope_in around.now.source.now around.now.top.now)
            (written_expr around.now.source.now expr.now)))) }
        ensures kept { places self.new ≡ places self.old };
}

/// A rule with the first place that was found so far.
#[derive(Drop)]
struct Search<R: Rule> {
    rule: R,
    found: Option<Found<R::Cause>>,
}

impl<R: Rule> Visitor for Search<R> {
    ghost use Rattle.std.specs.Prelude.{Option};
    ghost use Rattle.source_places.specs.declared.places.Found.{Found as FoundAt};
    ghost use Rattle.source_places.specs.Places.{earlier as first_of_both, least as least_of};

    type Stop = R::Stop;

    ghost Sum = { Option (FoundAt R.Cause) };

    ghost join = { first_of_both };

    ghost told = { λ s. s.found };

    ghost tells = { λ s visit. least_of (R.places s.rule visit) };

    fn at_file(&mut self, number: usize, source: &[u8], tree: &SourceFile) -> Result<(), R::Stop> {
        let next = self.rule.at_file(number, source, tree)?;
        let found = self.found.take();
        self.found = earlier(found, next);
        Ok(())
    }

    fn at_top(&mut self, around: &Around<'_>, spot: Spot) -> Result<(), R::Stop> {
        let next = self.rule.at_top(around, spot)?;
        let found = self.found.take();
        self.found = earlier(found, next);
        Ok(())
    }

    fn at_type(&mut self, around: &Around<'_>, spot: Spot, ty: &TypeExpr) -> Result<(), R::Stop> {
        let next = self.rule.at_type(around, spot, ty)?;
        let found = self.found.take();
        self.found = earlier(found, next);
        Ok(())
    }

    fn at_expr(&mut self, around: &Around<'_>, spot: Spot, expr: &Expr) -> Result<(), R::Stop> {
        let next = self.rule.at_expr(around, spot, expr)?;
        let found = self.found.take();
        self.found = earlier(found, next);
        Ok(())
    }
}

/// The first place that a rule gives in the files of a package. Of causes at one place it is that of the first visit.
pub fn first_place<R: Rule + Drop>(
    rule: R,
    files: &[ParsedFile<'_>],
) -> Result<Option<Found<R::Cause>>, R::Stop>
    ensures { IfOk result (λ x. x ≡ least (places_in (R.places rule) (files_visits (map written_parsed files.now)))) }
{
    let mut search = Search { rule, found: None };
    visit_files(&mut search, files)?;
    Ok(search.found)
}
