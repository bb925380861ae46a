use crate::spots::Spot;
use go_syntax::{Expr, SourceFile, Top, TypeExpr};

/// A declaration with the source and the declarations of its file.
#[derive(Clone, Copy)]
pub struct Around<'a> {
    pub source: &'a [u8],
    pub tops: &'a [Top],
    pub top: &'a Top,
}

/// What looks at each file, declaration, type and expression by itself, and joins what it tells of them.
pub trait Visitor {
    ghost use Rattle.std.specs.Prelude.{◌≡◌, OnOk};
    ghost use Rattle.source_trees.specs.Trees.{written_expr, written_type};
    ghost use Rattle.source_trees.specs.Files.{written_top, written_file};
    ghost use Rattle.source_walk.specs.Rows.{scope_in};
    ghost use Rattle.source_walk.specs.Visits.{Visit, a_file, a_top, a_type, an_expr};

    /// What is told.
    ghost Sum: { Type 0 };

    ghost join: { Sum → Sum → Sum };

    /// What was told so far.
    ghost told: { Self → Sum };

    /// What is told of a visit.
    ghost tells: { Self → Visit → Sum };

    /// Why a walk doesn't go on.
    type Stop: Drop;

    /// Looks at a file, apart from its declarations.
    fn at_file(&mut self, number: usize, source: &[u8], tree: &SourceFile) -> Result<(), Self::Stop>
        ensures told { OnOk result (told self.new ≡ join (told self.old)
            (tells self.old (a_file number (written_file source.now tree.now)))) }
        ensures kept { tells self.new ≡ tells self.old };

    /// Looks at a declaration, apart from the types and the expressions in it.
    fn at_top(&mut self, around: &Around<'_>, spot: Spot) -> Result<(), Self::Stop>
        ensures told { OnOk result (told self.new ≡ join (told self.old) (tells self.old
            (a_top spot (written_top around.now.source.now around.now.tops.now spot.top around.now.top.now)))) }
        ensures kept { tells self.new ≡ tells self.old };

    /// Looks at a type, apart from what stands in it.
    fn at_type(&mut self, around: &Around<'_>, spot: Spot, ty: &TypeExpr) -> Result<(), Self::Stop>
        ensures told { OnOk result (told self.new ≡ join (told self.old) (tells self.old
            (a_type spot (scope_in around.now.source.now around.now.top.now)
            (written_type around.now.source.now ty.now)))) }
        ensures kept { tells self.new ≡ tells self.old };

    /// Looks at an expression, apart from its operands.
    fn at_expr(&mut self, around: &Around<'_>, spot: Spot, expr: &Expr) -> Result<(), Self::Stop>
        ensures told { OnOk result (told self.new ≡ join (told self.old) (tells self.old
            (an_expr spot (scope_in around.now.source.now around.now.top.now)
            (written_expr around.now.source.now expr.now)))) }
        ensures kept { tells self.new ≡ tells self.old };
}
