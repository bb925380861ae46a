ghost use Rattle.std.specs.Prelude.{◌≡◌, ◌<◌, ℕ, List, [], Err};
ghost use Rattle.go_expr_syntax.specs.declared.faults.Fault.TheVariants.{Deep};
ghost use Rattle.go_expr_syntax.specs.Expressions.{IsExpr};
ghost use Rattle.go_expr_syntax.specs.Operands.{outer_expr};
ghost use Rattle.go_type_syntax.specs.Grammar.{IsType, IsUnion};
ghost use Rattle.go_type_syntax.specs.Types.{type_at};
ghost use Rattle.go_syntax.specs.Generics.{constraint_at};
ghost use Rattle.go_expr_syntax.specs.declared.symbols.Symbol.{Symbol};
ghost use Rattle.go_syntax.specs.declared.tree.SourceFile.{SourceFile};
ghost use Rattle.go_syntax.specs.Decls.{IsFileOf};
ghost use Rattle.go_syntax.specs.Outcomes.{IsFile, IsUnexpected, IsTooDeep, IsDeepFrom, IsLeftOut, IsFileWithDots};
ghost use Rattle.go_syntax.specs.Outcomes.{IsFileWithCall};

/// A list of tokens is at most one file.
pub fn one_tree()
    ensures { (tokens : List Symbol) (m n : ℕ) (f g : SourceFile) → IsFileOf m tokens f [] → IsFileOf n tokens g []
        → f ≡ g }
{}

/// Tokens that are a file have no fault: none of them is unexpected, none shows what is left out, and a path is too
/// long only in a file that has such a path.
pub fn no_fault_of_a_file()
    ensures unexpected { (tokens : List Symbol) (f : SourceFile) (left : ℕ) → IsFile tokens f
        → IsUnexpected tokens left → ⊥ }
    ensures too_deep { (tokens : List Symbol) (f : SourceFile) (m n left : ℕ) → IsFileOf m tokens f []
        → IsTooDeep n tokens left → n < m }
    ensures dots { (tokens : List Symbol) (f : SourceFile) (left : ℕ) → IsFile tokens f
        → IsLeftOut IsFileWithDots tokens left → ⊥ }
    ensures call { (tokens : List Symbol) (f : SourceFile) (at left : ℕ) → IsFile tokens f
        → IsLeftOut (IsFileWithCall at) tokens left → ⊥ }
{}

/// Each file is one of the wider grammar, where imports may be of all the names of a package.
pub fn dots_are_wider()
    ensures { (tokens : List Symbol) (f : SourceFile) → IsFile tokens f → IsFileWithDots tokens f }
{}

/// What stands in a declaration, a type, a constraint or an expression, tells a path that is too long at its own first
/// token: each that goes on so with the next token has one, and some does.
pub fn depth_at_the_first_token()
    ensures types { (n left at : ℕ) (tokens : List Symbol) → type_at n tokens ≡ Err (Deep left at)
        → IsDeepFrom IsType n tokens left at }
    ensures constraints { (n left at : ℕ) (tokens : List Symbol) → constraint_at n tokens ≡ Err (Deep left at)
        → IsDeepFrom IsUnion n tokens left at }
    ensures expressions { (n left at : ℕ) (tokens : List Symbol) → outer_expr n tokens ≡ Err (Deep left at)
        → IsDeepFrom (IsExpr 5) n tokens left at }
{}

/// Tokens that are no file have one first token that is unexpected, or end too early: there is one, and no other.
pub fn one_place()
    ensures some { (tokens : List Symbol) → ((f : SourceFile) → IsFile tokens f → ⊥)
        → (left : ℕ) × IsUnexpected tokens left }
    ensures only { (tokens : List Symbol) (left other : ℕ) → IsUnexpected tokens left → IsUnexpected tokens other
        → left ≡ other }
{}
