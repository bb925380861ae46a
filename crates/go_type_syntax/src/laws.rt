ghost use Rattle.std.specs.Prelude.{◌≡◌, ℕ, List};
ghost use Rattle.go_expr_syntax.specs.declared.symbols.Symbol.{Symbol};
ghost use Rattle.go_expr_syntax.specs.Reading.{start_of};
ghost use Rattle.go_expr_syntax.specs.StandingExprs.{SymbolsStand};
ghost use Rattle.go_type_syntax.specs.declared.tree.TypeExpr.{TypeExpr};
ghost use Rattle.go_type_syntax.specs.Grammar.{IsType};
ghost use Rattle.go_type_syntax.specs.PlainTypes.{spans_of_type, type_start};
ghost use Rattle.go_type_syntax.specs.StandingTypes.{TypeStands};

/// A type begins where its first token does.
pub fn type_start()
    ensures { (n : ℕ) (tokens : List Symbol) (ty : TypeExpr) (rest : List Symbol) → IsType n tokens ty rest
        → type_start ty ≡ start_of tokens }
{}

/// A type whose tokens stand in a source stands there.
pub fn type_stands()
    ensures { (source : List ℕ) (n : ℕ) (tokens : List Symbol) (ty : TypeExpr) (rest : List Symbol)
        → IsType n tokens ty rest → SymbolsStand source tokens
        → TypeStands source (spans_of_type ty) × SymbolsStand source rest }
{}
