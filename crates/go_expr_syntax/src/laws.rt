ghost use Rattle.std.specs.Prelude.{◌≡◌, ℕ, List};
ghost use Rattle.std.specs.List.{All};
ghost use Rattle.go_lexer.specs.TokenTexts.{IsTokenOf};
ghost use Rattle.go_lexer.specs.declared.token_kinds.Token.{Token};
ghost use Rattle.go_expr_syntax.specs.declared.expressions.Operand.{Operand};
ghost use Rattle.go_expr_syntax.specs.declared.symbols.Symbol.{Symbol};
ghost use Rattle.go_expr_syntax.specs.Expressions.{IsExpr};
ghost use Rattle.go_expr_syntax.specs.PlainExprs.{expr_start, spans_of_expr};
ghost use Rattle.go_expr_syntax.specs.Reading.{start_of};
ghost use Rattle.go_expr_syntax.specs.StandingExprs.{ExprStands, SymbolsStand};
ghost use Rattle.go_expr_syntax.specs.TokenView.{symbols_of};

/// An expression begins where its first token does.
pub fn expression_start()
    ensures { (l n : ℕ) (tokens : List Symbol) (x : Operand) (rest : List Symbol) → IsExpr l n tokens x rest
        → expr_start x.expr ≡ start_of tokens }
{}

/// An expression whose tokens stand in a source stands there.
pub fn expression_stands()
    ensures { (source : List ℕ) (l n : ℕ) (tokens : List Symbol) (x : Operand) (rest : List Symbol)
        → IsExpr l n tokens x rest → SymbolsStand source tokens
        → ExprStands source (spans_of_expr x.expr) × SymbolsStand source rest }
{}

/// The tokens of a source stand in it, as the grammar sees them.
pub fn symbols_stand()
    ensures { (source : List ℕ) (tokens : List Token) → All (IsTokenOf source) tokens
        → SymbolsStand source (symbols_of source tokens) }
{}
