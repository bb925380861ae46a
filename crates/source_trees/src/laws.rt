ghost use Rattle.std.specs.Prelude.{◌≡◌, ◌≤◌, ◌-◌, ℕ, List};
ghost use Rattle.go_lexer.specs.TokenTexts.{bytes_at};
ghost use Rattle.go_lexer.specs.declared.token_kinds.Token.{Token};
ghost use Rattle.go_lexer.specs.declared.token_kinds.TokenKind.{TokenKind};
ghost use Rattle.go_expr_syntax.specs.StandingExprs.{LiteralStands};
ghost use Rattle.go_syntax.specs.declared.tree.ConstSpec.{ConstSpec};
ghost use Rattle.go_syntax.specs.declared.tree.Top.{Top};
ghost use Rattle.go_syntax.specs.StandingFiles.{AreRepeated};
ghost use Rattle.source_trees.specs.declared.literals.Literal.{Literal};
ghost use Rattle.source_trees.specs.Files.{repeated};
ghost use Rattle.source_trees.specs.Laws.{AreConstants};
ghost use Rattle.source_trees.specs.Literals.{HasLiteral, literal_of};

/// Each literal of a source stands for what it spells.
pub fn each_literal()
    ensures { (source : List ℕ) (token : Token) → LiteralStands source token
        → HasLiteral token.kind (bytes_at source token) (literal_of source token) }
{}

/// What a literal spells stands for one thing.
pub fn one_literal()
    ensures { (kind : TokenKind) (bytes : List ℕ) (x y : Literal) → HasLiteral kind bytes x → HasLiteral kind bytes y
        → x ≡ y }
{}

/// In a file that stands, what constants repeat is the specification of their group that they name: it stands as many
/// declarations before them as their numbers differ by, and repeats no other.
pub fn what_is_repeated()
    ensures found { (tops : List Top) (k : ℕ) (c : ConstSpec) → AreRepeated tops → AreConstants tops k c
        → AreConstants tops (k - (c.iota - c.source)) (repeated tops k c) }
    ensures inside { (tops : List Top) (k : ℕ) (c : ConstSpec) → AreRepeated tops → AreConstants tops k c
        → c.iota - c.source ≤ k }
    ensures number { (tops : List Top) (k : ℕ) (c : ConstSpec) → AreRepeated tops → AreConstants tops k c
        → (repeated tops k c).iota ≡ c.source }
    ensures own { (tops : List Top) (k : ℕ) (c : ConstSpec) → AreRepeated tops → AreConstants tops k c
        → (repeated tops k c).source ≡ c.source }
{}
