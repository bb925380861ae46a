//! A source with its tokens.

ghost use Rattle.std.specs.Prelude.{◌≡◌, ◌≢◌, ◌≤◌, ◌<◌, ◌⊎◌, ℕ, List, Ok, Err, length, IfOk, IfErr};
ghost use Rattle.std.specs.List.{All};
ghost use Rattle.go_lexer.specs.Lexing.{LexesAs, lexed_source};
ghost use Rattle.go_lexer.specs.FaultGrammar.{IsFirstFault};
ghost use Rattle.go_lexer.specs.TokenGrammar.{IsLexed};
ghost use Rattle.go_lexer.specs.TokenTexts.{IsTokenOf, Rise, bytes_at};
ghost use Rattle.go_lexer.specs.declared.token_kinds.Token.{Token};
ghost use Rattle.go_lexer.specs.declared.token_kinds.TokenKind.TheVariants.{Inserted};
ghost use Rattle.go_lexer.specs.declared.token_kinds.LexFault.{LexFault};
ghost use Rattle.go_lexer.specs.declared.token_kinds.LexFault.TheVariants as fault;
ghost use Rattle.go_lexer.specs.declared.lexing.TheConstants.{SOURCE_LIMIT};

use crate::lexing::tokens;
use crate::token_kinds::{LexFault, Token};
use std::alloc::Global;
use std::marker::Model;

/// A source of at most 4 MiB and its tokens. Only `lex` makes one, so the tokens are those of the source.
#[derive(Drop)]
pub struct SourceTokens<'a> {
    source: &'a [u8],
    tokens: Vec<Token>,
}

impl<'a> Model for SourceTokens<'a> {
    ghost use Rattle.go_lexer.specs.TokenTexts.{Lexed, AreTied};

    ghost Value = { Lexed };

    ghost view = { λ s. record { source = s.source.now; tokens = s.tokens.items } };

    ghost invariant = { λ s. AreTied s.source.now s.tokens.items };
}

impl<'a> SourceTokens<'a> {
    /// The bytes of the source.
    pub fn source(&self) -> &'a [u8]
        ensures bytes { result.now ≡ self.now.source }
        ensures short { length result.now ≤ SOURCE_LIMIT }
    {
        self.source
    }

    /// The tokens of the source.
    pub fn tokens(&self) -> &[Token]
        ensures items { result.now ≡ self.now.tokens }
        ensures lexed { IsLexed self.now.source result.now }
        ensures each { All (IsTokenOf self.now.source) result.now }
    {
        &self.tokens
    }

    /// The bytes of a token of the source.
    pub fn text(&self, token: Token) -> &'a [u8]
        requires rises { token.start ≤ token.end }
        requires inside { token.end ≤ length self.now.source }
        ensures { result.now ≡ bytes_at self.now.source token }
    {
        &self.source[token.start as usize..token.end as usize]
    }
}

/// A source of at most 4 MiB with its tokens, or the first fault that a reader meets from left to right, as `tokens`
/// finds them.
pub fn lex(alloc: Global, source: &[u8]) -> Result<SourceTokens<'_>, LexFault>
    requires { length source.now ≤ SOURCE_LIMIT }
    ensures source { IfOk result (λ s. s.source ≡ source.now) }
    ensures found { IfOk result (λ s. IsLexed source.now s.tokens) }
    ensures only { (items : List Token) → IsLexed source.now items → LexesAs (λ s. s.tokens) result (Ok items) }
    ensures fault { IfErr result (λ f. (f ≡ fault.OutOfMemory) ⊎ IsFirstFault source.now f) }
    ensures met { (f : LexFault) → IsFirstFault source.now f → LexesAs (λ s. s.tokens) result (Err f) }
    ensures exact { LexesAs (λ s. s.tokens) result (lexed_source source.now) }
{
    let tokens = tokens(alloc, source)?;
    Ok(SourceTokens { source, tokens })
}

/// The tokens of a source stand one behind the other in it, and each is a token of the source: its bytes spell what its
/// kind says, and they are none only where a semicolon is inserted.
pub fn each_token()
    ensures rise { (source : List ℕ) (items : List Token) → IsLexed source items → Rise 0 (length source) items }
    ensures each { (source : List ℕ) (items : List Token) → IsLexed source items → All (IsTokenOf source) items }
    ensures some { (source : List ℕ) (t : Token) → IsTokenOf source t → t.kind ≢ Inserted → t.start < t.end }
{}
