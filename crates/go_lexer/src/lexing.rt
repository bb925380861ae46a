ghost use Rattle.std.specs.Prelude.{◌≡◌, ◌≤◌, ◌++◌, ◌∷◌, ◌⊎◌, ℕ, List, [], length, OnOk, IfOk, IfErr, Ok, Err};
ghost use Rattle.std.specs.Str.{chars};
ghost use Rattle.go_lexer.specs.Lexing.{cut_string, cut_comment, fault_at, place, paid, paid_if, owed_after, owes_at};
ghost use Rattle.go_lexer.specs.Lexing.{finish, with_front, lexed_text, lexed_source, LexesAs};
ghost use Rattle.go_lexer.specs.FaultGrammar.{IsFirstFault};
ghost use Rattle.go_lexer.specs.TokenGrammar.{IsLexed};
ghost use Rattle.go_lexer.specs.declared.token_kinds.Token.{Token};
ghost use Rattle.go_lexer.specs.declared.token_kinds.LexFault.{LexFault};
ghost use Rattle.go_lexer.specs.declared.lexing.TheConstants.{SOURCE_LIMIT};

use crate::fronts::read_piece;
use crate::pieces::{Breach, Piece};
use crate::source::{Ending, after_mark, read_source};
use crate::token_kinds::{LexFault, Token, TokenKind};
use std::alloc::{AllocError, AllocFailed, Global};

/// The most bytes of a source.
pub const SOURCE_LIMIT: usize = 4 * 1024 * 1024;

impl<T: Drop> From<AllocFailed<T>> for LexFault {
    ghost use Rattle.go_lexer.specs.declared.token_kinds.LexFault.TheVariants.{OutOfMemory};

    ghost from_gives = { λ _ e. e ≡ OutOfMemory };

    fn from(_failure: AllocFailed<T>) -> LexFault {
        LexFault::OutOfMemory
    }
}

impl From<AllocError> for LexFault {
    ghost use Rattle.go_lexer.specs.declared.token_kinds.LexFault.TheVariants.{OutOfMemory};

    ghost from_gives = { λ _ e. e ≡ OutOfMemory };

    fn from(_error: AllocError) -> LexFault {
        LexFault::OutOfMemory
    }
}

/// What is met where a text ends inside a literal.
fn cut_string(ending: Ending, total: u32, at: u32) -> LexFault
    ensures { result ≡ cut_string ending total at }
{
    match ending {
        Ending::File => LexFault::OpenString { at },
        Ending::BadUtf8 => LexFault::BadUtf8 { at: total },
        Ending::Nul => LexFault::Nul { at: total },
    }
}

/// What is met where a text ends inside a comment.
fn cut_comment(ending: Ending, total: u32, at: u32) -> LexFault
    ensures { result ≡ cut_comment ending total at }
{
    match ending {
        Ending::File => LexFault::OpenComment { at },
        Ending::BadUtf8 => LexFault::BadUtf8 { at: total },
        Ending::Nul => LexFault::Nul { at: total },
    }
}

fn fault_at(ending: Ending, total: u32, breach: Breach, at: u32) -> LexFault
    ensures { result ≡ fault_at ending total breach at }
{
    match breach {
        Breach::BadChar => LexFault::BadChar { at },
        Breach::OpenString => LexFault::OpenString { at },
        Breach::BadEscape => LexFault::BadEscape { at },
        Breach::BadNumber => LexFault::BadNumber { at },
        Breach::CutString => cut_string(ending, total, at),
        Breach::CutComment => cut_comment(ending, total, at),
    }
}

/// Adds the semicolon that is owed at this place.
fn pay(tokens: &mut Vec<Token>, owed: Option<u32>) -> Result<(), AllocError>
    ensures { OnOk result (tokens.new.items ≡ tokens.old.items ++ paid owed) }
{
    if let Some(at) = owed {
        tokens.push(Token {
            kind: TokenKind::Inserted,
            start: at,
            end: at,
        })?;
    }
    Ok(())
}

/// Takes a blank, and answers the place at which a semicolon is owed after it.
fn take_blank(
    tokens: &mut Vec<Token>,
    owed: Option<u32>,
    breaks: bool,
) -> Result<Option<u32>, AllocError>
    ensures tokens { OnOk result (tokens.new.items ≡ tokens.old.items ++ paid_if breaks owed) }
    ensures owed { IfOk result (λ after. after ≡ owed_after breaks owed) }
{
    if breaks {
        pay(tokens, owed)?;
        Ok(None)
    } else {
        Ok(owed)
    }
}

/// Takes a token, and answers the place at which a semicolon is owed after it.
fn take_token(tokens: &mut Vec<Token>, token: Token, owes: bool) -> Result<Option<u32>, AllocError>
    ensures tokens { OnOk result (tokens.new.items ≡ tokens.old.items ++ (token ∷ [])) }
    ensures owed { IfOk result (λ after. after ≡ owes_at owes token.end) }
{
    tokens.push(token)?;
    Ok(if owes { Some(token.end) } else { None })
}

/// The tokens at the end of a text, or the fault that ends it.
fn finish(
    tokens: Vec<Token>,
    owed: Option<u32>,
    ending: Ending,
    total: u32,
) -> Result<Vec<Token>, LexFault>
    ensures { LexesAs (λ v. v.items) result (with_front tokens.items (finish ending total owed)) }
{
    let mut tokens = tokens;
    match ending {
        Ending::File => {
            pay(&mut tokens, owed)?;
            Ok(tokens)
        }
        Ending::BadUtf8 => Err(LexFault::BadUtf8 { at: total }),
        Ending::Nul => Err(LexFault::Nul { at: total }),
    }
}

/// The place of what is left of a text that ends at this place.
fn place(total: u32, rest: &str) -> u32
    ensures { result ≡ place total (chars rest.now) }
{
    (total as usize).saturating_sub(rest.len()) as u32
}

/// The tokens of a text that ends at this place.
fn lex_text(alloc: Global, text: &str, ending: Ending, total: u32) -> Result<Vec<Token>, LexFault>
    ensures { LexesAs (λ v. v.items) result (lexed_text ending total None (chars text.now)) }
{
    let mut tokens = Vec::new(alloc);
    let mut owed = None;
    let mut rest = text;
    while !rest.is_empty() {
        match read_piece(rest) {
            Piece::Blank(breaks, after) => {
                owed = take_blank(&mut tokens, owed, breaks)?;
                rest = after;
            }
            Piece::Token(kind, owes, after) => {
                let token = Token {
                    kind,
                    start: place(total, rest),
                    end: place(total, after),
                };
                owed = take_token(&mut tokens, token, owes)?;
                rest = after;
            }
            Piece::Stop(breach, at) => {
                return Err(fault_at(ending, total, breach, place(total, at)));
            }
        }
    }
    finish(tokens, owed, ending, total)
}

#[tactic(auto, unfolding(crate::specs::Lexing::lexed_source))]
fn read_tokens(alloc: Global, src: &[u8]) -> Result<Vec<Token>, LexFault>
    requires { length src.now ≤ SOURCE_LIMIT }
    ensures { LexesAs (λ v. v.items) result (lexed_source src.now) }
{
    let (text, ending) = read_source(src);
    lex_text(alloc, after_mark(text), ending, text.len() as u32)
}

/// The tokens of a source of at most 4 MiB, by the lexical grammar of the Go specification, or the first
/// fault that a reader meets from left to right. Takes time in proportion to the length of the source, and
/// memory for the tokens alone.
pub fn tokens(alloc: Global, src: &[u8]) -> Result<Vec<Token>, LexFault>
    requires { length src.now ≤ SOURCE_LIMIT }
    // What is found is spelled there, and what is spelled there is found, unless memory runs out.
    ensures found { IfOk result (λ found. IsLexed src.now found.items) }
    ensures only { (items : List Token) → IsLexed src.now items → LexesAs (λ found. found.items) result (Ok items) }

    // Any other fault is the first one, and the first one is answered, unless memory runs out.
    ensures fault { IfErr result (λ f. (f ≡ LexFault.OutOfMemory) ⊎ IsFirstFault src.now f) }
    ensures met { (f : LexFault) → IsFirstFault src.now f → LexesAs (λ found. found.items) result (Err f) }
    ensures exact { LexesAs (λ found. found.items) result (lexed_source src.now) }
{
    read_tokens(alloc, src)
}

/// Each source has exactly one of tokens and first fault, and one list of tokens at most.
pub fn one_reading()
    ensures tokens { (source : List ℕ) (items others : List Token) → IsLexed source items → IsLexed source others
        → items ≡ others }
    ensures apart { (source : List ℕ) (items : List Token) (f : LexFault) → IsLexed source items
        → IsFirstFault source f → ⊥ }
    ensures fault { (source : List ℕ) (f g : LexFault) → IsFirstFault source f → IsFirstFault source g → f ≡ g }
    ensures some { (source : List ℕ) → ((items : List Token) × IsLexed source items)
        ⊎ ((f : LexFault) × IsFirstFault source f) }
{}
