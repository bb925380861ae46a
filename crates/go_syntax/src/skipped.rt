ghost use Rattle.std.specs.Prelude.{◌≡◌, [], reverse, IfOk};
ghost use Rattle.go_expr_syntax.specs.Reading.{Gives, Exactly};
ghost use Rattle.go_syntax.specs.Skipped.{opened, closed, same, stands_outside, skip, Steps};

use go_expr_syntax::{Fault, Kind, Stop, Symbol, Tokens, starts};
use sqlite_items::Items;
use std::alloc::{AllocError, Global};

/// A kind of bracket.
#[derive(Clone, Copy)]
pub(crate) enum Bracket {
    Round,
    Square,
    Curly,
}

/// What a token does to a text that is skipped.
#[derive(Clone, Copy)]
pub(crate) enum Step {
    /// The text goes on.
    Goes,
    /// The text ends before it.
    Ends,
    /// It can't stand there.
    Clashes,
}

/// The kind of bracket that a token opens.
fn opened(symbol: &Symbol) -> Option<Bracket>
    ensures { result ≡ opened symbol.now }
{
    match symbol {
        Symbol::OpenParen(_) => Some(Bracket::Round),
        Symbol::OpenBracket(_) => Some(Bracket::Square),
        Symbol::OpenBrace(_) => Some(Bracket::Curly),
        _ => None,
    }
}

/// The kind of bracket that a token closes.
fn closed(symbol: &Symbol) -> Option<Bracket>
    ensures { result ≡ closed symbol.now }
{
    match symbol {
        Symbol::CloseParen(_) => Some(Bracket::Round),
        Symbol::CloseBracket(_) => Some(Bracket::Square),
        Symbol::CloseBrace(_) => Some(Bracket::Curly),
        _ => None,
    }
}

/// Whether two brackets are of one kind.
fn same(opening: Bracket, closing: Bracket) -> bool
    ensures { result ≡ same opening closing }
{
    matches!(
        (opening, closing),
        (Bracket::Round, Bracket::Round)
            | (Bracket::Square, Bracket::Square)
            | (Bracket::Curly, Bracket::Curly)
    )
}

/// Whether a token that is no bracket may stand outside all brackets.
fn stands_outside(line: bool, symbol: &Symbol) -> bool
    ensures { result ≡ stands_outside line symbol.now }
{
    !line || !matches!(symbol, Symbol::Semicolon(_))
}

/// What a token does, and the brackets that are open after it, the innermost last.
fn take(line: bool, unclosed: &mut Items<Bracket>, symbol: &Symbol) -> Result<Step, AllocError>
    ensures { IfOk result (λ s. Steps line (reverse unclosed.old) symbol.now s (reverse unclosed.new)) }
{
    if let Some(bracket) = opened(symbol) {
        unclosed.push(bracket)?;
        return Ok(Step::Goes);
    }
    let Some(bracket) = closed(symbol) else {
        if !unclosed.is_empty() {
            return Ok(Step::Goes);
        }
        if stands_outside(line, symbol) {
            return Ok(Step::Goes);
        }
        return Ok(Step::Ends);
    };
    let Some(inner) = unclosed.pop() else {
        return Ok(Step::Ends);
    };
    if same(inner, bracket) {
        Ok(Step::Goes)
    } else {
        Ok(Step::Clashes)
    }
}

/// The tokens after a text in which brackets match. It ends before a bracket that closes none of them and, where it is
/// one `line` of code, before a semicolon outside all of them.
pub(crate) fn skipped(alloc: Global, line: bool, tokens: Tokens<'_>) -> Result<Tokens<'_>, Stop>
    ensures { Gives (λ x. (tt, x.now)) result (skip line [] tokens.now) }
{
    let mut unclosed = Items::new(alloc);
    let mut rest = tokens;
    loop {
        let [first, after @ ..] = rest else {
            if unclosed.is_empty() {
                return Ok(rest);
            }
            return Err(Stop::At(Fault::Unexpected(0)));
        };
        match take(line, &mut unclosed, first)? {
            Step::Goes => rest = after,
            Step::Ends => return Ok(rest),
            Step::Clashes => return Err(Stop::At(Fault::Unexpected(rest.len()))),
        }
    }
}
