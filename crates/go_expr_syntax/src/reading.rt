ghost use Rattle.std.specs.Prelude.{◌≡◌, [], ◌∷◌, length, Ok, Err, IfOk};
ghost use Rattle.go_expr_syntax.specs.Reading.{past, starts, symbol_start, start_of, told_at, Reply, Exactly, ParsesAs};
ghost use Rattle.go_expr_syntax.specs.declared.faults.Fault.TheVariants.{Deep};
ghost use Rattle.go_expr_syntax.specs.Kinds.{is_of};
ghost use Rattle.go_expr_syntax.specs.Reading.{shows_types};
ghost use Rattle.go_expr_syntax.specs.Names.{ident_at};

use crate::expressions::is_unary;
use crate::faults::{Fault, Stop};
use crate::symbols::{Ident, Symbol, Tokens};
use sqlite_items::Items;
use std::alloc::{AllocError, AllocFailed, Global};

impl From<Fault> for Stop {
    ghost use Rattle.go_expr_syntax.specs.declared.faults.Stop.TheVariants.{At};

    ghost from_gives = { λ f s. s ≡ At f };

    fn from(fault: Fault) -> Stop {
        Stop::At(fault)
    }
}

impl From<AllocError> for Stop {
    ghost use Rattle.go_expr_syntax.specs.declared.faults.Stop.TheVariants.{OutOfMemory};

    ghost from_gives = { λ _ s. s ≡ OutOfMemory };

    fn from(_error: AllocError) -> Stop {
        Stop::OutOfMemory
    }
}

impl<T: Drop> From<AllocFailed<T>> for Stop {
    ghost use Rattle.go_expr_syntax.specs.declared.faults.Stop.TheVariants.{OutOfMemory};

    ghost from_gives = { λ _ s. s ≡ OutOfMemory };

    fn from(_failure: AllocFailed<T>) -> Stop {
        Stop::OutOfMemory
    }
}

/// What a reader answers: what it reads, and the tokens after it.
pub type Read<'s, T> = Result<(T, Tokens<'s>), Stop>;

/// A tree, and how many more nodes its longest path might have.
pub type Fit<T> = (T, usize);

/// A test of a token.
#[derive(Clone, Copy)]
pub enum Kind {
    Ident,
    Semicolon,
    Comma,
    Dot,
    CloseParen,
    OpenBracket,
    CloseBracket,
    OpenBrace,
    CloseBrace,
    Arrow,
    Chan,
    Package,
    OpenParen,
    Assign,
    Import,
    Var,
    Type,
    Const,
    /// The first token of a type.
    TypeStart,
    /// The first token of an expression.
    ExprStart,
    /// A token that shows that what stands in parentheses is no single argument.
    GoesOn,
    /// The token that shows that the identifier before it is an embedded type.
    EmbeddedEnd,
    Ellipsis,
    Bar,
    Tilde,
    Star,
    Func,
    /// The token that goes on with the length of an array after an identifier, or ends it.
    LengthEnd,
    /// What shows that the identifiers before it are types of parameters, where none may be variadic.
    ListEnd,
    /// The same where the last may be.
    ListEndOrDots,
    /// The token that shows that the identifier before it is the type of a parameter.
    ParamEnd,
    /// The token that shows that the identifier before it is an embedded type of an interface.
    ElementEnd,
}

/// Whether a type begins with this token.
fn begins_type(symbol: &Symbol) -> bool
    ensures { result ≡ is_of Kind.TypeStart symbol.now }
{
    matches!(
        symbol,
        Symbol::Ident(_)
            | Symbol::OpenParen(_)
            | Symbol::Star(_)
            | Symbol::OpenBracket(_)
            | Symbol::Map(_)
            | Symbol::Chan(_)
            | Symbol::Arrow(_)
            | Symbol::Struct(_)
            | Symbol::Func(_)
            | Symbol::Interface(_)
    )
}

/// Whether an expression begins with this token.
fn begins_expr(symbol: &Symbol) -> bool
    ensures { result ≡ is_of Kind.ExprStart symbol.now }
{
    match symbol {
        Symbol::Literal(_) | Symbol::Text(_) | Symbol::Ident(_) | Symbol::OpenParen(_) => true,
        Symbol::Operator(op, _) => is_unary(*op),
        _ => false,
    }
}

/// Whether this token shows that the identifier before it is an embedded type.
fn shows_embedded(symbol: &Symbol) -> bool
    ensures { result ≡ is_of Kind.EmbeddedEnd symbol.now }
{
    matches!(
        symbol,
        Symbol::Dot(_) | Symbol::Semicolon(_) | Symbol::CloseBrace(_) | Symbol::Text(_)
    )
}

/// Whether this token shows that the identifiers before it are types of parameters.
fn shows_types(variadic: bool, symbol: &Symbol) -> bool
    ensures { result ≡ shows_types variadic symbol.now }
{
    match symbol {
        Symbol::CloseParen(_) => true,
        Symbol::Ellipsis(_) => variadic,
        _ => begins_type(symbol),
    }
}

/// Whether this token shows that the identifier before it is an embedded type of an interface.
fn shows_elem(symbol: &Symbol) -> bool
    ensures { result ≡ is_of Kind.ElementEnd symbol.now }
{
    matches!(
        symbol,
        Symbol::Dot(_)
            | Symbol::OpenBracket(_)
            | Symbol::Bar(_)
            | Symbol::Semicolon(_)
            | Symbol::CloseBrace(_)
    )
}

/// Whether this token goes on with the length of an array after an identifier, or ends it.
fn shows_length(symbol: &Symbol) -> bool
    ensures { result ≡ is_of Kind.LengthEnd symbol.now }
{
    matches!(
        symbol,
        Symbol::CloseBracket(_)
            | Symbol::Dot(_)
            | Symbol::OpenParen(_)
            | Symbol::Star(_)
            | Symbol::Bar(_)
            | Symbol::Operator(_, _)
    )
}

/// Whether a token is of this kind.
fn is_of(kind: Kind, symbol: &Symbol) -> bool
    ensures { result ≡ is_of kind symbol.now }
{
    match kind {
        Kind::Ident => matches!(symbol, Symbol::Ident(_)),
        Kind::Semicolon => matches!(symbol, Symbol::Semicolon(_)),
        Kind::Comma => matches!(symbol, Symbol::Comma(_)),
        Kind::Dot => matches!(symbol, Symbol::Dot(_)),
        Kind::CloseParen => matches!(symbol, Symbol::CloseParen(_)),
        Kind::OpenBracket => matches!(symbol, Symbol::OpenBracket(_)),
        Kind::CloseBracket => matches!(symbol, Symbol::CloseBracket(_)),
        Kind::OpenBrace => matches!(symbol, Symbol::OpenBrace(_)),
        Kind::CloseBrace => matches!(symbol, Symbol::CloseBrace(_)),
        Kind::Arrow => matches!(symbol, Symbol::Arrow(_)),
        Kind::Chan => matches!(symbol, Symbol::Chan(_)),
        Kind::Package => matches!(symbol, Symbol::Package(_)),
        Kind::OpenParen => matches!(symbol, Symbol::OpenParen(_)),
        Kind::Assign => matches!(symbol, Symbol::Assign(_)),
        Kind::Import => matches!(symbol, Symbol::Import(_)),
        Kind::Var => matches!(symbol, Symbol::Var(_)),
        Kind::Type => matches!(symbol, Symbol::Type(_)),
        Kind::Const => matches!(symbol, Symbol::Const(_)),
        Kind::TypeStart => begins_type(symbol),
        Kind::EmbeddedEnd => shows_embedded(symbol),
        Kind::ExprStart => begins_expr(symbol),
        Kind::GoesOn => matches!(symbol, Symbol::Comma(_) | Symbol::Ellipsis(_)),
        Kind::Ellipsis => matches!(symbol, Symbol::Ellipsis(_)),
        Kind::Bar => matches!(symbol, Symbol::Bar(_)),
        Kind::Star => matches!(symbol, Symbol::Star(_)),
        Kind::Func => matches!(symbol, Symbol::Func(_)),
        Kind::LengthEnd => shows_length(symbol),
        Kind::Tilde => matches!(symbol, Symbol::Tilde(_)),
        Kind::ListEnd => shows_types(false, symbol),
        Kind::ListEndOrDots => shows_types(true, symbol),
        Kind::ParamEnd => matches!(symbol, Symbol::CloseParen(_) | Symbol::Dot(_)),
        Kind::ElementEnd => shows_elem(symbol),
    }
}

/// The tokens after one of this kind.
pub fn past(kind: Kind, tokens: Tokens<'_>) -> Result<Tokens<'_>, Fault>
    ensures { Exactly (λ x. x.now) result (past (is_of kind) tokens.now) }
{
    match tokens {
        [first, rest @ ..] => {
            if is_of(kind, first) {
                Ok(rest)
            } else {
                Err(Fault::Unexpected(tokens.len()))
            }
        }
        [] => Err(Fault::Unexpected(0)),
    }
}

/// The same tokens, with which a loop goes on. The borrow checker tells tokens that came out of a `Result` from
/// those that a call gives, as it does not for what holds no reference, and wants the same in each turn of a loop.
pub fn onward(tokens: Tokens<'_>) -> Tokens<'_>
    ensures { result.now ≡ tokens.now }
{
    tokens
}

/// Whether a token of this kind comes next.
pub fn starts(kind: Kind, tokens: Tokens<'_>) -> bool
    ensures { result ≡ starts (is_of kind) tokens.now }
{
    match tokens {
        [first, ..] => is_of(kind, first),
        [] => false,
    }
}

/// The identifier at the front, and the tokens after it.
pub fn ident(tokens: Tokens<'_>) -> Result<(Ident, Tokens<'_>), Fault>
    ensures { Exactly (λ x. (x.0, x.1.now)) result (ident_at tokens.now) }
{
    match tokens {
        [first, rest @ ..] => match *first {
            Symbol::Ident(name) => Ok((name, rest)),
            _ => Err(Fault::Unexpected(tokens.len())),
        },
        [] => Err(Fault::Unexpected(0)),
    }
}

/// The place of a token.
fn symbol_start(symbol: &Symbol) -> u32
    ensures { result ≡ symbol_start symbol.now }
{
    match symbol {
        Symbol::Ident(name) => name.start,
        Symbol::Text(text) => text.token().start,
        Symbol::Literal(token) => token.start,
        Symbol::Operator(_, at) => *at,
        Symbol::Semicolon(at)
        | Symbol::Comma(at)
        | Symbol::Dot(at)
        | Symbol::Assign(at)
        | Symbol::OpenParen(at)
        | Symbol::CloseParen(at)
        | Symbol::OpenBracket(at)
        | Symbol::CloseBracket(at)
        | Symbol::OpenBrace(at)
        | Symbol::CloseBrace(at)
        | Symbol::Star(at)
        | Symbol::Arrow(at)
        | Symbol::Package(at)
        | Symbol::Import(at)
        | Symbol::Type(at)
        | Symbol::Var(at)
        | Symbol::Const(at)
        | Symbol::Chan(at)
        | Symbol::Map(at)
        | Symbol::Struct(at)
        | Symbol::Func(at)
        | Symbol::Interface(at)
        | Symbol::Ellipsis(at)
        | Symbol::Tilde(at)
        | Symbol::Bar(at)
        | Symbol::Other(at) => *at,
    }
}

/// The place of the first token.
pub fn start(tokens: Tokens<'_>) -> u32
    ensures { result ≡ start_of tokens.now }
{
    match tokens {
        [first, ..] => symbol_start(first),
        [] => 0,
    }
}

/// With the next token a path is too long.
pub fn too_deep(tokens: Tokens<'_>) -> Fault
    ensures { result ≡ Deep (length tokens.now) (start_of tokens.now) }
{
    Fault::Deep(tokens.len(), start(tokens))
}

/// The same answer, where a path that is too long is told at this place.
pub fn told_at<T: Drop>(at: u32, answer: Read<'_, T>) -> Read<'_, T>
    ensures { (read : Reply T) → ParsesAs answer.entry read → ParsesAs result (told_at at read) }
{
    match answer {
        Err(Stop::At(Fault::Deep(left, _))) => Err(Stop::At(Fault::Deep(left, at))),
        answer => answer,
    }
}

/// A list of one item.
pub fn single<T: Drop>(alloc: Global, item: T) -> Result<Items<T>, AllocError>
    ensures { IfOk result (λ items. items ≡ item ∷ []) }
{
    let mut items = Items::new(alloc);
    items.push(item)?;
    Ok(items)
}
