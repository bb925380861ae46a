ghost use Rattle.std.specs.Prelude.{◌≡◌, ◌<◌, ◌-◌, Err, IfOk};
ghost use Rattle.go_expr_syntax.specs.Reading.{Exactly, ParsesAs};
ghost use Rattle.go_expr_syntax.specs.Expressions.{level, is_unary, between_of, literal, constant, conversion};
ghost use Rattle.go_expr_syntax.specs.Expressions.{enclosed};
ghost use Rattle.go_expr_syntax.specs.Expressions.{unary, binary};
ghost use Rattle.go_expr_syntax.specs.Operands.{uncalled, converted, convert_by, named_by, enclosed_by, signed_by};
ghost use Rattle.go_expr_syntax.specs.Operands.{operand_by, operator_at, climb, level_by, no_expr, expr_of, outer_expr};

use crate::faults::{Fault, Stop};
use crate::names::dotted;
use crate::reading::{Fit, Kind, Read, onward, past, start, starts, told_at, too_deep};
use crate::symbols::{Operator, Symbol, Tokens};
use crate::tree::{Expr, NameExpr};
use go_lexer::Token;
use sqlite_items::Boxed;
use std::alloc::{AllocError, Global};

/// An expression, with the place where it begins.
#[derive(Drop)]
pub struct Operand {
    pub expr: Expr,
    pub at: u32,
}

/// The level of a binary operator, 1 for the one that binds strongest, and 0 for an operator that is none.
fn level_of(op: Operator) -> usize
    ensures { result ≡ level op }
{
    match op {
        Operator::Times
        | Operator::Divide
        | Operator::Remainder
        | Operator::ShiftLeft
        | Operator::ShiftRight
        | Operator::Ampersand
        | Operator::Clear => 1,
        Operator::Plus | Operator::Minus | Operator::Bar | Operator::Caret => 2,
        Operator::Equal
        | Operator::NotEqual
        | Operator::Less
        | Operator::LessEqual
        | Operator::Greater
        | Operator::GreaterEqual => 3,
        Operator::And => 4,
        Operator::Or => 5,
        Operator::Not => 0,
    }
}

/// Whether an operator may stand before an operand.
pub fn is_unary(op: Operator) -> bool
    ensures { result ≡ is_unary op }
{
    matches!(
        op,
        Operator::Plus | Operator::Minus | Operator::Caret | Operator::Not
    )
}

/// The operator that a token is between two operands.
fn between_of(symbol: &Symbol) -> Option<Operator>
    ensures { result ≡ between_of symbol.now }
{
    match symbol {
        Symbol::Star(_) => Some(Operator::Times),
        Symbol::Bar(_) => Some(Operator::Bar),
        Symbol::Operator(op, _) => Some(*op),
        _ => None,
    }
}

/// The binary operator of this level at the front, and the tokens after it.
fn operator(level: usize, tokens: Tokens<'_>) -> Result<(Operator, Tokens<'_>), Fault>
    ensures { Exactly (λ x. (x.0, x.1.now)) result (operator_at level tokens.now) }
{
    match tokens {
        [first, rest @ ..] => match between_of(first) {
            Some(op) => {
                if level_of(op) == level {
                    Ok((op, rest))
                } else {
                    Err(Fault::Unexpected(tokens.len()))
                }
            }
            None => Err(Fault::Unexpected(tokens.len())),
        },
        [] => Err(Fault::Unexpected(0)),
    }
}

fn literal(token: Token) -> Operand
    ensures { result ≡ literal token }
{
    let at = token.start;
    Operand {
        expr: Expr::Literal { token, at },
        at,
    }
}

fn constant(name: NameExpr) -> Operand
    ensures { result ≡ constant name }
{
    let at = name.at;
    Operand {
        expr: Expr::Name { name, at },
        at,
    }
}

fn conversion(alloc: Global, to: NameExpr, inside: Operand) -> Result<Operand, AllocError>
    ensures { IfOk result (λ x. x ≡ conversion to inside) }
{
    let at = to.at;
    let arg = Boxed::new(alloc, inside.expr)?;
    Ok(Operand {
        expr: Expr::Convert { to, arg, at },
        at,
    })
}

fn enclosed(alloc: Global, at: u32, inside: Operand) -> Result<Operand, AllocError>
    ensures { IfOk result (λ x. x ≡ enclosed at inside) }
{
    let arg = Boxed::new(alloc, inside.expr)?;
    Ok(Operand {
        expr: Expr::Paren { arg, at },
        at,
    })
}

fn unary(alloc: Global, op: Operator, at: u32, inside: Operand) -> Result<Operand, AllocError>
    ensures { IfOk result (λ x. x ≡ unary op at inside) }
{
    let arg = Boxed::new(alloc, inside.expr)?;
    Ok(Operand {
        expr: Expr::Unary { op, arg, at },
        at,
    })
}

fn binary(
    alloc: Global,
    op: Operator,
    op_at: u32,
    left: Operand,
    right: Operand,
) -> Result<Operand, AllocError>
    ensures { IfOk result (λ x. x ≡ binary op op_at left right) }
{
    let at = left.at;
    let left = Boxed::new(alloc, left.expr)?;
    let right = Boxed::new(alloc, right.expr)?;
    Ok(Operand {
        expr: Expr::Binary {
            op,
            op_at,
            left,
            right,
            at,
        },
        at,
    })
}

/// Why no expression is read where no node is left.
fn no_expr(tokens: Tokens<'_>) -> Fault
    ensures { no_expr tokens.now ≡ Err result }
{
    if starts(Kind::ExprStart, tokens) {
        too_deep(tokens)
    } else {
        Fault::Unexpected(tokens.len())
    }
}

/// An operand behind which no parenthesis may stand.
fn uncalled(operand: Fit<Operand>, tokens: Tokens<'_>) -> Result<(Fit<Operand>, Tokens<'_>), Fault>
    ensures { Exactly (λ x. (x.0, x.1.now)) result (uncalled operand tokens.now) }
{
    match tokens {
        [first, ..] => match *first {
            Symbol::OpenParen(at) => Err(Fault::Call(tokens.len(), at)),
            _ => Ok((operand, tokens)),
        },
        [] => Ok((operand, tokens)),
    }
}

/// The end of a conversion whose parenthesis stands at this place.
fn converted(
    alloc: Global,
    to: NameExpr,
    at: u32,
    inside: Fit<Operand>,
    tokens: Tokens<'_>,
) -> Read<'_, Fit<Operand>>
    ensures { ParsesAs result (converted to at inside tokens.now) }
{
    if starts(Kind::GoesOn, tokens) {
        return Err(Stop::At(Fault::Call(tokens.len(), at)));
    }
    let rest = past(Kind::CloseParen, tokens)?;
    let (inside, spare) = inside;
    let operand = conversion(alloc, to, inside)?;
    Ok(uncalled((operand, spare), rest)?)
}

/// A conversion, after its parenthesis, which stands at this place.
#[cycle(expressions)]
fn convert(
    alloc: Global,
    to: NameExpr,
    at: u32,
    tokens: Tokens<'_>,
    left: usize,
) -> Read<'_, Fit<Operand>>
    ensures { ParsesAs result (convert_by (expr_of left 5) to at tokens.now) }
{
    if starts(Kind::CloseParen, tokens) {
        return Err(Stop::At(Fault::Call(tokens.len(), at)));
    }
    let (inside, rest) = expression(alloc, tokens, 5, left)?;
    converted(alloc, to, at, inside, rest)
}

/// A constant, or a conversion, after its name.
#[cycle(expressions)]
fn named(alloc: Global, name: NameExpr, tokens: Tokens<'_>, left: usize) -> Read<'_, Fit<Operand>>
    ensures { ParsesAs result (named_by left (expr_of left 5) name tokens.now) }
{
    match tokens {
        [first, rest @ ..] => match *first {
            Symbol::OpenParen(at) => convert(alloc, name, at, rest, left),
            _ => Ok(((constant(name), left), tokens)),
        },
        [] => Ok(((constant(name), left), tokens)),
    }
}

/// An expression in parentheses, after the first of them.
#[cycle(expressions)]
fn in_parens(alloc: Global, at: u32, tokens: Tokens<'_>, left: usize) -> Read<'_, Fit<Operand>>
    ensures { ParsesAs result (enclosed_by (expr_of left 5) at tokens.now) }
{
    let ((inside, spare), rest) = expression(alloc, tokens, 5, left)?;
    let rest = past(Kind::CloseParen, rest)?;
    let operand = enclosed(alloc, at, inside)?;
    Ok(uncalled((operand, spare), rest)?)
}

/// What stands after an operator that begins these tokens, if it may stand before an operand.
#[cycle(expressions)]
fn signed(
    alloc: Global,
    op: Operator,
    at: u32,
    tokens: Tokens<'_>,
    left: usize,
) -> Read<'_, Fit<Operand>>
    ensures { ParsesAs result (signed_by (is_unary op) (expr_of left 0) op at tokens.now) }
{
    if !is_unary(op) {
        return Err(Stop::At(Fault::Unexpected(tokens.len() + 1)));
    }
    let ((inside, spare), rest) = expression(alloc, tokens, 0, left)?;
    let operand = unary(alloc, op, at, inside)?;
    Ok(((operand, spare), rest))
}

/// A unary expression, where this many nodes are left for what stands inside.
#[cycle(expressions)]
fn unary_expression(alloc: Global, tokens: Tokens<'_>, left: usize) -> Read<'_, Fit<Operand>>
    ensures { ParsesAs result (operand_by left (expr_of left 0) (expr_of left 5) tokens.now) }
{
    let [first, rest @ ..] = tokens else {
        return Err(Stop::At(Fault::Unexpected(0)));
    };
    match first {
        Symbol::Literal(token) => Ok(uncalled((literal(*token), left), rest)?),
        Symbol::Text(text) => Ok(uncalled((literal(text.token()), left), rest)?),
        Symbol::Ident(name) => {
            let (name, rest) = dotted(*name, rest)?;
            named(alloc, name, rest, left)
        }
        Symbol::OpenParen(at) => in_parens(alloc, *at, rest, left),
        Symbol::Operator(op, at) => signed(alloc, *op, *at, rest, left),
        _ => Err(Stop::At(Fault::Unexpected(tokens.len()))),
    }
}

/// The operators of a level, after their first operand, where this many nodes are left for what stands
/// behind one of them.
#[cycle(expressions)]
fn operators(
    alloc: Global,
    first: Fit<Operand>,
    tokens: Tokens<'_>,
    level: usize,
    left: usize,
) -> Read<'_, Fit<Operand>>
    requires { 0 < level }
    ensures { ParsesAs result (climb level (expr_of left (level - 1)) first tokens.now) }
{
    let (mut found, mut spare) = first;
    let mut rest = tokens;
    loop {
        let Ok((op, after)) = operator(level, rest) else {
            return Ok(((found, spare), rest));
        };
        if spare == 0 {
            return Err(Stop::At(too_deep(rest)));
        }
        let ((right, other), next) = expression(alloc, after, level - 1, left)?;
        found = binary(alloc, op, start(rest), found, right)?;
        spare = (spare - 1).min(other);
        rest = onward(next);
    }
}

/// An expression with the binary operators up to this level, where this many nodes are left for what
/// stands inside.
#[cycle(expressions)]
fn up_to_level(
    alloc: Global,
    tokens: Tokens<'_>,
    level: usize,
    left: usize,
) -> Read<'_, Fit<Operand>>
    ensures { ParsesAs result (level_by left (expr_of left) level tokens.now) }
{
    let (mut found, mut rest) = unary_expression(alloc, tokens, left)?;
    let mut reached = 0;
    while reached < level {
        let (more, after) = operators(alloc, found, rest, reached + 1, left)?;
        found = more;
        rest = after;
        reached += 1;
    }
    Ok((found, rest))
}

/// An expression with the binary operators up to this level, with up to this many nodes on a path. With it
/// goes how many more a longest path may have.
#[cycle(expressions)]
pub fn expression(
    alloc: Global,
    tokens: Tokens<'_>,
    level: usize,
    left: usize,
) -> Read<'_, Fit<Operand>>
    ensures { ParsesAs result (expr_of left level tokens.now) }
{
    if left == 0 {
        return Err(Stop::At(no_expr(tokens)));
    }
    up_to_level(alloc, tokens, level, left - 1)
}

/// An expression that stands in no other, nor in a type: its first token tells a path that is too long.
pub fn outer_expression(alloc: Global, tokens: Tokens<'_>, left: usize) -> Read<'_, Fit<Operand>>
    ensures { ParsesAs result (outer_expr left tokens.now) }
{
    told_at(start(tokens), expression(alloc, tokens, 5, left))
}
