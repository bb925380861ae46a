ghost use Rattle.std.specs.Prelude.{◌≡◌};
ghost use Rattle.go_expr_syntax.specs.Reading.{ParsesAs};
ghost use Rattle.go_syntax.specs.Generics.{opens_params, constraint_at, tparam_type, tparam_first, tparam_at};
ghost use Rattle.go_syntax.specs.Generics.{tparams_row, tparams_at, generic_at};

use crate::tree::TParam;
use go_expr_syntax::{
    Fit, Ident, Kind, Read, Stop, Symbol, Tokens, ident, more_names, onward, past, single, start,
    starts, told_at,
};
use go_type_syntax::{TypeExpr, union_type};
use sqlite_items::Items;
use std::alloc::Global;

/// Whether type parameters come next after a declared type's name, and not an array: a bracket and an
/// identifier, and no token behind them that goes on with a length or ends it.
pub(crate) fn opens_params(tokens: Tokens<'_>) -> bool
    ensures { result ≡ opens_params tokens.now }
{
    match tokens {
        [Symbol::OpenBracket(_), Symbol::Ident(_), rest @ ..] => !starts(Kind::LengthEnd, rest),
        _ => false,
    }
}

/// A constraint, whose own first token tells a path that is too long.
fn constraint(alloc: Global, tokens: Tokens<'_>, left: usize) -> Read<'_, Fit<TypeExpr>>
    ensures { ParsesAs result (constraint_at left tokens.now) }
{
    told_at(start(tokens), union_type(alloc, tokens, left))
}

/// The constraint of type parameters, after their names.
fn constrained(
    alloc: Global,
    names: Items<Ident>,
    at: u32,
    tokens: Tokens<'_>,
    left: usize,
) -> Read<'_, TParam>
    ensures { ParsesAs result (tparam_type left names at tokens.now) }
{
    let ((constraint, _), rest) = constraint(alloc, tokens, left)?;
    let tparam = TParam {
        names,
        constraint,
        at,
    };
    Ok((tparam, rest))
}

/// Type parameters that share a constraint, after their first name.
fn first_tparam(alloc: Global, first: Ident, tokens: Tokens<'_>, left: usize) -> Read<'_, TParam>
    ensures { ParsesAs result (tparam_first left first tokens.now) }
{
    if let Ok(rest) = past(Kind::Comma, tokens) {
        let (names, rest) = more_names(alloc, first, rest)?;
        return constrained(alloc, names, first.start, rest, left);
    }
    let names = single(alloc, first)?;
    constrained(alloc, names, first.start, tokens, left)
}

/// Type parameters that share a constraint.
fn one_tparam(alloc: Global, tokens: Tokens<'_>, left: usize) -> Read<'_, TParam>
    ensures { ParsesAs result (tparam_at left tokens.now) }
{
    let (first, rest) = ident(tokens)?;
    first_tparam(alloc, first, rest, left)
}

/// Type parameters up to the bracket that closes, after those that were found.
fn tparam_row(
    alloc: Global,
    found: Items<TParam>,
    tokens: Tokens<'_>,
    left: usize,
) -> Read<'_, Items<TParam>>
    ensures { ParsesAs result (tparams_row left found tokens.now) }
{
    let mut found = found;
    let mut rest = tokens;
    loop {
        if let Ok(after) = past(Kind::CloseBracket, rest) {
            return Ok((found, after));
        }
        let (tparam, behind) = one_tparam(alloc, rest, left)?;
        found.push(tparam)?;
        if let Ok(after) = past(Kind::CloseBracket, behind) {
            return Ok((found, after));
        }
        let next = past(Kind::Comma, behind)?;
        rest = onward(next);
    }
}

/// Type parameters up to the bracket that closes, one at least.
pub(crate) fn type_params(alloc: Global, tokens: Tokens<'_>, left: usize) -> Read<'_, Items<TParam>>
    ensures { ParsesAs result (tparams_at left tokens.now) }
{
    let (first, rest) = one_tparam(alloc, tokens, left)?;
    let found = single(alloc, first)?;
    if let Ok(after) = past(Kind::CloseBracket, rest) {
        return Ok((found, after));
    }
    let rest = past(Kind::Comma, rest)?;
    tparam_row(alloc, found, rest, left)
}

/// The type parameters of a function, if they come next.
pub(crate) fn generic(alloc: Global, tokens: Tokens<'_>, left: usize) -> Read<'_, Items<TParam>>
    ensures { ParsesAs result (generic_at left tokens.now) }
{
    if let Ok(rest) = past(Kind::OpenBracket, tokens) {
        return type_params(alloc, rest, left);
    }
    Ok((Items::new(alloc), tokens))
}
