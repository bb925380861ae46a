ghost use Rattle.std.specs.Prelude.{◌≡◌, ◌≤◌};
ghost use Rattle.go_expr_syntax.specs.Reading.{told_at, with_fit, series, ParsesAs};
ghost use Rattle.go_type_syntax.specs.Elements.{type_list, types_at, args_by, name_by};
ghost use Rattle.go_type_syntax.specs.Types.{type_at};

use crate::tree::TypeExpr;
use crate::types::type_expr;
use go_expr_syntax::{
    Fit, Ident, Kind, NameExpr, Read, Stop, Tokens, dotted, onward, past, single, told_at,
};
use sqlite_items::Items;
use std::alloc::Global;

/// Type arguments up to the bracket that closes, after those that were found.
#[cycle(types)]
fn arg_row(
    alloc: Global,
    found: Fit<Items<TypeExpr>>,
    tokens: Tokens<'_>,
    left: usize,
) -> Read<'_, Fit<Items<TypeExpr>>>
    requires { found.1 ≤ left }
    ensures { ParsesAs result (with_fit found (series (type_list left) (type_at left) tokens.now)) }
{
    let (mut args, mut fit) = found;
    let mut rest = tokens;
    loop {
        if let Ok(after) = past(Kind::CloseBracket, rest) {
            return Ok(((args, fit), after));
        }
        let ((arg, inside), behind) = type_expr(alloc, rest, left)?;
        fit = fit.min(inside);
        args.push(arg)?;
        if let Ok(after) = past(Kind::CloseBracket, behind) {
            return Ok(((args, fit), after));
        }
        let next = past(Kind::Comma, behind)?;
        rest = onward(next);
    }
}

/// Type arguments up to the bracket that closes, one at least.
#[cycle(types)]
fn type_args(alloc: Global, tokens: Tokens<'_>, left: usize) -> Read<'_, Fit<Items<TypeExpr>>>
    ensures { ParsesAs result (types_at left (type_at left) tokens.now) }
{
    let ((first, fit), rest) = type_expr(alloc, tokens, left)?;
    let fit = fit.min(left);
    let args = single(alloc, first)?;
    if let Ok(after) = past(Kind::CloseBracket, rest) {
        return Ok(((args, fit), after));
    }
    let rest = past(Kind::Comma, rest)?;
    arg_row(alloc, (args, fit), rest, left)
}

/// The arguments of a generic type, if they come next after its name.
#[cycle(types)]
fn with_args(
    alloc: Global,
    name: NameExpr,
    tokens: Tokens<'_>,
    left: usize,
) -> Read<'_, Fit<TypeExpr>>
    ensures { ParsesAs result (args_by left (type_at left) name tokens.now) }
{
    let at = name.at;
    if let Ok(rest) = past(Kind::OpenBracket, tokens) {
        let ((args, fit), rest) = type_args(alloc, rest, left)?;
        return Ok(((TypeExpr::Name { name, args, at }, fit), rest));
    }
    let args = Items::new(alloc);
    Ok(((TypeExpr::Name { name, args, at }, left), tokens))
}

/// The name of a type with its arguments, after its first identifier, where this many nodes are left for them.
#[cycle(types)]
pub(crate) fn named_type(
    alloc: Global,
    first: Ident,
    tokens: Tokens<'_>,
    left: usize,
) -> Read<'_, Fit<TypeExpr>>
    ensures { ParsesAs result (name_by left (type_at left) first tokens.now) }
{
    let (name, rest) = dotted(first, tokens)?;
    with_args(alloc, name, rest, left)
}

/// A type that begins with this identifier, after it, which tells a path that is too long.
#[cycle(types)]
pub(crate) fn begun_type(
    alloc: Global,
    first: Ident,
    tokens: Tokens<'_>,
    left: usize,
) -> Read<'_, Fit<TypeExpr>>
    ensures { ParsesAs result (told_at first.start (name_by left (type_at left) first tokens.now)) }
{
    told_at(first.start, named_type(alloc, first, tokens, left))
}
