ghost use Rattle.std.specs.Prelude.{◌≡◌, None};
ghost use Rattle.go_expr_syntax.specs.Reading.{row, is_close_paren, ParsesAs};
ghost use Rattle.go_syntax.specs.Constants.{source_of, constants, exprs_at, const_values, const_assign, const_typed};
ghost use Rattle.go_syntax.specs.Constants.{const_rest, const_first, const_spec_at};
ghost use Rattle.go_syntax.specs.Files.{counting, const_group_at};

use crate::tree::{ConstSpec, Top};
use go_expr_syntax::{
    Expr, Ident, Kind, Read, Stop, Tokens, ident, more_names, onward, outer_expression, past,
    single, starts,
};
use go_type_syntax::{TypeExpr, type_expr};
use sqlite_items::Items;
use std::alloc::Global;

/// Constants as they are written. With no values they repeat those before them.
#[derive(Drop)]
pub(crate) struct Written {
    pub names: Items<Ident>,
    pub ty: Option<TypeExpr>,
    pub values: Items<Expr>,
}

/// Expressions with a comma between each two.
fn expression_list(alloc: Global, tokens: Tokens<'_>, left: usize) -> Read<'_, Items<Expr>>
    ensures { ParsesAs result (exprs_at left tokens.now) }
{
    let mut found = Items::new(alloc);
    let mut rest = tokens;
    loop {
        let ((value, _), after) = outer_expression(alloc, rest, left)?;
        found.push(value.expr)?;
        let Ok(next) = past(Kind::Comma, after) else {
            return Ok((found, after));
        };
        rest = onward(next);
    }
}

/// The values of constants, after the sign.
fn values(
    alloc: Global,
    names: Items<Ident>,
    ty: Option<TypeExpr>,
    tokens: Tokens<'_>,
    left: usize,
) -> Read<'_, Written>
    ensures { ParsesAs result (const_values left names ty tokens.now) }
{
    let (values, rest) = expression_list(alloc, tokens, left)?;
    Ok((Written { names, ty, values }, rest))
}

/// The values of constants of this type.
fn assigned(
    alloc: Global,
    names: Items<Ident>,
    ty: TypeExpr,
    tokens: Tokens<'_>,
    left: usize,
) -> Read<'_, Written>
    ensures { ParsesAs result (const_assign left names ty tokens.now) }
{
    let rest = past(Kind::Assign, tokens)?;
    values(alloc, names, Some(ty), rest, left)
}

/// The type and values of constants.
fn typed(alloc: Global, names: Items<Ident>, tokens: Tokens<'_>, left: usize) -> Read<'_, Written>
    ensures { ParsesAs result (const_typed left names tokens.now) }
{
    let ((ty, _), rest) = type_expr(alloc, tokens, left)?;
    assigned(alloc, names, ty, rest, left)
}

/// What follows the names of constants.
fn after_names(
    alloc: Global,
    names: Items<Ident>,
    tokens: Tokens<'_>,
    left: usize,
) -> Read<'_, Written>
    ensures { ParsesAs result (const_rest left names tokens.now) }
{
    if let Ok(rest) = past(Kind::Assign, tokens) {
        return values(alloc, names, None, rest, left);
    }
    if starts(Kind::TypeStart, tokens) {
        return typed(alloc, names, tokens, left);
    }
    let empty = Written {
        names,
        ty: None,
        values: Items::new(alloc),
    };
    Ok((empty, tokens))
}

/// Constants, after their first name.
fn first_const(alloc: Global, first: Ident, tokens: Tokens<'_>, left: usize) -> Read<'_, Written>
    ensures { ParsesAs result (const_first left first tokens.now) }
{
    if let Ok(rest) = past(Kind::Comma, tokens) {
        let (names, rest) = more_names(alloc, first, rest)?;
        return after_names(alloc, names, rest, left);
    }
    let names = single(alloc, first)?;
    after_names(alloc, names, tokens, left)
}

/// A specification of constants.
fn const_spec(alloc: Global, tokens: Tokens<'_>, left: usize) -> Read<'_, Written>
    ensures { ParsesAs result (const_spec_at left tokens.now) }
{
    let (first, rest) = ident(tokens)?;
    first_const(alloc, first, rest, left)
}

/// The number of the specification whose type and values this one has, where it is the one of this number
/// and the last before it has those of another.
fn source_of(written: &Written, iota: usize, last: usize) -> usize
    ensures { result ≡ source_of written.now.values iota last }
{
    if written.values.is_empty() {
        last
    } else {
        iota
    }
}

/// What a specification of this number declares.
fn constants(written: Written, iota: usize, source: usize) -> Top
    ensures { result ≡ constants written iota source }
{
    let Written { names, ty, values } = written;
    Top::Constant(ConstSpec {
        names,
        ty,
        values,
        iota,
        source,
    })
}

/// The constants of a group, after its parenthesis.
fn const_block(alloc: Global, tokens: Tokens<'_>, left: usize) -> Read<'_, Items<Top>>
    ensures { ParsesAs result (counting 0 0 (row is_close_paren (const_spec_at left) tokens.now)) }
{
    let mut found = Items::new(alloc);
    let mut last = 0;
    let mut rest = tokens;
    loop {
        if let Ok(after) = past(Kind::CloseParen, rest) {
            return Ok((found, after));
        }
        let (spec, behind) = const_spec(alloc, rest, left)?;
        let iota = found.len();
        last = source_of(&spec, iota, last);
        found.push(constants(spec, iota, last))?;
        if let Ok(after) = past(Kind::CloseParen, behind) {
            return Ok((found, after));
        }
        let next = past(Kind::Semicolon, behind)?;
        rest = onward(next);
    }
}

/// One specification of constants, or a group of them.
pub(crate) fn const_group(alloc: Global, tokens: Tokens<'_>, left: usize) -> Read<'_, Items<Top>>
    ensures { ParsesAs result (const_group_at left tokens.now) }
{
    if let Ok(rest) = past(Kind::OpenParen, tokens) {
        return const_block(alloc, rest, left);
    }
    let (spec, rest) = const_spec(alloc, tokens, left)?;
    let mut found = Items::new(alloc);
    let source = source_of(&spec, 0, 0);
    found.push(constants(spec, 0, source))?;
    Ok((found, rest))
}
