ghost use Rattle.std.specs.Prelude.{◌≡◌, ◌≤◌, [], false, map, Err, IfOk};
ghost use Rattle.go_expr_syntax.specs.Reading.{with_fit, ParsesAs};
ghost use Rattle.go_type_syntax.specs.Params.{bare, item, param_type, type_param, unnamed_param, lone_param};
ghost use Rattle.go_type_syntax.specs.Params.{first_param, param_at, params_row, params_end, no_bare, after_bare};
ghost use Rattle.go_type_syntax.specs.Params.{types_by, names_by, named_by, array_or_instance, after_ident};
ghost use Rattle.go_type_syntax.specs.Params.{params_from, results_by, sig_by, sig_at};
ghost use Rattle.go_type_syntax.specs.Types.{type_at};

use crate::instances::begun_type;
use crate::tree::{ParamExpr, SigExpr, TypeExpr};
use crate::types::type_expr;
use go_expr_syntax::{
    Fault, Fit, Ident, Kind, NameExpr, Read, Stop, Symbol, Tokens, after_fault, ident, more_names,
    onward, past, single, start, starts, too_deep,
};
use sqlite_items::Items;
use std::alloc::{AllocError, Global};

/// A parameter, how many more nodes its longest path might have, and whether it has to be the last.
#[derive(Drop)]
pub(crate) struct Param {
    pub(crate) expr: ParamExpr,
    pub(crate) fit: usize,
    pub(crate) last: bool,
}

/// A parameter that is a type's name.
fn bare_param(alloc: Global, name: Ident) -> ParamExpr
    ensures { result ≡ bare name }
{
    let ty = TypeExpr::Name {
        name: NameExpr {
            package: None,
            name,
            at: name.start,
        },
        args: Items::new(alloc),
        at: name.start,
    };
    ParamExpr {
        names: Items::new(alloc),
        variadic: false,
        ty,
        at: name.start,
    }
}

/// A parameter without a name, of this type.
fn bare_type(alloc: Global, ty: TypeExpr, at: u32, fit: usize) -> Param
    ensures { result ≡ item [] false (ty, fit) at }
{
    let expr = ParamExpr {
        names: Items::new(alloc),
        variadic: false,
        ty,
        at,
    };
    let last = false;
    Param { expr, fit, last }
}

/// A parameter for each name of a type.
fn bare_list(alloc: Global, names: &[Ident]) -> Result<Vec<ParamExpr>, AllocError>
    ensures { IfOk result (λ params. params.items ≡ map bare names.now) }
{
    names
        .iter()
        .map(|name| bare_param(alloc, *name))
        .collect(alloc)
}

/// Parameters that are the names of types.
fn bare_params(alloc: Global, names: &[Ident]) -> Result<Items<ParamExpr>, AllocError>
    ensures { IfOk result (λ params. params ≡ map bare names.now) }
{
    let params = bare_list(alloc, names)?;
    Ok(Items::from_vec(params))
}

/// Why no types are read where no node is left for the identifiers before these tokens.
fn no_bare(variadic: bool, tokens: Tokens<'_>) -> Fault
    ensures { no_bare variadic tokens.now ≡ Err result }
{
    let kind = if variadic {
        Kind::ListEndOrDots
    } else {
        Kind::ListEnd
    };
    if starts(kind, tokens) {
        too_deep(tokens)
    } else {
        Fault::Unexpected(tokens.len())
    }
}

/// The type of a parameter, after its names and the dots.
#[cycle(types)]
fn param_type(
    alloc: Global,
    names: Items<Ident>,
    variadic: bool,
    at: u32,
    tokens: Tokens<'_>,
    left: usize,
) -> Read<'_, Param>
    ensures { ParsesAs result (param_type (type_at left) names variadic at tokens.now) }
{
    let ((ty, fit), rest) = type_expr(alloc, tokens, left)?;
    let expr = ParamExpr {
        names,
        variadic,
        ty,
        at,
    };
    let last = variadic;
    Ok((Param { expr, fit, last }, rest))
}

/// A parameter that is a type.
#[cycle(types)]
fn type_param(alloc: Global, tokens: Tokens<'_>, left: usize) -> Read<'_, Param>
    ensures { ParsesAs result (type_param (type_at left) tokens.now) }
{
    let at = start(tokens);
    let ((ty, fit), rest) = type_expr(alloc, tokens, left)?;
    let expr = ParamExpr {
        names: Items::new(alloc),
        variadic: false,
        ty,
        at,
    };
    let last = false;
    Ok((Param { expr, fit, last }, rest))
}

/// A parameter without a name.
#[cycle(types)]
fn unnamed_param(alloc: Global, variadic: bool, tokens: Tokens<'_>, left: usize) -> Read<'_, Param>
    ensures { ParsesAs result (unnamed_param variadic (type_at left) tokens.now) }
{
    if !variadic {
        return type_param(alloc, tokens, left);
    }
    if let Ok(rest) = past(Kind::Ellipsis, tokens) {
        let at = start(tokens);
        return param_type(alloc, Items::new(alloc), true, at, rest, left);
    }
    type_param(alloc, tokens, left)
}

/// A parameter with one name, after the name.
#[cycle(types)]
fn lone_param(
    alloc: Global,
    variadic: bool,
    name: Ident,
    tokens: Tokens<'_>,
    left: usize,
) -> Read<'_, Param>
    ensures { ParsesAs result (lone_param variadic (type_at left) name tokens.now) }
{
    let names = single(alloc, name)?;
    if !variadic {
        return param_type(alloc, names, false, name.start, tokens, left);
    }
    if let Ok(rest) = past(Kind::Ellipsis, tokens) {
        return param_type(alloc, names, true, name.start, rest, left);
    }
    param_type(alloc, names, false, name.start, tokens, left)
}

/// A parameter with names, after the first of them.
#[cycle(types)]
fn first_param(
    alloc: Global,
    variadic: bool,
    name: Ident,
    tokens: Tokens<'_>,
    left: usize,
) -> Read<'_, Param>
    ensures { ParsesAs result (first_param variadic (type_at left) name tokens.now) }
{
    if let Ok(rest) = past(Kind::Comma, tokens) {
        let (names, rest) = more_names(alloc, name, rest)?;
        return param_type(alloc, names, false, name.start, rest, left);
    }
    lone_param(alloc, variadic, name, tokens, left)
}

/// A parameter, with names or without.
#[cycle(types)]
fn one_param(
    alloc: Global,
    named: bool,
    variadic: bool,
    tokens: Tokens<'_>,
    left: usize,
) -> Read<'_, Param>
    ensures { ParsesAs result (param_at named variadic (type_at left) tokens.now) }
{
    if named {
        let (name, rest) = ident(tokens)?;
        return first_param(alloc, variadic, name, rest, left);
    }
    unnamed_param(alloc, variadic, tokens, left)
}

/// Parameters up to the parenthesis that closes, after those that were found.
#[cycle(types)]
fn param_row(
    alloc: Global,
    found: Fit<Items<ParamExpr>>,
    named: bool,
    variadic: bool,
    tokens: Tokens<'_>,
    left: usize,
) -> Read<'_, Fit<Items<ParamExpr>>>
    requires { found.1 ≤ left }
    ensures { ParsesAs result (with_fit found (params_row named variadic left (type_at left) tokens.now)) }
{
    let (mut params, mut fit) = found;
    let mut rest = tokens;
    loop {
        if let Ok(after) = past(Kind::CloseParen, rest) {
            return Ok(((params, fit), after));
        }
        let (param, behind) = one_param(alloc, named, variadic, rest, left)?;
        let last = param.last;
        fit = fit.min(param.fit);
        params.push(param.expr)?;
        if let Ok(after) = past(Kind::CloseParen, behind) {
            return Ok(((params, fit), after));
        }
        let next = past(Kind::Comma, behind)?;
        if last {
            let after = past(Kind::CloseParen, next)?;
            return Ok(((params, fit), after));
        }
        rest = onward(next);
    }
}

/// Parameters up to the parenthesis that closes, after those that were found and one more.
#[cycle(types)]
fn param_end(
    alloc: Global,
    found: Fit<Items<ParamExpr>>,
    param: Param,
    named: bool,
    variadic: bool,
    tokens: Tokens<'_>,
    left: usize,
) -> Read<'_, Fit<Items<ParamExpr>>>
    requires { found.1 ≤ left }
    ensures { ParsesAs result (with_fit found (params_end named variadic left (type_at left) param tokens.now)) }
{
    let (mut params, fit) = found;
    let fit = fit.min(param.fit);
    let last = param.last;
    params.push(param.expr)?;
    if let Ok(after) = past(Kind::CloseParen, tokens) {
        return Ok(((params, fit), after));
    }
    let rest = past(Kind::Comma, tokens)?;
    if last {
        let after = past(Kind::CloseParen, rest)?;
        return Ok(((params, fit), after));
    }
    param_row(alloc, (params, fit), named, variadic, rest, left)
}

/// Parameters after identifiers with a comma behind each, where no identifier comes next.
#[cycle(types)]
fn after_bare<'a>(
    alloc: Global,
    names: &[Ident],
    variadic: bool,
    tokens: Tokens<'a>,
    left: usize,
) -> Read<'a, Fit<Items<ParamExpr>>>
    ensures { ParsesAs result (after_bare variadic left (type_at left) names.now tokens.now) }
{
    if names.is_empty() {
        return param_row(
            alloc,
            (Items::new(alloc), left),
            false,
            variadic,
            tokens,
            left,
        );
    }
    if left == 0 {
        return Err(Stop::At(no_bare(variadic, tokens)));
    }
    let params = bare_params(alloc, names)?;
    param_row(alloc, (params, left - 1), false, variadic, tokens, left)
}

/// A type in a list of parameters, after its first identifier and those before it.
#[cycle(types)]
fn first_type<'a>(
    alloc: Global,
    names: &[Ident],
    name: Ident,
    variadic: bool,
    tokens: Tokens<'a>,
    left: usize,
) -> Read<'a, Fit<Items<ParamExpr>>>
    ensures { ParsesAs result (types_by variadic left (type_at left) names.now name tokens.now) }
{
    if left == 0 {
        return Err(Stop::At(too_deep(tokens)));
    }
    let ((ty, fit), rest) = begun_type(alloc, name, tokens, left - 1)?;
    let params = bare_params(alloc, names)?;
    let param = bare_type(alloc, ty, name.start, fit);
    param_end(
        alloc,
        (params, left - 1),
        param,
        false,
        variadic,
        rest,
        left,
    )
}

/// The first parameter of a list with names, after the last of its names.
#[cycle(types)]
fn shared_param(
    alloc: Global,
    names: Items<Ident>,
    name: Ident,
    variadic: bool,
    tokens: Tokens<'_>,
    left: usize,
) -> Read<'_, Param>
    ensures { ParsesAs result (names_by variadic (type_at left) names name tokens.now) }
{
    let Some(first) = names.get(0) else {
        return lone_param(alloc, variadic, name, tokens, left);
    };
    let at = first.start;
    let mut names = names;
    names.push(name)?;
    param_type(alloc, names, false, at, tokens, left)
}

/// A parameter that is an array or a slice, or a type with arguments, and those after it.
#[cycle(types)]
fn array_or_instance<'a>(
    alloc: Global,
    names: &[Ident],
    name: Ident,
    variadic: bool,
    tokens: Tokens<'a>,
    left: usize,
) -> Read<'a, Fit<Items<ParamExpr>>>
    ensures { ParsesAs result (array_or_instance variadic left (type_at left) names.now name tokens.now) }
{
    let own = Items::from_slice(alloc, names)?;
    match named_params(alloc, own, name, variadic, tokens, left) {
        Err(Stop::At(fault)) => {
            after_fault(
                fault,
                first_type(alloc, names, name, variadic, tokens, left),
            )
        }
        read => read,
    }
}

/// Parameters after identifiers and one with no comma behind.
#[cycle(types)]
fn after_ident(
    alloc: Global,
    names: Items<Ident>,
    name: Ident,
    variadic: bool,
    tokens: Tokens<'_>,
    left: usize,
) -> Read<'_, Fit<Items<ParamExpr>>>
    ensures { ParsesAs result (after_ident variadic left (type_at left) names name tokens.now) }
{
    if starts(Kind::ParamEnd, tokens) {
        return first_type(alloc, names.as_slice(), name, variadic, tokens, left);
    }
    if starts(Kind::OpenBracket, tokens) {
        return array_or_instance(alloc, names.as_slice(), name, variadic, tokens, left);
    }
    named_params(alloc, names, name, variadic, tokens, left)
}

/// Parameters with names, after the names of the first.
#[cycle(types)]
fn named_params(
    alloc: Global,
    names: Items<Ident>,
    name: Ident,
    variadic: bool,
    tokens: Tokens<'_>,
    left: usize,
) -> Read<'_, Fit<Items<ParamExpr>>>
    ensures { ParsesAs result (named_by variadic left (type_at left) names name tokens.now) }
{
    let (param, rest) = shared_param(alloc, names, name, variadic, tokens, left)?;
    param_end(
        alloc,
        (Items::new(alloc), left),
        param,
        true,
        variadic,
        rest,
        left,
    )
}

/// Parameters up to the parenthesis that closes.
#[cycle(types)]
fn params(
    alloc: Global,
    variadic: bool,
    tokens: Tokens<'_>,
    left: usize,
) -> Read<'_, Fit<Items<ParamExpr>>>
    ensures { ParsesAs result (params_from variadic left (type_at left) [] tokens.now) }
{
    let mut names = Items::new(alloc);
    let mut rest = tokens;
    loop {
        let Ok((name, after)) = ident(rest) else {
            return after_bare(alloc, names.as_slice(), variadic, rest, left);
        };
        let Ok(next) = past(Kind::Comma, after) else {
            return after_ident(alloc, names, name, variadic, after, left);
        };
        names.push(name)?;
        rest = onward(next);
    }
}

/// The results of a function, after its parameters.
#[cycle(types)]
fn results(
    alloc: Global,
    params: Fit<Items<ParamExpr>>,
    at: u32,
    tokens: Tokens<'_>,
    left: usize,
) -> Read<'_, Fit<SigExpr>>
    ensures { ParsesAs result (results_by left (type_at left) at params tokens.now) }
{
    let (params, fit) = params;
    if let Ok(rest) = past(Kind::OpenParen, tokens) {
        let ((results, inside), rest) = self::params(alloc, false, rest, left)?;
        let sig = SigExpr {
            params,
            results,
            at,
        };
        return Ok(((sig, fit.min(inside)), rest));
    }
    if starts(Kind::TypeStart, tokens) {
        let (result, rest) = type_param(alloc, tokens, left)?;
        let fit = fit.min(result.fit);
        let results = single(alloc, result.expr)?;
        let sig = SigExpr {
            params,
            results,
            at,
        };
        return Ok(((sig, fit), rest));
    }
    let results = Items::new(alloc);
    let sig = SigExpr {
        params,
        results,
        at,
    };
    Ok(((sig, fit), tokens))
}

/// The parameters and results of a function.
#[cycle(types)]
pub fn signature(alloc: Global, tokens: Tokens<'_>, left: usize) -> Read<'_, Fit<SigExpr>>
    ensures { ParsesAs result (sig_at left (type_at left) tokens.now) }
{
    let [first, rest @ ..] = tokens else {
        return Err(Stop::At(Fault::Unexpected(0)));
    };
    match *first {
        Symbol::OpenParen(at) => {
            let (params, rest) = params(alloc, true, rest, left)?;
            results(alloc, params, at, rest, left)
        }
        _ => Err(Stop::At(Fault::Unexpected(tokens.len()))),
    }
}
