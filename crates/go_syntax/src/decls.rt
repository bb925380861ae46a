ghost use Rattle.std.specs.Prelude.{◌≡◌, ◌≤◌, IfOk};
ghost use Rattle.go_expr_syntax.specs.Reading.{Exactly, row, is_close_paren, ParsesAs};
ghost use Rattle.go_syntax.specs.Files.{text_at, named_import, import_at, value_at, vars_typed, vars_rest, vars_first};
ghost use Rattle.go_syntax.specs.Files.{declared_by, type_first, group_at, const_group_at, func_group_at, some_decl};
ghost use Rattle.go_syntax.specs.Files.{import_decl, top_decl};
ghost use Rattle.go_syntax.specs.Decls.{import};
ghost use Rattle.go_syntax.specs.Specs.{spec_of};

use crate::constants::const_group;
use crate::functions::func_decl;
use crate::generics::{opens_params, type_params};
use crate::skipped::skipped;
use crate::tree::{Import, TParam, Top, TypeSpec, VarSpec};
use go_expr_syntax::{
    Fault, Ident, Kind, Quoted, Read, Stop, Symbol, Tokens, ident, more_names, onward, past, single,
};
use go_type_syntax::type_expr;
use sqlite_items::Items;
use std::alloc::{AllocError, Global};
use string_literals::unquoted;

/// What a declaration declares.
#[derive(Clone, Copy)]
pub(crate) enum Keyword {
    Var,
    Type,
}

/// A string literal.
fn text(tokens: Tokens<'_>) -> Result<(&Quoted<'_>, Tokens<'_>), Fault>
    ensures { Exactly (λ x. (x.0.now, x.1.now)) result (text_at tokens.now) }
{
    match tokens {
        [first, rest @ ..] => match first {
            Symbol::Text(text) => Ok((text, rest)),
            _ => Err(Fault::Unexpected(tokens.len())),
        },
        [] => Err(Fault::Unexpected(0)),
    }
}

/// An import with the path of this literal.
fn import(alloc: Global, name: Option<Ident>, path: &Quoted) -> Result<Import, AllocError>
    ensures { IfOk result (λ x. x ≡ import name path.now) }
{
    let at = path.token().start;
    let path = unquoted(alloc, path.text())?;
    Ok(Import { name, path, at })
}

/// An import, after its name.
fn named_import(alloc: Global, name: Ident, tokens: Tokens<'_>) -> Read<'_, Import>
    ensures { ParsesAs result (named_import name tokens.now) }
{
    let (path, rest) = text(tokens)?;
    Ok((import(alloc, Some(name), path)?, rest))
}

/// An import, after the keyword or in a group.
fn import_spec(alloc: Global, tokens: Tokens<'_>) -> Read<'_, Import>
    ensures { ParsesAs result (import_at tokens.now) }
{
    let [first, rest @ ..] = tokens else {
        return Err(Stop::At(Fault::Unexpected(0)));
    };
    match first {
        Symbol::Text(path) => Ok((import(alloc, None, path)?, rest)),
        Symbol::Ident(name) => named_import(alloc, *name, rest),
        Symbol::Dot(_) => Err(Stop::At(Fault::DotImport(tokens.len()))),
        _ => Err(Stop::At(Fault::Unexpected(tokens.len()))),
    }
}

/// Variables with their value, if one comes next.
fn with_value(alloc: Global, vars: Top, tokens: Tokens<'_>) -> Read<'_, Top>
    ensures { ParsesAs result (value_at vars tokens.now) }
{
    if let Ok(rest) = past(Kind::Assign, tokens) {
        let rest = skipped(alloc, true, rest)?;
        return Ok((vars, rest));
    }
    Ok((vars, tokens))
}

/// The type of variables, after their names.
fn typed_vars(alloc: Global, names: Items<Ident>, tokens: Tokens<'_>, left: usize) -> Read<'_, Top>
    ensures { ParsesAs result (vars_typed left names tokens.now) }
{
    let ((ty, _), rest) = type_expr(alloc, tokens, left)?;
    let ty = Some(ty);
    with_value(alloc, Top::Var(VarSpec { names, ty }), rest)
}

/// What follows the names of variables.
fn after_var_names(
    alloc: Global,
    names: Items<Ident>,
    tokens: Tokens<'_>,
    left: usize,
) -> Read<'_, Top>
    ensures { ParsesAs result (vars_rest left names tokens.now) }
{
    if let Ok(rest) = past(Kind::Assign, tokens) {
        let rest = skipped(alloc, true, rest)?;
        return Ok((Top::Var(VarSpec { names, ty: None }), rest));
    }
    typed_vars(alloc, names, tokens, left)
}

/// Variables, after their first name.
fn first_var(alloc: Global, first: Ident, tokens: Tokens<'_>, left: usize) -> Read<'_, Top>
    ensures { ParsesAs result (vars_first left first tokens.now) }
{
    if let Ok(rest) = past(Kind::Comma, tokens) {
        let (names, rest) = more_names(alloc, first, rest)?;
        return after_var_names(alloc, names, rest, left);
    }
    let names = single(alloc, first)?;
    after_var_names(alloc, names, tokens, left)
}

/// A declared type, after its name and type parameters.
fn declared(
    alloc: Global,
    name: Ident,
    tparams: Items<TParam>,
    tokens: Tokens<'_>,
    left: usize,
) -> Read<'_, Top>
    ensures { ParsesAs result (declared_by left name tparams tokens.now) }
{
    if let Ok(rest) = past(Kind::Assign, tokens) {
        let ((ty, _), rest) = type_expr(alloc, rest, left)?;
        return Ok((Top::Alias(TypeSpec { name, tparams, ty }), rest));
    }
    let ((ty, _), rest) = type_expr(alloc, tokens, left)?;
    Ok((Top::Defined(TypeSpec { name, tparams, ty }), rest))
}

/// A declared type, after its name.
fn first_type(alloc: Global, name: Ident, tokens: Tokens<'_>, left: usize) -> Read<'_, Top>
    ensures { ParsesAs result (type_first left name tokens.now) }
{
    if opens_params(tokens) {
        let rest = past(Kind::OpenBracket, tokens)?;
        let (tparams, rest) = type_params(alloc, rest, left)?;
        return declared(alloc, name, tparams, rest, left);
    }
    declared(alloc, name, Items::new(alloc), tokens, left)
}

/// A specification of this kind.
fn one_spec(alloc: Global, keyword: Keyword, tokens: Tokens<'_>, left: usize) -> Read<'_, Top>
    ensures { ParsesAs result (spec_of keyword left tokens.now) }
{
    let (first, rest) = ident(tokens)?;
    match keyword {
        Keyword::Var => first_var(alloc, first, rest, left),
        Keyword::Type => first_type(alloc, first, rest, left),
    }
}

/// The imports of a group, after its parenthesis.
fn import_block(alloc: Global, tokens: Tokens<'_>) -> Read<'_, Items<Import>>
    ensures { ParsesAs result (row is_close_paren import_at tokens.now) }
{
    let mut found = Items::new(alloc);
    let mut rest = tokens;
    loop {
        if let Ok(after) = past(Kind::CloseParen, rest) {
            return Ok((found, after));
        }
        let (import, behind) = import_spec(alloc, rest)?;
        found.push(import)?;
        if let Ok(after) = past(Kind::CloseParen, behind) {
            return Ok((found, after));
        }
        let next = past(Kind::Semicolon, behind)?;
        rest = onward(next);
    }
}

/// The specifications of a group, after its parenthesis.
fn spec_block(
    alloc: Global,
    keyword: Keyword,
    tokens: Tokens<'_>,
    left: usize,
) -> Read<'_, Items<Top>>
    requires { 2 ≤ left }
    ensures { ParsesAs result (row is_close_paren (spec_of keyword left) tokens.now) }
{
    let mut found = Items::new(alloc);
    let mut rest = tokens;
    loop {
        if let Ok(after) = past(Kind::CloseParen, rest) {
            return Ok((found, after));
        }
        let (spec, behind) = one_spec(alloc, keyword, rest, left)?;
        found.push(spec)?;
        if let Ok(after) = past(Kind::CloseParen, behind) {
            return Ok((found, after));
        }
        let next = past(Kind::Semicolon, behind)?;
        rest = onward(next);
    }
}

/// One import, or a group of them.
fn import_group(alloc: Global, tokens: Tokens<'_>) -> Read<'_, Items<Import>>
    ensures { ParsesAs result (group_at import_at tokens.now) }
{
    if let Ok(rest) = past(Kind::OpenParen, tokens) {
        return import_block(alloc, rest);
    }
    let (import, rest) = import_spec(alloc, tokens)?;
    let mut imports = Items::new(alloc);
    imports.push(import)?;
    Ok((imports, rest))
}

/// One specification, or a group of them.
fn spec_group(
    alloc: Global,
    keyword: Keyword,
    tokens: Tokens<'_>,
    left: usize,
) -> Read<'_, Items<Top>>
    requires { 2 ≤ left }
    ensures { ParsesAs result (group_at (spec_of keyword left) tokens.now) }
{
    if let Ok(rest) = past(Kind::OpenParen, tokens) {
        return spec_block(alloc, keyword, rest, left);
    }
    let (spec, rest) = one_spec(alloc, keyword, tokens, left)?;
    let mut specs = Items::new(alloc);
    specs.push(spec)?;
    Ok((specs, rest))
}

/// An import declaration with its semicolon, if one comes next.
pub(crate) fn import_decl(alloc: Global, tokens: Tokens<'_>) -> Read<'_, Option<Items<Import>>>
    ensures { ParsesAs result (import_decl tokens.now) }
{
    if let Ok(rest) = past(Kind::Import, tokens) {
        let (imports, rest) = import_group(alloc, rest)?;
        let rest = past(Kind::Semicolon, rest)?;
        return Ok((Some(imports), rest));
    }
    Ok((None, tokens))
}

/// The specifications after a keyword, with their semicolon.
fn spec_decl(
    alloc: Global,
    keyword: Keyword,
    tokens: Tokens<'_>,
    left: usize,
) -> Read<'_, Option<Items<Top>>>
    requires { 2 ≤ left }
    ensures { ParsesAs result (some_decl (group_at (spec_of keyword left)) tokens.now) }
{
    let (specs, rest) = spec_group(alloc, keyword, tokens, left)?;
    let rest = past(Kind::Semicolon, rest)?;
    Ok((Some(specs), rest))
}

/// The constants after their keyword, with the semicolon.
fn const_decl(alloc: Global, tokens: Tokens<'_>, left: usize) -> Read<'_, Option<Items<Top>>>
    ensures { ParsesAs result (some_decl (const_group_at left) tokens.now) }
{
    let (constants, rest) = const_group(alloc, tokens, left)?;
    let rest = past(Kind::Semicolon, rest)?;
    Ok((Some(constants), rest))
}

/// The function or method after its keyword, with the semicolon.
fn func_top(alloc: Global, tokens: Tokens<'_>, left: usize) -> Read<'_, Option<Items<Top>>>
    ensures { ParsesAs result (some_decl (func_group_at left) tokens.now) }
{
    let (func, rest) = func_decl(alloc, tokens, left)?;
    let rest = past(Kind::Semicolon, rest)?;
    Ok((Some(single(alloc, Top::Func(func))?), rest))
}

/// A declaration with its semicolon, if one comes next.
pub(crate) fn top_decl(
    alloc: Global,
    tokens: Tokens<'_>,
    left: usize,
) -> Read<'_, Option<Items<Top>>>
    requires { 2 ≤ left }
    ensures { ParsesAs result (top_decl left tokens.now) }
{
    if let Ok(rest) = past(Kind::Var, tokens) {
        return spec_decl(alloc, Keyword::Var, rest, left);
    }
    if let Ok(rest) = past(Kind::Type, tokens) {
        return spec_decl(alloc, Keyword::Type, rest, left);
    }
    if let Ok(rest) = past(Kind::Const, tokens) {
        return const_decl(alloc, rest, left);
    }
    if let Ok(rest) = past(Kind::Func, tokens) {
        return func_top(alloc, rest, left);
    }
    Ok((None, tokens))
}
