ghost use Rattle.std.specs.Prelude.{◌≡◌, Err};
ghost use Rattle.go_expr_syntax.specs.Reading.{ParsesAs};
ghost use Rattle.go_type_syntax.specs.Elements.{term_at, terms_at, more_terms, after_type, tilde_by, tilde_at};
ghost use Rattle.go_type_syntax.specs.Elements.{union_at, no_elem, embedded_elem, named_elem, elem_at, elems_at};
ghost use Rattle.go_type_syntax.specs.Elements.{interface_by};
ghost use Rattle.go_type_syntax.specs.Types.{type_at, lower_at};

use crate::instances::named_type;
use crate::params::signature;
use crate::tree::{ElemExpr, TermExpr, TypeExpr};
use crate::types::{lower_type, type_expr};
use go_expr_syntax::{
    Fault, Fit, Ident, Kind, Read, Stop, Tokens, ident, onward, past, single, start, starts,
    too_deep,
};
use sqlite_items::Items;
use std::alloc::Global;

/// A term of a union.
#[cycle(types)]
fn one_term(alloc: Global, tokens: Tokens<'_>, left: usize) -> Read<'_, Fit<TermExpr>>
    ensures { ParsesAs result (term_at (lower_at left) tokens.now) }
{
    let at = start(tokens);
    if let Ok(rest) = past(Kind::Tilde, tokens) {
        let ((ty, fit), rest) = lower_type(alloc, rest, left)?;
        let tilde = true;
        return Ok(((TermExpr { tilde, ty, at }, fit), rest));
    }
    let ((ty, fit), rest) = lower_type(alloc, tokens, left)?;
    let tilde = false;
    Ok(((TermExpr { tilde, ty, at }, fit), rest))
}

/// A union, after its first term and the bar behind it.
#[cycle(types)]
fn more_terms(
    alloc: Global,
    first: Fit<TermExpr>,
    at: u32,
    tokens: Tokens<'_>,
    left: usize,
) -> Read<'_, Fit<TypeExpr>>
    ensures { ParsesAs result (more_terms (lower_at left) first at tokens.now) }
{
    let (first, mut fit) = first;
    let mut terms = single(alloc, first)?;
    let mut rest = tokens;
    loop {
        let ((term, inside), after) = one_term(alloc, rest, left)?;
        terms.push(term)?;
        fit = fit.min(inside);
        let Ok(next) = past(Kind::Bar, after) else {
            return Ok(((TypeExpr::Union { terms, at }, fit), after));
        };
        rest = onward(next);
    }
}

/// A union, after its first term, which has no tilde.
#[cycle(types)]
fn after_type(
    alloc: Global,
    first: Fit<TypeExpr>,
    at: u32,
    tokens: Tokens<'_>,
    left: usize,
) -> Read<'_, Fit<TypeExpr>>
    ensures { ParsesAs result (after_type (lower_at left) first.0 first.1 at tokens.now) }
{
    let Ok(rest) = past(Kind::Bar, tokens) else {
        return Ok((first, tokens));
    };
    let (ty, fit) = first;
    if fit == 0 {
        return Err(Stop::At(too_deep(tokens)));
    }
    let tilde = false;
    let term = TermExpr { tilde, ty, at };
    more_terms(alloc, (term, fit - 1), at, rest, left)
}

/// A union, after its first token, which is a tilde.
#[cycle(types)]
fn after_tilde(alloc: Global, at: u32, tokens: Tokens<'_>, left: usize) -> Read<'_, Fit<TypeExpr>>
    ensures { ParsesAs result (tilde_by (lower_at left) at tokens.now) }
{
    let ((ty, fit), rest) = lower_type(alloc, tokens, left)?;
    let tilde = true;
    let term = TermExpr { tilde, ty, at };
    if let Ok(rest) = past(Kind::Bar, rest) {
        return more_terms(alloc, (term, fit), at, rest, left);
    }
    let terms = single(alloc, term)?;
    Ok(((TypeExpr::Union { terms, at }, fit), rest))
}

/// A union that begins with a tilde.
#[cycle(types)]
fn tilde_type(alloc: Global, tokens: Tokens<'_>, left: usize) -> Read<'_, Fit<TypeExpr>>
    ensures { ParsesAs result (tilde_at left (lower_at left) tokens.now) }
{
    if left == 0 {
        return Err(Stop::At(too_deep(tokens)));
    }
    let at = start(tokens);
    let rest = past(Kind::Tilde, tokens)?;
    after_tilde(alloc, at, rest, left)
}

/// A union, or the type of its only term.
#[cycle(types)]
pub fn union_type(alloc: Global, tokens: Tokens<'_>, left: usize) -> Read<'_, Fit<TypeExpr>>
    ensures { ParsesAs result (union_at left (type_at left) (lower_at left) tokens.now) }
{
    if starts(Kind::Tilde, tokens) {
        return tilde_type(alloc, tokens, left);
    }
    let at = start(tokens);
    let (first, rest) = type_expr(alloc, tokens, left)?;
    after_type(alloc, first, at, rest, left)
}

/// An embedded type of an interface, after its first identifier.
#[cycle(types)]
fn embedded_elem(
    alloc: Global,
    name: Ident,
    tokens: Tokens<'_>,
    left: usize,
) -> Read<'_, Fit<ElemExpr>>
    ensures { ParsesAs result (embedded_elem left (lower_at left) name tokens.now) }
{
    if left == 0 {
        return Err(Stop::At(no_elem(tokens)));
    }
    let (first, rest) = named_type(alloc, name, tokens, left - 1)?;
    let at = name.start;
    let ((ty, fit), rest) = after_type(alloc, first, at, rest, left)?;
    Ok(((ElemExpr::Embedded { ty, at }, fit), rest))
}

/// Why no embedded type is read where no node is left for the identifier before these tokens.
fn no_elem(tokens: Tokens<'_>) -> Fault
    ensures { no_elem tokens.now ≡ Err result }
{
    if starts(Kind::ElementEnd, tokens) {
        too_deep(tokens)
    } else {
        Fault::Unexpected(tokens.len())
    }
}

/// An element of an interface, after its first token, which is an identifier.
#[cycle(types)]
fn named_elem(
    alloc: Global,
    name: Ident,
    tokens: Tokens<'_>,
    left: usize,
) -> Read<'_, Fit<ElemExpr>>
    ensures { ParsesAs result (named_elem left (type_at left) (lower_at left) name tokens.now) }
{
    if starts(Kind::OpenParen, tokens) {
        let ((sig, fit), rest) = signature(alloc, tokens, left)?;
        let at = name.start;
        return Ok(((ElemExpr::Method { name, sig, at }, fit), rest));
    }
    embedded_elem(alloc, name, tokens, left)
}

/// An element of an interface.
#[cycle(types)]
fn one_elem(alloc: Global, tokens: Tokens<'_>, left: usize) -> Read<'_, Fit<ElemExpr>>
    ensures { ParsesAs result (elem_at left (type_at left) (lower_at left) tokens.now) }
{
    if let Ok((name, rest)) = ident(tokens) {
        return named_elem(alloc, name, rest, left);
    }
    let at = start(tokens);
    let ((ty, fit), rest) = union_type(alloc, tokens, left)?;
    Ok(((ElemExpr::Embedded { ty, at }, fit), rest))
}

/// The elements of an interface, after its brace.
#[cycle(types)]
fn elems(alloc: Global, tokens: Tokens<'_>, left: usize) -> Read<'_, Fit<Items<ElemExpr>>>
    ensures { ParsesAs result (elems_at left (type_at left) (lower_at left) tokens.now) }
{
    let mut found = Items::new(alloc);
    let mut fit = left;
    let mut rest = tokens;
    loop {
        if let Ok(after) = past(Kind::CloseBrace, rest) {
            return Ok(((found, fit), after));
        }
        let ((elem, inside), behind) = one_elem(alloc, rest, left)?;
        fit = fit.min(inside);
        found.push(elem)?;
        if let Ok(after) = past(Kind::CloseBrace, behind) {
            return Ok(((found, fit), after));
        }
        let next = past(Kind::Semicolon, behind)?;
        rest = onward(next);
    }
}

/// An interface type, after its keyword.
#[cycle(types)]
pub(crate) fn interface_type(
    alloc: Global,
    at: u32,
    tokens: Tokens<'_>,
    left: usize,
) -> Read<'_, Fit<TypeExpr>>
    ensures { ParsesAs result (interface_by left (type_at left) (lower_at left) at tokens.now) }
{
    let rest = past(Kind::OpenBrace, tokens)?;
    let ((elems, fit), rest) = elems(alloc, rest, left)?;
    Ok(((TypeExpr::Interface { elems, at }, fit), rest))
}
