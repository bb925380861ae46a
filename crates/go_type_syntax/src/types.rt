ghost use Rattle.std.specs.Prelude.{◌≡◌, ◌<◌, Err};
ghost use Rattle.go_expr_syntax.specs.Reading.{told_at, Exactly, ParsesAs};
ghost use Rattle.go_type_syntax.specs.Types.{pointer_by, slice_by, array_by, no_type, star_at, lone_by, tagged};
ghost use Rattle.go_type_syntax.specs.Types.{shared_by, only_by, array_or_instance, first_by, field_by, fields_at};
ghost use Rattle.go_type_syntax.specs.Types.{struct_by, paren_by, bracket_by, map_by, chan_of, chan_by, receive_by};
ghost use Rattle.go_type_syntax.specs.Types.{func_by, type_by, type_at, lower_at};

use crate::elements::interface_type;
use crate::instances::{begun_type, named_type};
use crate::params::signature;
use crate::tree::{FieldExpr, TypeExpr};
use go_expr_syntax::{
    Fault, Fit, Ident, Kind, Read, Stop, Symbol, Tokens, after_fault, expression, more_names,
    onward, past, single, start, starts, tag, told_at, too_deep,
};
use sqlite_items::{Boxed, Items};
use std::alloc::Global;

/// Why no type is read where no node is left.
fn no_type(tokens: Tokens<'_>) -> Fault
    ensures { no_type tokens.now ≡ Err result }
{
    if starts(Kind::TypeStart, tokens) {
        too_deep(tokens)
    } else {
        Fault::Unexpected(tokens.len())
    }
}

/// An embedded type, after its first identifier.
#[cycle(types)]
fn embedded_name(
    alloc: Global,
    first: Ident,
    tokens: Tokens<'_>,
    left: usize,
) -> Read<'_, Fit<FieldExpr>>
    ensures { ParsesAs result (lone_by left (type_at left) first tokens.now) }
{
    if left == 0 {
        return Err(Stop::At(too_deep(tokens)));
    }
    let ((ty, fit), rest) = begun_type(alloc, first, tokens, left - 1)?;
    let (tag, rest) = tag(alloc, rest)?;
    let field = FieldExpr {
        names: Items::new(alloc),
        ty,
        tag,
        at: first.start,
    };
    Ok(((field, fit), rest))
}

/// The type to which an embedded pointer points, whose star stands at this place.
#[cycle(types)]
fn base_type(alloc: Global, at: u32, tokens: Tokens<'_>, left: usize) -> Read<'_, Fit<TypeExpr>>
    ensures { ParsesAs result (told_at at (type_at left tokens.now)) }
{
    told_at(at, type_expr(alloc, tokens, left))
}

/// An embedded pointer, after its star, which takes one of the nodes that are left.
#[cycle(types)]
fn embedded_pointer(
    alloc: Global,
    at: u32,
    tokens: Tokens<'_>,
    left: usize,
) -> Read<'_, Fit<FieldExpr>>
    requires { 0 < left }
    ensures { ParsesAs result (star_at left (type_at left) at tokens.now) }
{
    if !starts(Kind::Ident, tokens) {
        return Err(Stop::At(Fault::Unexpected(tokens.len())));
    }
    let ((base, fit), rest) = base_type(alloc, at, tokens, left - 1)?;
    let (tag, rest) = tag(alloc, rest)?;
    let ty = TypeExpr::Pointer {
        ty: Boxed::new(alloc, base)?,
        at,
    };
    let field = FieldExpr {
        names: Items::new(alloc),
        ty,
        tag,
        at,
    };
    Ok(((field, fit), rest))
}

/// A field of this type, with its tag, if one comes next.
fn tagged(
    alloc: Global,
    names: Items<Ident>,
    ty: Fit<TypeExpr>,
    at: u32,
    tokens: Tokens<'_>,
) -> Read<'_, Fit<FieldExpr>>
    ensures { ParsesAs result (tagged names ty at tokens.now) }
{
    let (ty, fit) = ty;
    let (tag, rest) = tag(alloc, tokens)?;
    Ok(((FieldExpr { names, ty, tag, at }, fit), rest))
}

/// The type and tag of a field, after its names.
#[cycle(types)]
fn shared_field(
    alloc: Global,
    names: Items<Ident>,
    at: u32,
    tokens: Tokens<'_>,
    left: usize,
) -> Read<'_, Fit<FieldExpr>>
    ensures { ParsesAs result (shared_by (type_at left) names at tokens.now) }
{
    let (ty, rest) = type_expr(alloc, tokens, left)?;
    tagged(alloc, names, ty, at, rest)
}

/// A field with one name, after the name.
#[cycle(types)]
fn only_field(
    alloc: Global,
    name: Ident,
    tokens: Tokens<'_>,
    left: usize,
) -> Read<'_, Fit<FieldExpr>>
    ensures { ParsesAs result (only_by (type_at left) name tokens.now) }
{
    let names = single(alloc, name)?;
    shared_field(alloc, names, name.start, tokens, left)
}

/// A field that is an array or a slice, or an embedded type with arguments, after its first identifier.
#[cycle(types)]
fn array_or_instance(
    alloc: Global,
    first: Ident,
    tokens: Tokens<'_>,
    left: usize,
) -> Read<'_, Fit<FieldExpr>>
    ensures { ParsesAs result (array_or_instance left (type_at left) first tokens.now) }
{
    match only_field(alloc, first, tokens, left) {
        Err(Stop::At(fault)) => after_fault(fault, embedded_name(alloc, first, tokens, left)),
        read => read,
    }
}

/// A field, after its first identifier.
#[cycle(types)]
fn first_field(
    alloc: Global,
    first: Ident,
    tokens: Tokens<'_>,
    left: usize,
) -> Read<'_, Fit<FieldExpr>>
    ensures { ParsesAs result (first_by left (type_at left) first tokens.now) }
{
    if let Ok(rest) = past(Kind::Comma, tokens) {
        let (names, rest) = more_names(alloc, first, rest)?;
        return shared_field(alloc, names, first.start, rest, left);
    }
    if starts(Kind::EmbeddedEnd, tokens) {
        return embedded_name(alloc, first, tokens, left);
    }
    if starts(Kind::OpenBracket, tokens) {
        return array_or_instance(alloc, first, tokens, left);
    }
    only_field(alloc, first, tokens, left)
}

/// A field of a struct.
#[cycle(types)]
fn one_field(alloc: Global, tokens: Tokens<'_>, left: usize) -> Read<'_, Fit<FieldExpr>>
    ensures { ParsesAs result (field_by left (type_at left) tokens.now) }
{
    let [first, rest @ ..] = tokens else {
        return Err(Stop::At(Fault::Unexpected(0)));
    };
    match *first {
        Symbol::Star(at) => {
            if left == 0 {
                return Err(Stop::At(too_deep(tokens)));
            }
            embedded_pointer(alloc, at, rest, left)
        }
        Symbol::Ident(name) => first_field(alloc, name, rest, left),
        _ => Err(Stop::At(Fault::Unexpected(tokens.len()))),
    }
}

/// The fields of a struct, after its brace.
#[cycle(types)]
fn fields(alloc: Global, tokens: Tokens<'_>, left: usize) -> Read<'_, Fit<Items<FieldExpr>>>
    ensures { ParsesAs result (fields_at left (type_at left) tokens.now) }
{
    let mut found = Items::new(alloc);
    let mut fit = left;
    let mut rest = tokens;
    loop {
        if let Ok(after) = past(Kind::CloseBrace, rest) {
            return Ok(((found, fit), after));
        }
        let ((field, inside), behind) = one_field(alloc, rest, left)?;
        fit = fit.min(inside);
        found.push(field)?;
        if let Ok(after) = past(Kind::CloseBrace, behind) {
            return Ok(((found, fit), after));
        }
        let next = past(Kind::Semicolon, behind)?;
        rest = onward(next);
    }
}

/// A struct type, after its keyword.
#[cycle(types)]
fn struct_type(alloc: Global, at: u32, tokens: Tokens<'_>, left: usize) -> Read<'_, Fit<TypeExpr>>
    ensures { ParsesAs result (struct_by left (type_at left) at tokens.now) }
{
    let rest = past(Kind::OpenBrace, tokens)?;
    let ((fields, fit), rest) = fields(alloc, rest, left)?;
    Ok(((TypeExpr::Struct { fields, at }, fit), rest))
}

/// A type in a box of its own.
#[cycle(types)]
fn boxed_type(alloc: Global, tokens: Tokens<'_>, left: usize) -> Read<'_, Fit<Boxed<TypeExpr>>>
    ensures { ParsesAs result (type_at left tokens.now) }
{
    let ((ty, fit), rest) = type_expr(alloc, tokens, left)?;
    Ok(((Boxed::new(alloc, ty)?, fit), rest))
}

/// A type in parentheses, after the first.
#[cycle(types)]
fn paren_type(alloc: Global, at: u32, tokens: Tokens<'_>, left: usize) -> Read<'_, Fit<TypeExpr>>
    ensures { ParsesAs result (paren_by (type_at left) at tokens.now) }
{
    let ((ty, fit), rest) = boxed_type(alloc, tokens, left)?;
    let rest = past(Kind::CloseParen, rest)?;
    Ok(((TypeExpr::Paren { ty, at }, fit), rest))
}

/// A pointer, after its star.
#[cycle(types)]
fn pointer_type(alloc: Global, at: u32, tokens: Tokens<'_>, left: usize) -> Read<'_, Fit<TypeExpr>>
    ensures { ParsesAs result (pointer_by (type_at left) at tokens.now) }
{
    let ((ty, fit), rest) = boxed_type(alloc, tokens, left)?;
    Ok(((TypeExpr::Pointer { ty, at }, fit), rest))
}

/// A slice, after its brackets.
#[cycle(types)]
fn slice_type(alloc: Global, at: u32, tokens: Tokens<'_>, left: usize) -> Read<'_, Fit<TypeExpr>>
    ensures { ParsesAs result (slice_by (type_at left) at tokens.now) }
{
    let ((ty, fit), rest) = boxed_type(alloc, tokens, left)?;
    Ok(((TypeExpr::Slice { ty, at }, fit), rest))
}

/// An array, after its bracket.
#[cycle(types)]
fn array_type(alloc: Global, at: u32, tokens: Tokens<'_>, left: usize) -> Read<'_, Fit<TypeExpr>>
    ensures { ParsesAs result (array_by left (type_at left) at tokens.now) }
{
    let ((length, spare), rest) = expression(alloc, tokens, 5, left)?;
    let length = Boxed::new(alloc, length.expr)?;
    let rest = past(Kind::CloseBracket, rest)?;
    let ((ty, fit), rest) = boxed_type(alloc, rest, left)?;
    Ok(((TypeExpr::Array { length, ty, at }, spare.min(fit)), rest))
}

/// A slice or an array, after its bracket.
#[cycle(types)]
fn bracketed(alloc: Global, at: u32, tokens: Tokens<'_>, left: usize) -> Read<'_, Fit<TypeExpr>>
    ensures { ParsesAs result (bracket_by left (type_at left) at tokens.now) }
{
    if let Ok(rest) = past(Kind::CloseBracket, tokens) {
        return slice_type(alloc, at, rest, left);
    }
    array_type(alloc, at, tokens, left)
}

/// A map type, after its keyword.
#[cycle(types)]
fn map_type(alloc: Global, at: u32, tokens: Tokens<'_>, left: usize) -> Read<'_, Fit<TypeExpr>>
    ensures { ParsesAs result (map_by (type_at left) at tokens.now) }
{
    let rest = past(Kind::OpenBracket, tokens)?;
    let ((key, fit), rest) = boxed_type(alloc, rest, left)?;
    let rest = past(Kind::CloseBracket, rest)?;
    let ((ty, inside), rest) = boxed_type(alloc, rest, left)?;
    Ok(((TypeExpr::MapOf { key, ty, at }, fit.min(inside)), rest))
}

/// A channel type, up to the type of what it carries.
#[cycle(types)]
fn chan_of(
    alloc: Global,
    receive: bool,
    send: bool,
    at: u32,
    tokens: Tokens<'_>,
    left: usize,
) -> Read<'_, Fit<TypeExpr>>
    ensures { ParsesAs result (chan_of (type_at left) receive send at tokens.now) }
{
    let ((ty, fit), rest) = boxed_type(alloc, tokens, left)?;
    let chan = TypeExpr::Chan {
        receive,
        send,
        ty,
        at,
    };
    Ok(((chan, fit), rest))
}

/// A channel type, after `chan`.
#[cycle(types)]
fn chan_type(alloc: Global, at: u32, tokens: Tokens<'_>, left: usize) -> Read<'_, Fit<TypeExpr>>
    ensures { ParsesAs result (chan_by (type_at left) at tokens.now) }
{
    if let Ok(rest) = past(Kind::Arrow, tokens) {
        return chan_of(alloc, false, true, at, rest, left);
    }
    chan_of(alloc, true, true, at, tokens, left)
}

/// A channel type, after the arrow before `chan`.
#[cycle(types)]
fn receive_type(alloc: Global, at: u32, tokens: Tokens<'_>, left: usize) -> Read<'_, Fit<TypeExpr>>
    ensures { ParsesAs result (receive_by (type_at left) at tokens.now) }
{
    let rest = past(Kind::Chan, tokens)?;
    chan_of(alloc, true, false, at, rest, left)
}

/// A function type, after its keyword.
#[cycle(types)]
fn func_type(alloc: Global, at: u32, tokens: Tokens<'_>, left: usize) -> Read<'_, Fit<TypeExpr>>
    ensures { ParsesAs result (func_by left (type_at left) at tokens.now) }
{
    let ((sig, fit), rest) = signature(alloc, tokens, left)?;
    Ok(((TypeExpr::Func { sig, at }, fit), rest))
}

/// A type, where this many nodes are left for the types inside.
#[cycle(types)]
fn type_inside(alloc: Global, tokens: Tokens<'_>, left: usize) -> Read<'_, Fit<TypeExpr>>
    ensures { ParsesAs result (type_by left (type_at left) (lower_at left) tokens.now) }
{
    let [first, rest @ ..] = tokens else {
        return Err(Stop::At(Fault::Unexpected(0)));
    };
    match *first {
        Symbol::Ident(name) => named_type(alloc, name, rest, left),
        Symbol::OpenParen(at) => paren_type(alloc, at, rest, left),
        Symbol::Star(at) => pointer_type(alloc, at, rest, left),
        Symbol::OpenBracket(at) => bracketed(alloc, at, rest, left),
        Symbol::Map(at) => map_type(alloc, at, rest, left),
        Symbol::Chan(at) => chan_type(alloc, at, rest, left),
        Symbol::Arrow(at) => receive_type(alloc, at, rest, left),
        Symbol::Func(at) => func_type(alloc, at, rest, left),
        Symbol::Struct(at) => struct_type(alloc, at, rest, left),
        Symbol::Interface(at) => interface_type(alloc, at, rest, left),
        _ => Err(Stop::At(Fault::Unexpected(tokens.len()))),
    }
}

/// A type with up to this many nodes on a path, and how many more its longest path might have. A path that is
/// too long is told at its first token.
#[cycle(types)]
pub fn type_expr(alloc: Global, tokens: Tokens<'_>, left: usize) -> Read<'_, Fit<TypeExpr>>
    ensures { ParsesAs result (type_at left tokens.now) }
{
    if left == 0 {
        return Err(Stop::At(no_type(tokens)));
    }
    told_at(start(tokens), type_inside(alloc, tokens, left - 1))
}

/// A type that stands a node deeper.
#[cycle(types)]
pub(crate) fn lower_type(alloc: Global, tokens: Tokens<'_>, left: usize) -> Read<'_, Fit<TypeExpr>>
    ensures { ParsesAs result (lower_at left tokens.now) }
{
    if left == 0 {
        return Err(Stop::At(no_type(tokens)));
    }
    type_expr(alloc, tokens, left - 1)
}
