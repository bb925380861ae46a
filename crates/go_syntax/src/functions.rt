ghost use Rattle.std.specs.Prelude.{◌≡◌};
ghost use Rattle.go_expr_syntax.specs.Reading.{Exactly, ParsesAs};
ghost use Rattle.go_syntax.specs.Functions.{idents_row, idents_at, args_at, receiver_end, receiver_base};
ghost use Rattle.go_syntax.specs.Functions.{receiver_pointer, receiver_first, receiver_at, body_at, func_sig};
ghost use Rattle.go_syntax.specs.Functions.{method_name, func_name, func_at};

use crate::generics::generic;
use crate::skipped::skipped;
use crate::tree::{FuncDecl, Receiver, TParam};
use go_expr_syntax::{Fault, Ident, Kind, Read, Stop, Symbol, Tokens, ident, onward, past, single};
use go_type_syntax::signature;
use sqlite_items::Items;
use std::alloc::Global;

/// Identifiers up to the bracket that closes, after those that were found.
fn ident_row(alloc: Global, found: Items<Ident>, tokens: Tokens<'_>) -> Read<'_, Items<Ident>>
    ensures { ParsesAs result (idents_row found tokens.now) }
{
    let mut found = found;
    let mut rest = tokens;
    loop {
        if let Ok(after) = past(Kind::CloseBracket, rest) {
            return Ok((found, after));
        }
        let (name, behind) = ident(rest)?;
        found.push(name)?;
        if let Ok(after) = past(Kind::CloseBracket, behind) {
            return Ok((found, after));
        }
        let next = past(Kind::Comma, behind)?;
        rest = onward(next);
    }
}

/// Identifiers up to the bracket that closes, one at least.
fn idents(alloc: Global, tokens: Tokens<'_>) -> Read<'_, Items<Ident>>
    ensures { ParsesAs result (idents_at tokens.now) }
{
    let (first, rest) = ident(tokens)?;
    let found = single(alloc, first)?;
    if let Ok(after) = past(Kind::CloseBracket, rest) {
        return Ok((found, after));
    }
    let rest = past(Kind::Comma, rest)?;
    ident_row(alloc, found, rest)
}

/// The arguments of a receiver's base, if they come next.
fn args(alloc: Global, tokens: Tokens<'_>) -> Read<'_, Items<Ident>>
    ensures { ParsesAs result (args_at tokens.now) }
{
    if let Ok(rest) = past(Kind::OpenBracket, tokens) {
        return idents(alloc, rest);
    }
    Ok((Items::new(alloc), tokens))
}

/// The end of a receiver.
fn receiver_end(receiver: Receiver, tokens: Tokens<'_>) -> Result<(Receiver, Tokens<'_>), Fault>
    ensures { Exactly (λ x. (x.0, x.1.now)) result (receiver_end receiver tokens.now) }
{
    if let Ok(rest) = past(Kind::Comma, tokens) {
        let rest = past(Kind::CloseParen, rest)?;
        return Ok((receiver, rest));
    }
    let rest = past(Kind::CloseParen, tokens)?;
    Ok((receiver, rest))
}

/// A receiver that begins at this place, after its base.
fn receiver_base(
    alloc: Global,
    name: Option<Ident>,
    pointer: bool,
    base: Ident,
    at: u32,
    tokens: Tokens<'_>,
) -> Read<'_, Receiver>
    ensures { ParsesAs result (receiver_base name pointer base at tokens.now) }
{
    let (args, rest) = args(alloc, tokens)?;
    let receiver = Receiver {
        name,
        pointer,
        base,
        args,
        at,
    };
    Ok(receiver_end(receiver, rest)?)
}

/// A receiver that is a pointer and begins at this place, after the star.
fn receiver_pointer(
    alloc: Global,
    name: Option<Ident>,
    at: u32,
    tokens: Tokens<'_>,
) -> Read<'_, Receiver>
    ensures { ParsesAs result (receiver_pointer name at tokens.now) }
{
    let (base, rest) = ident(tokens)?;
    receiver_base(alloc, name, true, base, at, rest)
}

/// A receiver, after its first token, which is an identifier.
fn receiver_first(alloc: Global, name: Ident, tokens: Tokens<'_>) -> Read<'_, Receiver>
    ensures { ParsesAs result (receiver_first name tokens.now) }
{
    if let Ok((base, rest)) = ident(tokens) {
        return receiver_base(alloc, Some(name), false, base, name.start, rest);
    }
    if let Ok(rest) = past(Kind::Star, tokens) {
        return receiver_pointer(alloc, Some(name), name.start, rest);
    }
    receiver_base(alloc, None, false, name, name.start, tokens)
}

/// A receiver, after its parenthesis.
fn receiver(alloc: Global, tokens: Tokens<'_>) -> Read<'_, Receiver>
    ensures { ParsesAs result (receiver_at tokens.now) }
{
    let [first, rest @ ..] = tokens else {
        return Err(Stop::At(Fault::Unexpected(0)));
    };
    match *first {
        Symbol::Star(at) => receiver_pointer(alloc, None, at, rest),
        Symbol::Ident(name) => receiver_first(alloc, name, rest),
        _ => Err(Stop::At(Fault::Unexpected(tokens.len()))),
    }
}

/// A function with its body, if one comes next.
fn with_body(alloc: Global, func: FuncDecl, tokens: Tokens<'_>) -> Read<'_, FuncDecl>
    ensures { ParsesAs result (body_at func tokens.now) }
{
    if let Ok(rest) = past(Kind::OpenBrace, tokens) {
        let rest = skipped(alloc, false, rest)?;
        let rest = past(Kind::CloseBrace, rest)?;
        return Ok((func, rest));
    }
    Ok((func, tokens))
}

/// A function, after its name and type parameters.
fn with_signature(
    alloc: Global,
    receiver: Option<Receiver>,
    name: Ident,
    tparams: Items<TParam>,
    tokens: Tokens<'_>,
    left: usize,
) -> Read<'_, FuncDecl>
    ensures { ParsesAs result (func_sig left receiver name tparams tokens.now) }
{
    let ((sig, _), rest) = signature(alloc, tokens, left)?;
    let func = FuncDecl {
        receiver,
        name,
        tparams,
        sig,
    };
    with_body(alloc, func, rest)
}

/// A method, after its receiver.
fn named_method(
    alloc: Global,
    receiver: Receiver,
    tokens: Tokens<'_>,
    left: usize,
) -> Read<'_, FuncDecl>
    ensures { ParsesAs result (method_name left receiver tokens.now) }
{
    let (name, rest) = ident(tokens)?;
    with_signature(alloc, Some(receiver), name, Items::new(alloc), rest, left)
}

/// A function without a receiver, after its keyword.
fn named_func(alloc: Global, tokens: Tokens<'_>, left: usize) -> Read<'_, FuncDecl>
    ensures { ParsesAs result (func_name left tokens.now) }
{
    let (name, rest) = ident(tokens)?;
    let (tparams, rest) = generic(alloc, rest, left)?;
    with_signature(alloc, None, name, tparams, rest, left)
}

/// A function or a method, after its keyword.
pub(crate) fn func_decl(alloc: Global, tokens: Tokens<'_>, left: usize) -> Read<'_, FuncDecl>
    ensures { ParsesAs result (func_at left tokens.now) }
{
    if let Ok(rest) = past(Kind::OpenParen, tokens) {
        let (receiver, rest) = receiver(alloc, rest)?;
        return named_method(alloc, receiver, rest, left);
    }
    named_func(alloc, tokens, left)
}
