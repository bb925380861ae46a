ghost use Rattle.std.specs.Prelude.{◌≡◌, Ok, IfOk};
ghost use Rattle.go_expr_syntax.specs.Reading.{Exactly, ParsesAs};
ghost use Rattle.go_expr_syntax.specs.Names.{dotted, tag_at, names_at, names_more};

use crate::faults::{Fault, Stop};
use crate::reading::{Kind, Read, ident, onward, past};
use crate::symbols::{Ident, Symbol, Tokens};
use crate::tree::NameExpr;
use go_values::Bytes;
use sqlite_items::Items;
use std::alloc::{AllocError, Global};
use string_literals::unquoted;

/// The name of a type, after its first identifier.
pub fn dotted(first: Ident, tokens: Tokens<'_>) -> Result<(NameExpr, Tokens<'_>), Fault>
    ensures { Exactly (λ x. (x.0, x.1.now)) result (dotted first tokens.now) }
{
    if let Ok(rest) = past(Kind::Dot, tokens) {
        let (name, rest) = ident(rest)?;
        let selected = NameExpr {
            package: Some(first),
            name,
            at: first.start,
        };
        return Ok((selected, rest));
    }
    let plain = NameExpr {
        package: None,
        name: first,
        at: first.start,
    };
    Ok((plain, tokens))
}

/// The value of a field's tag, if one comes next, and else the empty one.
pub fn tag(alloc: Global, tokens: Tokens<'_>) -> Result<(Bytes, Tokens<'_>), AllocError>
    ensures { IfOk result (λ x. tag_at tokens.now ≡ Ok (x.0, x.1.now)) }
{
    match tokens {
        [first, rest @ ..] => match first {
            Symbol::Text(tag) => Ok((unquoted(alloc, tag.text())?, rest)),
            _ => Ok((Bytes::new(alloc), tokens)),
        },
        [] => Ok((Bytes::new(alloc), tokens)),
    }
}

/// The names of a list, after its first name and the comma behind it.
pub fn more_names(alloc: Global, first: Ident, tokens: Tokens<'_>) -> Read<'_, Items<Ident>>
    ensures { ParsesAs result (names_more names_at first tokens.now) }
{
    let mut names = Items::new(alloc);
    names.push(first)?;
    let mut rest = tokens;
    loop {
        let (name, after) = ident(rest)?;
        names.push(name)?;
        let Ok(next) = past(Kind::Comma, after) else {
            return Ok((names, after));
        };
        rest = onward(next);
    }
}
