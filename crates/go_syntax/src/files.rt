ghost use Rattle.std.specs.Prelude.{◌≤◌};
ghost use Rattle.go_expr_syntax.specs.Reading.{Gives, ParsesAs};
ghost use Rattle.go_syntax.specs.Files.{imports_at, tops_at, file_tops, file_front, file_at};

use crate::decls::{import_decl, top_decl};
use crate::tree::{Import, SourceFile, Top};
use go_expr_syntax::{Fault, Ident, Kind, Read, Stop, Tokens, ident, onward, past};
use sqlite_items::Items;
use std::alloc::Global;

/// The imports of a file.
fn imports(alloc: Global, tokens: Tokens<'_>) -> Read<'_, Items<Import>>
    ensures { ParsesAs result (imports_at tokens.now) }
{
    let mut found = Items::new(alloc);
    let mut rest = tokens;
    loop {
        let (decl, after) = import_decl(alloc, rest)?;
        let Some(more) = decl else {
            return Ok((found, after));
        };
        found.append(more)?;
        rest = onward(after);
    }
}

/// The declarations of a file.
fn tops(alloc: Global, tokens: Tokens<'_>, left: usize) -> Read<'_, Items<Top>>
    requires { 2 ≤ left }
    ensures { ParsesAs result (tops_at left tokens.now) }
{
    let mut found = Items::new(alloc);
    let mut rest = tokens;
    loop {
        let (decl, after) = top_decl(alloc, rest, left)?;
        let Some(more) = decl else {
            return Ok((found, after));
        };
        found.append(more)?;
        rest = onward(after);
    }
}

/// A file's declarations, after its imports.
fn with_tops(
    alloc: Global,
    name: Ident,
    imports: Items<Import>,
    tokens: Tokens<'_>,
    left: usize,
) -> Read<'_, SourceFile>
    requires { 2 ≤ left }
    ensures { ParsesAs result (file_tops left name imports tokens.now) }
{
    let (tops, rest) = tops(alloc, tokens, left)?;
    let file = SourceFile {
        name,
        imports,
        tops,
    };
    Ok((file, rest))
}

/// A file's package clause, imports and declarations, and the tokens after them.
#[tactic(auto, unfolding(crate::specs::Files::file_front))]
fn file_front(alloc: Global, tokens: Tokens<'_>, left: usize) -> Read<'_, SourceFile>
    requires { 2 ≤ left }
    ensures { ParsesAs result (file_front left tokens.now) }
{
    let rest = past(Kind::Package, tokens)?;
    let (name, rest) = ident(rest)?;
    let rest = past(Kind::Semicolon, rest)?;
    let (imports, rest) = imports(alloc, rest)?;
    with_tops(alloc, name, imports, rest, left)
}

/// The file that these tokens are, as the reading of lists has it.
pub(crate) fn read_file(alloc: Global, tokens: Tokens<'_>, left: usize) -> Result<SourceFile, Stop>
    requires { 2 ≤ left }
    ensures { Gives (λ f. f) result (file_at left tokens.now) }
{
    let (file, rest) = file_front(alloc, tokens, left)?;
    match rest {
        [] => Ok(file),
        [_, ..] => Err(Stop::At(Fault::Unexpected(rest.len()))),
    }
}
