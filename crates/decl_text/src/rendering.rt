ghost use Rattle.std.specs.Prelude.{◌≡◌, ◌++◌, OnOk, IfOk, length};
ghost use Rattle.type_terms.specs.Arenas.{AllBelow};
ghost use Rattle.type_terms.specs.Declarations.{decl_nodes};
ghost use Rattle.type_terms.specs.Declarations.{decl_of};
ghost use Rattle.decl_text.specs.DeclText.{number_line, number_lines, decl_text};

use crate::decls::{put_first_line, put_method_lines};
use crate::references::References;
use crate::walking::Walk;
use crate::words::put_decimal;
use go_values::{Bytes, QName};
use indexmap::IndexSet;
use std::alloc::{AllocError, Global};
use type_terms::{Arena, DeclNode};

/// The room in which the texts of declarations are made, one after the other. It keeps its memory between them.
#[derive(Drop)]
pub struct Room {
    walk: Walk,
}

impl Room {
    /// Takes no memory.
    pub fn new(alloc: Global) -> Room {
        Room {
            walk: Walk::new(alloc),
        }
    }
}

/// The text of a declaration, whose types are nodes of the arena, with its line feeds: the first line, a line for each
/// number, and a line for each method. It takes time for the types that are reached, their uses and the text, however
/// deep the types nest and however often they are shared.
pub fn render(
    alloc: Global,
    q: &QName,
    decl: &DeclNode,
    arena: &Arena,
) -> Result<Vec<u8>, AllocError>
    requires there { AllBelow (length arena.now.nodes) (decl_nodes decl.now) }
    ensures text { IfOk result (λ text. text.items ≡ decl_text q.now (decl_of arena.now.nodes decl.now)) }
{
    let mut text = Vec::new(alloc);
    put_decl(alloc, &mut Room::new(alloc), &mut text, q, decl, arena)?;
    Ok(text)
}

/// Adds the text of a declaration, as `render` gives it, and uses a room for it.
pub fn put_decl(
    alloc: Global,
    room: &mut Room,
    text: &mut Vec<u8>,
    q: &QName,
    decl: &DeclNode,
    arena: &Arena,
) -> Result<(), AllocError>
    requires there { AllBelow (length arena.now.nodes) (decl_nodes decl.now) }
    ensures text { OnOk result (text.new.items
        ≡ text.old.items ++ decl_text q.now (decl_of arena.now.nodes decl.now)) }
{
    room.walk.number_types(alloc, arena, decl)?;
    let numbering = &room.walk.numbering;
    let names = References {
        arena,
        numbers: &numbering.numbers,
    };
    put_first_line(text, q, decl, &names)?;
    put_number_lines(text, &numbering.lines)?;
    put_method_lines(text, decl, &names)?;
    Ok(())
}

/// Adds a line for each number.
fn put_number_lines(text: &mut Vec<u8>, lines: &IndexSet<Bytes>) -> Result<(), AllocError>
    ensures { OnOk result (text.new.items ≡ text.old.items ++ number_lines 0 lines.now.keys) }
{
    for number in 0..lines.len() {
        let Some(line) = lines.get_index(number) else {
            unreachable!();
        };
        put_number_line(text, number, line.as_slice())?;
    }
    Ok(())
}

/// Adds the line of a number.
fn put_number_line(text: &mut Vec<u8>, number: usize, line: &[u8]) -> Result<(), AllocError>
    ensures { OnOk result (text.new.items ≡ text.old.items ++ number_line number line.now) }
{
    text.extend_from_slice(b"  #")?;
    put_decimal(text, number as u64)?;
    text.extend_from_slice(b" ")?;
    text.extend_from_slice(line)?;
    text.extend_from_slice(b"\n")
}
