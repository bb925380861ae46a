//! The lines of `show`.

ghost use Rattle.std.specs.Prelude.{◌≡◌, ◌∷◌, ◌++◌, List, [], length, Some, IfOk, OnOk, IsErrOf};
ghost use Rattle.std.specs.List.{AllByRecursion};
ghost use Rattle.type_terms.specs.Arenas.{AllBelow};
ghost use Rattle.type_terms.specs.Declarations.{decl_nodes, decl_of};
ghost use Rattle.environments.specs.Environments.{declared};
ghost use Rattle.command_words.specs.Forms.{name_of, names_of};
ghost use Rattle.exportdata_cmd.specs.Showing.{qualified, names_asked, answer_text, decoded_line, AreTooMany};
ghost use Rattle.exportdata_cmd.specs.LookedUp.{entry_found, found_texts, found_status, IsInside, IsShown};
ghost use Rattle.exportdata_cmd.specs.Putting.{PutsLines};

use crate::exits::Status;
use crate::printing::{write_damaged_line, write_decoded_line, write_unknown_line};
use crate::putting::{PutFault, put_line};
use asked_names::{Found, count_declared, find_all};
use command_words::{NameWord, NameWords};
use dangling_references::AskFault;
use decl_text::{Room, put_decl};
use go_values::{Bytes, QName};
use outside::Sink;
use session_env::SessionEnv;
use session_files::Session;
use std::alloc::{AllocError, Global};
use type_terms::{Arena, DeclNode};

/// The most nodes of the types that a command reads: 2^24, besides the 32 numbers of predeclared types.
pub const NODE_LIMIT: u32 = 16_777_216 + 32;

/// How many distinct names are declared of those that were asked for, and how many the files list.
#[derive(Debug, Drop, Clone, Copy)]
pub struct Tally {
    pub declared: u64,
    pub listed: u64,
}

/// Names that were asked for, and what stands behind each.
#[derive(Drop)]
pub struct Shown {
    pub names: Vec<QName>,
    pub found: Vec<Found>,
    pub tally: Tally,
}

/// Looks up all names. Their types are added to the arena, which is empty before.
pub fn look_up(
    alloc: Global,
    names: NameWords<'_>,
    session: &Session,
    arena: &mut Arena,
) -> Result<Shown, AskFault>
    requires { arena.old ≡ record { nodes = []; limit = NODE_LIMIT } }
    ensures shown { IfOk result (IsShown arena.new.nodes session.now (names_asked (names_of names.entry))) }
    ensures outgrown { IsErrOf result AskFault.Nodes → AreTooMany session.now (names_asked (names_of names.entry)) }
    ensures no_table { ¬ IsErrOf result AskFault.TableFull }
{
    let names = qualified_names(alloc, names)?;
    let mut env = SessionEnv::new(alloc, session);
    let found = find_all(alloc, &mut env, arena, names.as_slice())?;
    let tally = Tally {
        declared: count_declared(alloc, names.as_slice(), found.as_slice())?,
        listed: session.names(),
    };
    Ok(Shown {
        names,
        found,
        tally,
    })
}

/// The names that words name.
fn qualified_names(alloc: Global, words: NameWords<'_>) -> Result<Vec<QName>, AllocError>
    ensures { IfOk result (λ names. names.items ≡ names_asked (names_of words.entry)) }
{
    let mut names = Vec::new(alloc);
    for k in 0..words.len() {
        let Some(word) = words.get(k) else {
            unreachable!();
        };
        names.push(qualified_name(alloc, &word)?)?;
    }
    Ok(names)
}

/// The name that a word names.
fn qualified_name(alloc: Global, word: &NameWord<'_>) -> Result<QName, AllocError>
    ensures { IfOk result (λ q. q ≡ qualified (name_of word.now)) }
{
    Ok(QName {
        path: Bytes::from_slice(alloc, word.path.as_bytes())?,
        name: Bytes::from_slice(alloc, word.name.as_bytes())?,
    })
}

/// The status that goes with what was found.
pub fn status_of(found: &[Found]) -> Status
    ensures { result ≡ found_status found.now }
{
    for one in found {
        match one {
            Found::Declared(_) => {}
            Found::Unknown | Found::Damaged(_) => return Status::Refused,
        }
    }
    Status::Done
}

/// The room in which texts are made, one after the other.
#[derive(Drop)]
struct Page {
    line: Vec<u8>,
    room: Room,
}

/// Puts what the names are, each as one piece, and then the tally.
pub fn put_answers<S: Sink>(
    alloc: Global,
    shown: &Shown,
    arena: &Arena,
    out: &mut S,
) -> Result<(), PutFault>
    requires each { length shown.now.found.items ≡ length shown.now.names.items }
    requires inside { AllByRecursion (IsInside arena.now.nodes) shown.now.found.items }
    ensures { PutsLines (found_texts arena.now.nodes shown.now.names.items shown.now.found.items
        ++ decoded_line shown.now.tally.declared shown.now.tally.listed ∷ []) result
        (S.state out.old) (S.state out.new) }
{
    let mut page = Page {
        line: Vec::new(alloc),
        room: Room::new(alloc),
    };
    put_names(
        alloc,
        shown.names.as_slice(),
        shown.found.as_slice(),
        arena,
        &mut page,
        out,
    )?;
    put_tally(shown.tally, &mut page.line, out)
}

/// Puts how many names are declared, and how many the files list.
fn put_tally<S: Sink>(tally: Tally, line: &mut Vec<u8>, out: &mut S) -> Result<(), PutFault>
    ensures { PutsLines (decoded_line tally.declared tally.listed ∷ []) result (S.state out.old) (S.state out.new) }
{
    if write_decoded_line(line, tally.declared, tally.listed).is_err() {
        return Err(PutFault::OutOfMemory);
    }
    put_line(line.as_slice(), out)
}

/// Puts what was found for names. One page serves for all.
fn put_names<S: Sink>(
    alloc: Global,
    names: &[QName],
    found: &[Found],
    arena: &Arena,
    page: &mut Page,
    out: &mut S,
) -> Result<(), PutFault>
    requires each { length found.now ≡ length names.now }
    requires inside { AllByRecursion (IsInside arena.now.nodes) found.now }
    ensures { PutsLines (found_texts arena.now.nodes names.now found.now) result
        (S.state out.old) (S.state out.new) }
{
    for (k, one) in found.iter().enumerate() {
        put_answer(alloc, &names[k], one, arena, page, out)?;
    }
    Ok(())
}

/// Puts what was found for a name.
fn put_answer<S: Sink>(
    alloc: Global,
    q: &QName,
    one: &Found,
    arena: &Arena,
    page: &mut Page,
    out: &mut S,
) -> Result<(), PutFault>
    requires { IsInside arena.now.nodes one.now }
    ensures { PutsLines (answer_text q.now (entry_found arena.now.nodes one.now) ∷ []) result
        (S.state out.old) (S.state out.new) }
{
    if write_answer(alloc, q, one, arena, page).is_err() {
        return Err(PutFault::OutOfMemory);
    }
    put_line(page.line.as_slice(), out)
}

/// Makes the text of what was found for a name.
fn write_answer(
    alloc: Global,
    q: &QName,
    one: &Found,
    arena: &Arena,
    page: &mut Page,
) -> Result<(), AllocError>
    requires { IsInside arena.now.nodes one.now }
    ensures { OnOk result (page.new.line.items ≡ answer_text q.now (entry_found arena.now.nodes one.now)) }
{
    match one {
        Found::Unknown => write_unknown_line(&mut page.line, q),
        Found::Damaged(fault) => write_damaged_line(&mut page.line, q, *fault),
        Found::Declared(node) => write_declaration(alloc, q, node, arena, page),
    }
}

/// Makes the text of a declaration.
fn write_declaration(
    alloc: Global,
    q: &QName,
    node: &DeclNode,
    arena: &Arena,
    page: &mut Page,
) -> Result<(), AllocError>
    requires { AllBelow (length arena.now.nodes) (decl_nodes node.now) }
    ensures { OnOk result
        (page.new.line.items ≡ answer_text q.now (Some (declared (decl_of arena.now.nodes node.now)))) }
{
    page.line.clear();
    put_decl(alloc, &mut page.room, &mut page.line, q, node, arena)
}
