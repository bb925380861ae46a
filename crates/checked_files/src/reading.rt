//! Reading all declarations that the files of a session list.

ghost use Rattle.std.specs.Prelude.{◌≡◌, ◌<◌, length, IfOk, IsErrOf, map};
ghost use Rattle.type_terms.specs.Additions.{AddsOnly, Outgrows};
ghost use Rattle.type_terms.specs.Arenas.{AllBelow, Extends};
ghost use Rattle.type_terms.specs.Declarations.{decl_nodes};
ghost use Rattle.environments.specs.OpenedTypes.{AddsAmong, OutgrowsAmong};
ghost use Rattle.decl_spelling.specs.Declarations.{decl_at};
ghost use Rattle.decl_spelling.specs.Leaving.{types_read};
ghost use Rattle.decl_reader.specs.OpenReaders.{Remembers};
ghost use Rattle.decl_reader.specs.Wholes.{ReadsDecl};
ghost use Rattle.session_files.specs.FileSections.{sections_in};
ghost use Rattle.session_files.specs.Names.{comes_down};
ghost use Rattle.checked_files.specs.Checking.{OpensIn, OpensListed};
ghost use Rattle.checked_files.specs.Reading.{IsReadAs, IsReadOf, AreRead};

use crate::fault::CheckFault;
use decl_reader::{DeclFault, OpenReader};
use name_index::Image;
use session_files::Session;
use std::alloc::Global;
use std::marker::Brand;
use std::sync::ledger::{Blank, Ledger};
use steps::Steps;
use type_terms::{Arena, DeclNode};
use wire_bytes::ByteFault;

/// What a file has for a name that it lists.
#[derive(Debug, Drop)]
pub enum Read {
    Spelled(DeclNode),
    /// Its bytes spell no declaration; this is the first thing that is wrong with them.
    Damaged(ByteFault),
}

/// All declarations that the files list, file by file.
pub fn read_all(
    alloc: Global,
    session: &Session,
    arena: &mut Arena,
) -> Result<Vec<Vec<Read>>, CheckFault>
    ensures read { IfOk result (λ all. AreRead arena.new.nodes session.now (map (λ reads. reads.items) all.items)) }
    ensures extends { Extends arena.old arena.new }
    ensures adds { AddsAmong (OpensListed session.now) arena.old arena.new }
    ensures outgrown { IsErrOf result CheckFault.Nodes → OutgrowsAmong (OpensListed session.now) arena.old }
{
    let mut all = Vec::new(alloc);
    for file in 0..session.file_count() {
        let Some(image) = session.image(file) else {
            unreachable!();
        };
        all.push(read_file(alloc, session, image, arena)?)?;
    }
    Ok(all)
}

/// The declarations that a file lists, in the order of its index. Each of its descriptors is read once.
fn read_file(
    alloc: Global,
    session: &Session,
    image: &Image,
    arena: &mut Arena,
) -> Result<Vec<Read>, CheckFault>
    ensures read { IfOk result (λ reads. IsReadOf arena.new.nodes session.now image.now reads.items) }
    ensures extends { Extends arena.old arena.new }
    ensures adds { AddsAmong (OpensIn session.now image.now) arena.old arena.new }
    ensures outgrown { IsErrOf result CheckFault.Nodes → OutgrowsAmong (OpensIn session.now image.now) arena.old }
{
    let mut reader = OpenReader::new(alloc);
    let mut reads = Vec::new(alloc);
    for number in 0..image.name_count() {
        let Some((_, _, offset)) = image.entry(number) else {
            unreachable!();
        };
        reads.push(read_at(alloc, session, image, offset, &mut reader, arena)?)?;
    }
    Ok(reads)
}

/// What a file spells at an offset. Nobody asks how many steps it takes.
fn read_at(
    alloc: Global,
    session: &Session,
    image: &Image,
    offset: u64,
    reader: &mut OpenReader,
    arena: &mut Arena,
) -> Result<Read, CheckFault>
    requires inside { offset < image.now.body.len }
    requires kept { Remembers (sections_in image.now) arena.old.nodes reader.old }
    ensures read { IfOk result (λ read. IsReadAs arena.new.nodes read
        (decl_at (sections_in image.now) (comes_down session.now) offset)) }
    ensures keeps { Remembers (sections_in image.now) arena.new.nodes reader.new }
    ensures extends { Extends arena.old arena.new }
    ensures adds { AddsOnly (types_read (sections_in image.now) (comes_down session.now) offset) arena.old arena.new }
    ensures outgrown { IsErrOf result CheckFault.Nodes
        → Outgrows arena.old (types_read (sections_in image.now) (comes_down session.now) offset) }
{
    match read_counted::<Brand>(alloc, session, image, offset, reader, arena, Blank::new(1)) {
        Ok(node) => Ok(Read::Spelled(node)),
        Err(DeclFault::Bytes(fault)) => Ok(Read::Damaged(fault)),
        Err(DeclFault::Nodes) => Err(CheckFault::Nodes),
        Err(DeclFault::OutOfMemory) => Err(CheckFault::OutOfMemory),
    }
}

fn read_counted<L: Ledger>(
    alloc: Global,
    session: &Session,
    image: &Image,
    offset: u64,
    reader: &mut OpenReader,
    arena: &mut Arena,
    blank: Blank,
) -> Result<DeclNode, DeclFault>
    requires inside { offset < image.now.body.len }
    requires kept { Remembers (sections_in image.now) arena.old.nodes reader.old }
    requires name { blank.name ≡ L.name }
    requires parts { blank.parts ≡ L.parts }
    requires some { 0 < blank.parts }
    ensures exact { ReadsDecl result arena.new.nodes (decl_at (sections_in image.now) (comes_down session.now) offset) }
    ensures within { IfOk result (λ node. AllBelow (length arena.new.nodes) (decl_nodes node)) }
    ensures keeps { Remembers (sections_in image.now) arena.new.nodes reader.new }
    ensures extends { Extends arena.old arena.new }
    ensures adds { AddsOnly (types_read (sections_in image.now) (comes_down session.now) offset) arena.old arena.new }
    ensures outgrown { IsErrOf result DeclFault.Nodes
        → Outgrows arena.old (types_read (sections_in image.now) (comes_down session.now) offset) }
{
    let mut steps = Steps::<L>::start(blank);
    reader.read(alloc, &image.parts(), offset, session, arena, &mut steps)
}
