//! A session of files as an environment.

ghost use Rattle.std.specs.Prelude.{◌≡◌, ◌<◌, ◌⊎◌, ℕ, Some, None, length, IfOk, IsErrOf};
ghost use Rattle.type_terms.specs.Arenas.{AllBelow, Extends};
ghost use Rattle.type_terms.specs.Additions.{AddsOnly, Outgrows};
ghost use Rattle.type_terms.specs.Declarations.{decl_nodes};
ghost use Rattle.decl_spelling.specs.Declarations.{decl_at};
ghost use Rattle.decl_spelling.specs.Leaving.{types_read};
ghost use Rattle.decl_reader.specs.Wholes.{ReadsDecl};
ghost use Rattle.session_files.specs.FileSections.{sections_in};
ghost use Rattle.session_files.specs.Sessions.{AreSound};
ghost use Rattle.session_files.specs.Names.{comes_down};

use decl_reader::{DeclFault, read_decl};
use environments::{Env, EnvError, Given};
use go_values::QName;
use session_files::{Place, Session};
use std::alloc::Global;
use std::marker::Brand;
use std::sync::ledger::{Blank, Ledger};
use steps::Steps;
use type_terms::{Arena, DeclNode};
use wire_bytes::ByteFault;

/// The names of a session as an environment: the declaration of a name is read from its bytes whenever it is asked for.
/// It means what the first file that lists a name has for it.
#[derive(Clone, Copy)]
pub struct SessionEnv<'s> {
    alloc: Global,
    pub session: &'s Session,
}

impl<'s> SessionEnv<'s> {
    /// What this session has.
    pub fn new(alloc: Global, session: &'s Session) -> SessionEnv<'s>
        ensures session { result.session.now ≡ session.entry.now }
        ensures sound { AreSound result.session.now }
    {
        session.keeps_sound_files();
        SessionEnv { alloc, session }
    }
}

impl<'a> Env<'a> for SessionEnv<'_> {
    ghost use Rattle.std.specs.Prelude.{None, refl};
    ghost use Rattle.session_files.specs.Sessions.{AreSound, all_names};
    ghost use Rattle.session_files.specs.Answers.{packages};
    ghost use Rattle.session_env.specs.SessionEntries.{session_entries};
    ghost use Rattle.session_env.specs.SessionEntryLaws.{session_finite, session_proper};

    ghost entries = { λ env nodes. session_entries env.session.now };

    ghost names = { λ env. all_names env.session.now };

    ghost packages = { λ env. packages env.session.now };

    ghost stands = { λ env nodes. AreSound env.session.now };

    ghost asked = { λ env. None };

    ghost full = { λ env. None };

    fn declare(&mut self, q: &QName, arena: &mut Arena) -> Result<Given<'a>, EnvError> {
        let place = match self.session.place_of(q.path.as_slice(), q.name.as_slice()) {
            Some(place) => place,
            None => return Err(unknown(q)),
        };
        match read_at(self.alloc, self.session, &place, arena) {
            Ok(node) => Ok(Given::Made(node)),
            Err(DeclFault::Bytes(fault)) => Err(damaged(q, fault)),
            Err(DeclFault::Nodes) => Err(EnvError::Nodes),
            Err(DeclFault::OutOfMemory) => Err(EnvError::OutOfMemory),
        }
    }

    fn package(&self, path: &[u8]) -> Option<&[u8]> {
        self.session.package(path)
    }

    ghost finite = { λ env nodes q entry is. session_finite env.session.now q entry is };

    ghost proper = { λ env nodes q decl stands is. session_proper env.session.now q decl stands is };

    ghost stays = { λ env nodes more stands. (stands, refl) };
}

/// That there is nothing for the name, or that there was no memory to say so.
fn unknown(q: &QName) -> EnvError
    ensures { (result ≡ EnvError.Unknown q.now) ⊎ (result ≡ EnvError.OutOfMemory) }
{
    match q.clone() {
        Ok(q) => EnvError::Unknown { q },
        Err(_) => EnvError::OutOfMemory,
    }
}

/// That there is a fault for the name, or that there was no memory to say so.
fn damaged(q: &QName, fault: ByteFault) -> EnvError
    ensures { (result ≡ EnvError.Damaged q.now fault) ⊎ (result ≡ EnvError.OutOfMemory) }
{
    match q.clone() {
        Ok(q) => EnvError::Damaged { q, fault },
        Err(_) => EnvError::OutOfMemory,
    }
}

/// What is spelled at a place. Nobody asks how many steps it takes.
fn read_at(
    alloc: Global,
    session: &Session,
    place: &Place<'_>,
    arena: &mut Arena,
) -> Result<DeclNode, DeclFault>
    requires inside { place.now.offset < place.now.image.now.body.len }
    ensures exact { ReadsDecl result arena.new.nodes
        (decl_at (sections_in place.now.image.now) (comes_down session.now) place.now.offset) }
    ensures within { IfOk result (λ node. AllBelow (length arena.new.nodes) (decl_nodes node)) }
    ensures extends { Extends arena.old arena.new }
    ensures adds { AddsOnly (types_read (sections_in place.now.image.now) (comes_down session.now) place.now.offset)
        arena.old arena.new }
    ensures outgrown { IsErrOf result DeclFault.Nodes → Outgrows arena.old
        (types_read (sections_in place.now.image.now) (comes_down session.now) place.now.offset) }
    ensures full { IsErrOf result DeclFault.Nodes → length arena.new.nodes ≡ arena.new.limit }
{
    read_counted::<Brand>(alloc, session, place, arena, Blank::new(1))
}

fn read_counted<L: Ledger>(
    alloc: Global,
    session: &Session,
    place: &Place<'_>,
    arena: &mut Arena,
    blank: Blank,
) -> Result<DeclNode, DeclFault>
    requires inside { place.now.offset < place.now.image.now.body.len }
    requires name { blank.name ≡ L.name }
    requires parts { blank.parts ≡ L.parts }
    requires some { 0 < blank.parts }
    ensures exact { ReadsDecl result arena.new.nodes
        (decl_at (sections_in place.now.image.now) (comes_down session.now) place.now.offset) }
    ensures within { IfOk result (λ node. AllBelow (length arena.new.nodes) (decl_nodes node)) }
    ensures extends { Extends arena.old arena.new }
    ensures adds { AddsOnly (types_read (sections_in place.now.image.now) (comes_down session.now) place.now.offset)
        arena.old arena.new }
    ensures outgrown { IsErrOf result DeclFault.Nodes → Outgrows arena.old
        (types_read (sections_in place.now.image.now) (comes_down session.now) place.now.offset) }
    ensures full { IsErrOf result DeclFault.Nodes → length arena.new.nodes ≡ arena.new.limit }
{
    let mut steps = Steps::<L>::start(blank);
    read_decl(
        alloc,
        &place.image.parts(),
        place.offset,
        session,
        arena,
        &mut steps,
    )
}
