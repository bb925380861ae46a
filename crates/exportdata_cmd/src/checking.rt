//! The lines of `check`.

ghost use Rattle.std.specs.Prelude.{◌≡◌, ◌∷◌, [], List, Option, Some, IsSome, map};
ghost use Rattle.std.specs.List.{flat_map};
ghost use Rattle.environments.specs.declared.mentions.Reference.{Reference};
ghost use Rattle.dangling_types.specs.NodeReferences.{reference_at};
ghost use Rattle.checked_files.specs.Checking.{Flaw, damaged, dangling, Says, AreSaid};
ghost use Rattle.exportdata_cmd.specs.Checking.{bad_lines, checked_lines, flaw_line, flaw_lines, ok_line};
ghost use Rattle.exportdata_cmd.specs.Checking.{AreSaidOf, HasReference};
ghost use Rattle.exportdata_cmd.specs.Checking.{are_sound, verdict_status};
ghost use Rattle.exportdata_cmd.specs.Putting.{PutsLines};

use crate::exits::Status;
use crate::printing::{write_bad_line, write_dangling_line, write_ok_line};
use crate::putting::{PutFault, put_line};
use checked_files::Verdict;
use dangling_types::name_at;
use name_index::Image;
use outside::Sink;
use session_files::Session;
use std::alloc::Global;
use type_terms::{Arena, NodeId};
use wire_bytes::ByteFault;

/// A file of a session, and the text by which messages name it.
#[derive(Clone, Copy)]
struct Checked<'a> {
    session: &'a Session,
    label: &'a str,
    image: &'a Image,
}

/// Puts what is wrong with the names of each file, or that nothing is. The room of one line serves for all.
pub fn put_verdicts<S: Sink>(
    alloc: Global,
    session: &Session,
    arena: &Arena,
    verdicts: &[Vec<Verdict>],
    out: &mut S,
) -> Result<(), PutFault>
    requires { AreSaidOf arena.now.nodes session.now session.now (map (λ v. v.items) verdicts.now) }
    ensures { PutsLines (flat_map (checked_lines session.now) session.now) result (S.state out.old) (S.state out.new) }
{
    let mut line = Vec::new(alloc);
    for file in 0..session.file_count() {
        let Some(image) = session.image(file) else {
            unreachable!();
        };
        let Some(label) = session.label(file) else {
            unreachable!();
        };
        let checked = Checked {
            session,
            label,
            image,
        };
        let verdicts = verdicts[file as usize].as_slice();
        put_file(&checked, arena, verdicts, &mut line, out)?;
    }
    Ok(())
}

/// Puts the lines of a file.
fn put_file<S: Sink>(
    file: &Checked<'_>,
    arena: &Arena,
    verdicts: &[Verdict],
    line: &mut Vec<u8>,
    out: &mut S,
) -> Result<(), PutFault>
    requires { AreSaid arena.now.nodes file.now.session.now file.now.image.now verdicts.now }
    ensures { PutsLines (checked_lines file.now.session.now
        (record { label = file.now.label.now; file = file.now.image.now })) result (S.state out.old) (S.state out.new) }
{
    if are_sound(verdicts) {
        put_ok(file.label, file.image.name_count(), line, out)
    } else {
        put_bad_names(file, arena, verdicts, line, out)
    }
}

/// Puts that nothing is wrong with so many names.
fn put_ok<S: Sink>(label: &str, count: u32, line: &mut Vec<u8>, out: &mut S) -> Result<(), PutFault>
    ensures { PutsLines (ok_line label.now count ∷ []) result (S.state out.old) (S.state out.new) }
{
    if write_ok_line(line, label, count).is_err() {
        return Err(PutFault::OutOfMemory);
    }
    put_line(line.as_slice(), out)
}

/// Puts what is wrong with each name of a file that something is wrong with.
fn put_bad_names<S: Sink>(
    file: &Checked<'_>,
    arena: &Arena,
    verdicts: &[Verdict],
    line: &mut Vec<u8>,
    out: &mut S,
) -> Result<(), PutFault>
    requires { AreSaid arena.now.nodes file.now.session.now file.now.image.now verdicts.now }
    ensures { PutsLines (bad_lines file.now.session.now
        (record { label = file.now.label.now; file = file.now.image.now })) result (S.state out.old) (S.state out.new) }
{
    for number in 0..file.image.name_count() {
        let Some((path, name, _)) = file.image.entry(number) else {
            unreachable!();
        };
        let verdict = verdicts[number as usize];
        put_verdict(file.label, path, name, arena, verdict, line, out)?;
    }
    Ok(())
}

/// Puts what is wrong with a name, if anything is.
fn put_verdict<S: Sink>(
    label: &str,
    path: &[u8],
    name: &[u8],
    arena: &Arena,
    verdict: Verdict,
    line: &mut Vec<u8>,
    out: &mut S,
) -> Result<(), PutFault>
    requires { HasReference arena.now.nodes verdict }
    ensures { (flaw : Option Flaw) → Says arena.now.nodes verdict flaw
        → PutsLines (flaw_lines label.now (record { path = path.now; name = name.now }) flaw) result
        (S.state out.old) (S.state out.new) }
{
    match verdict {
        Verdict::Sound => Ok(()),
        Verdict::Damaged(fault) => put_bad(label, path, name, fault, line, out),
        Verdict::Dangles(id) => put_dangling(label, path, name, arena, id, line, out),
    }
}

/// Puts the fault of a name's declaration.
fn put_bad<S: Sink>(
    label: &str,
    path: &[u8],
    name: &[u8],
    fault: ByteFault,
    line: &mut Vec<u8>,
    out: &mut S,
) -> Result<(), PutFault>
    ensures { PutsLines (flaw_line label.now (record { path = path.now; name = name.now }) (damaged fault) ∷ []) result
        (S.state out.old) (S.state out.new) }
{
    if write_bad_line(line, label, path, name, fault).is_err() {
        return Err(PutFault::OutOfMemory);
    }
    put_line(line.as_slice(), out)
}

/// Puts the name to which the reference of a node is.
fn put_dangling<S: Sink>(
    label: &str,
    path: &[u8],
    name: &[u8],
    arena: &Arena,
    id: NodeId,
    line: &mut Vec<u8>,
    out: &mut S,
) -> Result<(), PutFault>
    requires { IsSome (reference_at arena.now.nodes id) }
    ensures { (r : Reference) → reference_at arena.now.nodes id ≡ Some r
        → PutsLines (flaw_line label.now (record { path = path.now; name = name.now }) (dangling r.name) ∷ []) result
        (S.state out.old) (S.state out.new) }
{
    let Some(to) = name_at(arena, id) else {
        unreachable!();
    };
    if write_dangling_line(line, label, path, name, to).is_err() {
        return Err(PutFault::OutOfMemory);
    }
    put_line(line.as_slice(), out)
}

/// Whether nothing is wrong with the names of a file.
fn are_sound(verdicts: &[Verdict]) -> bool
    ensures { result ≡ are_sound verdicts.now }
{
    for verdict in verdicts {
        match verdict {
            Verdict::Sound => {}
            Verdict::Damaged(_) | Verdict::Dangles(_) => return false,
        }
    }
    true
}

/// The status that goes with verdicts on all files.
pub fn verdict_status(files: &[Vec<Verdict>]) -> Status
    ensures { result ≡ verdict_status (map (λ v. v.items) files.now) }
{
    for verdicts in files {
        if !are_sound(verdicts.as_slice()) {
            return Status::Refused;
        }
    }
    Status::Done
}
