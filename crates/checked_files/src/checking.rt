//! What checking the files of a session tells.

ghost use Rattle.std.specs.Prelude.{map, IfOk, IsErrOf};
ghost use Rattle.std.specs.List.{AllZip, AllByRecursion};
ghost use Rattle.type_terms.specs.Arenas.{Extends};
ghost use Rattle.environments.specs.OpenedTypes.{AddsAmong, OutgrowsAmong};
ghost use Rattle.dangling_types.specs.Findings.{AreRight};
ghost use Rattle.checked_files.specs.Checking.{AreSaid, OpensListed};
ghost use Rattle.checked_files.specs.Reading.{IsInside, AreRead, Judges};

use crate::fault::CheckFault;
use crate::reading::{Read, read_all};
use crate::roles::SessionRoles;
use dangling_types::{Finding, Findings, Roles};
use session_files::Session;
use std::alloc::{AllocError, Global};
use type_terms::{Arena, NodeId};
use wire_bytes::ByteFault;

/// What is wrong with a name that a file lists.
#[derive(Clone, Copy, Debug, PartialEq, Eq)]
pub enum Verdict {
    /// Its bytes spell a declaration, and none of its references dangles.
    Sound,
    /// Its bytes spell no declaration. This is the first thing that is wrong with them.
    Damaged(ByteFault),
    /// The first reference that dangles is the one that this node makes.
    Dangles(NodeId),
}

/// What is wrong with each name that a file lists, file by file, in the order of each index. A file is asked for what
/// it spells itself, also for a name that an earlier one lists, and references are tried against the first file that
/// lists them (docs/FORMAT.md, "References that dangle").
///
/// Each declaration is read once, each descriptor that declarations of a file share is read once, and each type is
/// looked at once. `Nodes` comes only where the arena has no room for the types of all that the files list.
pub fn check_all(
    alloc: Global,
    session: &Session,
    arena: &mut Arena,
) -> Result<Vec<Vec<Verdict>>, CheckFault>
    ensures verdicts { IfOk result (λ all. AllZip
        (λ verdicts o. AreSaid arena.new.nodes session.now o.file verdicts.items) all.items session.now) }
    ensures extends { Extends arena.old arena.new }
    ensures adds { AddsAmong (OpensListed session.now) arena.old arena.new }
    ensures outgrown { IsErrOf result CheckFault.Nodes → OutgrowsAmong (OpensListed session.now) arena.old }
{
    let reads = read_all(alloc, session, arena)?;
    match judge_all(alloc, session, &reads, arena) {
        Ok(verdicts) => Ok(verdicts),
        Err(_) => Err(CheckFault::OutOfMemory),
    }
}

/// The verdicts on all that was read.
fn judge_all(
    alloc: Global,
    session: &Session,
    reads: &[Vec<Read>],
    arena: &Arena,
) -> Result<Vec<Vec<Verdict>>, AllocError>
    requires read { AreRead arena.now.nodes session.now (map (λ reads. reads.items) reads.now) }
    ensures { IfOk result (λ all. AllZip
        (λ verdicts o. AreSaid arena.now.nodes session.now o.file verdicts.items) all.items session.now) }
{
    let roles = SessionRoles { session, reads };
    judge_files(alloc, arena, &roles, reads)
}

fn judge_files<R: Roles>(
    alloc: Global,
    arena: &Arena,
    roles: &R,
    files: &[Vec<Read>],
) -> Result<Vec<Vec<Verdict>>, AllocError>
    requires stands { R.stands roles.now }
    requires inside { AllByRecursion (λ reads. AllByRecursion (IsInside arena.now.nodes) reads.items) files.now }
    ensures { IfOk result (λ all. AllZip
        (λ reads verdicts. AllZip (Judges arena.now.nodes (R.entries roles.now)) reads.items verdicts.items)
        files.now all.items) }
{
    let mut findings = Findings::new(alloc);
    let mut all = Vec::new(alloc);
    for reads in files {
        all.push(judge_file(alloc, arena, roles, &mut findings, reads)?)?;
    }
    Ok(all)
}

/// The verdicts on what was read of a file.
fn judge_file<R: Roles>(
    alloc: Global,
    arena: &Arena,
    roles: &R,
    findings: &mut Findings,
    reads: &[Read],
) -> Result<Vec<Verdict>, AllocError>
    requires stands { R.stands roles.now }
    requires inside { AllByRecursion (IsInside arena.now.nodes) reads.now }
    requires right { AreRight (R.entries roles.now) arena.now.nodes findings.old }
    ensures judged { IfOk result
        (λ verdicts. AllZip (Judges arena.now.nodes (R.entries roles.now)) reads.now verdicts.items) }
    ensures right { AreRight (R.entries roles.now) arena.now.nodes findings.new }
{
    let mut verdicts = Vec::new(alloc);
    for read in reads {
        verdicts.push(judge(alloc, arena, roles, findings, read)?)?;
    }
    Ok(verdicts)
}

fn judge<R: Roles>(
    alloc: Global,
    arena: &Arena,
    roles: &R,
    findings: &mut Findings,
    read: &Read,
) -> Result<Verdict, AllocError>
    requires stands { R.stands roles.now }
    requires inside { IsInside arena.now.nodes read.now }
    requires right { AreRight (R.entries roles.now) arena.now.nodes findings.old }
    ensures judged { IfOk result (Judges arena.now.nodes (R.entries roles.now) read.now) }
    ensures right { AreRight (R.entries roles.now) arena.now.nodes findings.new }
{
    let decl = match read {
        Read::Spelled(decl) => decl,
        Read::Damaged(fault) => return Ok(Verdict::Damaged(*fault)),
    };
    match findings.look_at(alloc, arena, roles, decl)? {
        Finding::Sound => Ok(Verdict::Sound),
        Finding::Dangles(at) => Ok(Verdict::Dangles(at)),
    }
}
