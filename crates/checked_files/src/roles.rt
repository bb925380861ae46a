//! The roles in which the names of a session may be used.

ghost use Rattle.std.specs.Prelude.{◌≡◌, ℕ, List, Some, map, slice_get};
ghost use Rattle.std.specs.Option.{option_and_then};
ghost use Rattle.type_terms.specs.declared.descriptors.Node.{Node};
ghost use Rattle.checked_files.specs.Reading.{outcome, role_in};
ghost use Rattle.checked_files.specs.declared.reading.Read.{Read as WasRead};

use crate::reading::Read;
use dangling_types::Roles;
use environments::{Role, role_of};
use go_values::QName;
use session_files::Session;

/// Tells roles by all that was read of the files of a session: a name has what the first file has that lists it.
#[derive(Clone, Copy)]
pub struct SessionRoles<'a> {
    pub session: &'a Session,
    pub reads: &'a [Vec<Read>],
}

impl Roles for SessionRoles<'_> {
    ghost use Rattle.std.specs.Prelude.{List, map};
    ghost use Rattle.type_terms.specs.declared.descriptors.Node.{Node};
    ghost use Rattle.session_env.specs.SessionEntries.{session_entries};
    ghost use Rattle.session_files.specs.Sessions.{AreSound};
    ghost use Rattle.checked_files.specs.Reading.{AreRead};

    ghost entries = { λ roles. session_entries roles.session.now };

    ghost stands = { λ roles. (nodes : List Node)
        × AreRead nodes roles.session.now (map (λ reads. reads.items) roles.reads.now) };

    fn role(&self, q: &QName) -> Option<Role> {
        let place = self.session.place_of(q.path.as_slice(), q.name.as_slice())?;
        role_at(self.reads, place.file, place.number)
    }
}

/// The role of the name for which this was read.
fn role_at(reads: &[Vec<Read>], file: u32, number: u32) -> Option<Role>
    ensures { (nodes : List Node) (read : WasRead)
        → option_and_then (λ reads. slice_get reads.items number) (slice_get reads.now file) ≡ Some read
        → result ≡ role_in (outcome nodes read) }
{
    role_of_read(reads.get(file as usize)?.get(number as usize)?)
}

fn role_of_read(read: &Read) -> Option<Role>
    ensures { (nodes : List Node) → result ≡ role_in (outcome nodes read.now) }
{
    match read {
        Read::Spelled(decl) => role_of(decl),
        Read::Damaged(_) => None,
    }
}
