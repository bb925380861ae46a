ghost use Rattle.std.specs.Prelude.{◌≡◌, ◌≤◌, ℕ, List, [], IfOk, nat_eq, length};
ghost use Rattle.std.specs.Ordering.{nat_cmp, as_partial_cmp};
ghost use Rattle.std.specs.Cmp.{partial_order_from_own_ties};
ghost use Rattle.std.specs.Cmp.Lexicographic.{pointwise, slice_cmp};
ghost use Rattle.std.specs.Cmp.Rules.{comparing, hashing};
ghost use Rattle.std.specs.Hash as fed;
ghost use Rattle.std.proofs.Common.{rules};

use std::alloc::{AllocError, Global};
use std::cmp::Ordering;
use std::default::MadeWith;
use std::fmt;
use std::fmt::{Debug, Formatter};
use std::hash::{Hash, Hasher};
use std::marker::Model;
use std::sync::ArcSlice;

/// The most bytes of a text that stand in the value itself.
const ROOM: usize = 30;

/// Where the bytes of a text are.
enum Stored {
    /// The first `len` of the room.
    Short { len: u8, room: [u8; ROOM] },
    /// Shared by the clones of a text.
    Shared(ArcSlice<u8>),
    /// What was given as a vector.
    Owned(Vec<u8>),
}

// One call, so that code which drops a text has no case for each of these.
impl Drop for Stored {
    fn drop(self) {
        match self {
            Stored::Short { len: _, room: _ } => {}
            Stored::Shared(text) => drop(text),
            Stored::Owned(text) => drop(text),
        }
    }
}

/// An owned text of export data: a name, a path, a tag or a file's name. Any bytes are allowed, so it need
/// not be UTF-8. A contract sees the list of them. It is compared bytewise, as Go compares strings, and stands
/// in maps as an owned key. Up to 30 bytes stand in the value itself and take no memory; a longer text is
/// shared by its clones.
#[derive(Drop)]
pub struct Bytes {
    stored: Stored,
}

impl Model for Bytes {
    ghost use Rattle.std.specs.Prelude.{List, ℕ};
    ghost use Rattle.go_values.specs.Stored.{bytes_of, IsStored};

    ghost Value = { List ℕ };

    ghost view = { λ bytes. bytes_of bytes.stored };

    ghost invariant = { λ bytes. IsStored bytes.stored };
}

impl Bytes {
    /// The empty text. Takes no memory.
    pub fn new(_alloc: Global) -> Bytes
        ensures { result ≡ [] }
    {
        Bytes::short(&[])
    }

    /// A copy of the bytes of a slice.
    #[tactic(auto, unfolding(crate::specs::Stored::bytes_of, crate::specs::Stored::IsStored))]
    pub fn from_slice(alloc: Global, bytes: &[u8]) -> Result<Bytes, AllocError>
        ensures { IfOk result (λ copy. copy ≡ bytes.now) }
    {
        if bytes.len() <= ROOM {
            return Ok(Bytes::short(bytes));
        }
        Ok(Bytes {
            stored: Stored::Shared(ArcSlice::from_slice(alloc, bytes)?),
        })
    }

    /// A short text, which takes no memory.
    #[tactic(auto, unfolding(crate::specs::Stored::bytes_of, crate::specs::Stored::IsStored))]
    fn short(bytes: &[u8]) -> Bytes
        requires { length bytes.now ≤ 30 }
        ensures { result ≡ bytes.now }
    {
        let mut room = [0; ROOM];
        room[..bytes.len()].copy_from_slice(bytes);
        Bytes {
            stored: Stored::Short {
                len: bytes.len() as u8,
                room,
            },
        }
    }

    /// The bytes of a vector, as they are. Takes no memory.
    #[tactic(auto, unfolding(crate::specs::Stored::bytes_of, crate::specs::Stored::IsStored))]
    pub fn from_vec(items: Vec<u8>) -> Bytes
        ensures { result ≡ items.items }
    {
        if items.len() <= ROOM {
            return Bytes::short(items.as_slice());
        }
        Bytes {
            stored: Stored::Owned(items),
        }
    }

    /// Lends the bytes.
    #[tactic(auto, unfolding(crate::specs::Stored::bytes_of, crate::specs::Stored::IsStored))]
    pub fn as_slice(&self) -> &[u8]
        ensures { result.now ≡ self.now }
    {
        match &self.stored {
            Stored::Short { len, room } => &room[..*len as usize],
            Stored::Shared(text) => text.as_slice(),
            Stored::Owned(text) => text.as_slice(),
        }
    }
}

impl MadeWith<Global> for Bytes {
    ghost is_made_with = { λ bytes. bytes ≡ [] };

    fn made_with(alloc: Global) -> Bytes {
        Bytes::new(alloc)
    }
}

/// Between quotes, with what isn't printable ASCII escaped.
impl Debug for Bytes {
    fn fmt<W: fmt::Write>(&self, f: &mut Formatter<W>) -> fmt::Result {
        f.write_char('"')?;
        write!(f, "{}", self.as_slice().escape_ascii())?;
        f.write_char('"')
    }
}

impl PartialEq for Bytes {
    ghost eq = { pointwise nat_eq };

    ghost laws = { Prim.search (comparing, rules) };

    fn eq(&self, other: &Bytes) -> bool {
        self.as_slice() == other.as_slice()
    }
}

impl Eq for Bytes {
    ghost laws = { Prim.search (comparing, rules) };
}

impl PartialOrd for Bytes {
    ghost partial_cmp = { as_partial_cmp (slice_cmp nat_cmp) };

    ghost laws = { partial_order_from_own_ties (Prim.search (comparing, rules)) (Prim.search (comparing, rules)) };

    fn partial_cmp(&self, other: &Bytes) -> Option<Ordering> {
        Some(self.cmp(other))
    }
}

impl Ord for Bytes {
    ghost cmp = { slice_cmp nat_cmp };

    ghost total = { Prim.search (comparing, rules) };

    ghost matches_partial_cmp = { Prim.search (comparing, rules) };

    ghost matches_eq = { Prim.search (comparing, rules) };

    fn cmp(&self, other: &Bytes) -> Ordering {
        self.as_slice().cmp(other.as_slice())
    }
}

impl Hash for Bytes {
    ghost hash_input = { fed.slice fed.u8 };

    ghost respects_eq = { Prim.search (hashing, rules) };

    fn hash<H: Hasher>(&self, state: &mut H) {
        self.as_slice().hash(state);
    }
}

impl Clone for Bytes {
    ghost is_clone = { λ bytes copy. copy ≡ bytes };

    #[tactic(auto, unfolding(crate::specs::Stored::bytes_of, crate::specs::Stored::IsStored))]
    fn clone(&self) -> Result<Bytes, AllocError> {
        let stored = match &self.stored {
            Stored::Short { len, room } => Stored::Short {
                len: *len,
                room: *room,
            },
            Stored::Shared(text) => Stored::Shared(text.clone()?),
            Stored::Owned(text) => {
                return Bytes::from_slice(*text.allocator(), text.as_slice());
            }
        };
        Ok(Bytes { stored })
    }
}
