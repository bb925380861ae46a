//! Making a string section.

ghost use Rattle.std.specs.Prelude.{◌≡◌, [], ◌++◌, List, ℕ, IfOk, OnOk, OnErr};
ghost use Rattle.wire_bytes.specs.Section.{section_of, offset_in, with_text, spelled_text};
ghost use Rattle.wire_bytes.specs.Text.{Text};

use crate::spelling::spell_uvarint;
use indexmap::IndexMap;
use std::alloc::{AllocError, Global};
use std::marker::Model;

/// The texts of a string section, each once, in the order of their first mention. Contracts see the list of the texts.
/// It keeps each text twice: in the section, and as the key by which it is found again.
#[derive(Drop)]
pub struct Strings {
    alloc: Global,
    bytes: Vec<u8>,
    offsets: IndexMap<Vec<u8>, u64>,
}

impl Model for Strings {
    ghost use Rattle.std.specs.Prelude.{◌≡◌, List, ℕ, map, nat_eq};
    ghost use Rattle.std.specs.Cmp.Lexicographic.{pointwise};
    ghost use Rattle.indexmap.specs.IndexMap.{get_by};
    ghost use Rattle.wire_bytes.specs.Section.{section_of, offset_in};

    ghost Value = { List (List ℕ) };

    ghost view = { λ s. map (λ e. e.0.items) s.offsets.entries };

    ghost invariant = { λ s. let texts = map (λ e. e.0.items) s.offsets.entries in (s.bytes.items ≡ section_of texts)
        × ((text : List ℕ) → get_by (λ k. pointwise nat_eq text k.items) s.offsets ≡ offset_in texts text) };
}

impl Strings {
    /// No texts. Later calls take their memory from `alloc`.
    pub fn new(alloc: Global) -> Strings
        ensures { result ≡ [] }
    {
        Strings {
            alloc,
            bytes: Vec::new(alloc),
            offsets: IndexMap::new(alloc),
        }
    }

    /// The section: the texts in the order of their first mention, each with its length before it.
    pub fn bytes(&self) -> &[u8]
        ensures { result.now ≡ section_of self.now }
    {
        self.bytes.as_slice()
    }

    /// Where a text stands in the section, to which it is added at its first mention. Takes the time of hashing and
    /// copying the text, however many there are.
    pub fn add(&mut self, text: &[u8]) -> Result<u64, AllocError>
        ensures texts { OnOk result (self.new ≡ with_text self.old text.now) }
        ensures offset { IfOk result (λ o. offset_in self.new text.now ≡ Some o) }
        ensures stands { IfOk result (λ o. Text (section_of self.new) o text.now) }
        ensures kept { OnOk result ((o : ℕ) (t : List ℕ) → Text (section_of self.old) o t
            → Text (section_of self.new) o t) }
        ensures refused { OnErr result (self.new ≡ self.old) }
    {
        self.mention(text)
    }

    fn mention(&mut self, text: &[u8]) -> Result<u64, AllocError>
        ensures texts { OnOk result (self.new ≡ with_text self.old text.now) }
        ensures offset { IfOk result (λ o. offset_in self.new text.now ≡ Some o) }
        ensures refused { OnErr result (self.new ≡ self.old) }
    {
        if let Some(offset) = self.offsets.get(text) {
            return Ok(*offset);
        }
        let key = Vec::from_slice(self.alloc, text)?;
        let offset = self.bytes.as_slice().len();
        append_text(&mut self.bytes, text)?;
        let Ok(_) = self.offsets.insert(key, offset as u64) else {
            self.bytes.truncate(offset);
            return Err(AllocError);
        };
        Ok(offset as u64)
    }
}

fn append_text(bytes: &mut Vec<u8>, text: &[u8]) -> Result<(), AllocError>
    ensures added { OnOk result (bytes.new.items ≡ bytes.old.items ++ spelled_text text.now) }
    ensures refused { OnErr result (bytes.new.items ≡ bytes.old.items) }
{
    let start = bytes.len();
    let mut room = [0; 10];
    let len = spell_uvarint(text.len() as u64, &mut room);
    bytes.extend_from_slice(&room[..len])?;
    let Ok(()) = bytes.extend_from_slice(text) else {
        bytes.truncate(start);
        return Err(AllocError);
    };
    Ok(())
}
