//! A part of a declaration's own bytes, and then the types that it names.

ghost use Rattle.std.specs.Prelude.{◌≡◌, ◌≤◌, OnOk};
ghost use Rattle.file_parts.specs.FileParts.{IsOfFile};
ghost use Rattle.block_reader.specs.Calls.{sections_of, ahead_of};
ghost use Rattle.decl_reader.specs.Opens.{Resolves};
ghost use Rattle.decl_reader.specs.Progress.{known, IsReadyFor, GoesOn};
ghost use Rattle.decl_reader.specs.Wholes.{all_known, types_before};

use crate::reading::Reading;
use block_reader::Block;
use file_parts::Parts;
use std::sync::ledger::Ledger;
use wire_bytes::ReadFault;

impl<L: Ledger> Reading<'_, L> {
    /// Reads the types that the block has named since the last time.
    pub(crate) fn know_types(
        &mut self,
        parts: &Parts<'_>,
        offset: u64,
        block: &mut Block<'_>,
    ) -> Result<(), ReadFault>
        requires of_file { IsOfFile parts.now }
        requires ready { IsReadyFor parts.now self.old }
        requires within { offset ≤ parts.now.body_len }
        ensures exact { Resolves result (known parts.now self.new)
            (types_before (sections_of parts.now) offset block.old.mentions.items (known parts.now self.old)) }
        ensures known { OnOk result (ahead_of block.new ≡ all_known (ahead_of block.old)) }
        ensures goes_on { GoesOn parts.now self.old self.new }
    {
        self.read_types(parts, offset, block.mentions.as_slice())?;
        block.mentions = Vec::new(self.alloc);
        Ok(())
    }
}
