//! Reading the types that a block names. The descriptors that are open stand on a list, not on the call stack, so a
//! chain of any length is read. Nothing is made of the types here: what was read whole is kept, with types as numbers.

ghost use Rattle.std.specs.Prelude.{◌≡◌, ◌+◌, ◌<◌, ◌≤◌, ℕ, [], None, Err, length, IfOk, OnOk};
ghost use Rattle.file_parts.specs.FileParts.{IsOfFile, body_of};
ghost use Rattle.type_terms.specs.NodeShapes.{node_shape};
ghost use Rattle.type_terms.specs.Shapes.{retype};
ghost use Rattle.type_terms.specs.Trees.{Tree, tree_of};
ghost use Rattle.decl_spelling.specs.Tables.{at};
ghost use Rattle.decl_spelling.specs.Codes.{basic_of};
ghost use Rattle.decl_spelling.specs.Descent.{named_at as renamed};
ghost use Rattle.block_reader.specs.Calls.{sections_of};
ghost use Rattle.block_reader.specs.Parts.{flat_spelled};
ghost use Rattle.decl_reader.specs.Meant.{IsGenericFlat};
ghost use Rattle.decl_reader.specs.Places.{HasRoom};
ghost use Rattle.decl_reader.specs.Shapes.{flat_shape};
ghost use Rattle.decl_reader.specs.Frames.{answered, closed, with_shape};
ghost use Rattle.decl_reader.specs.Opens.{resolve_type, resolve_types, frame_of, IsOpen, IsBegun, IsClosed, IsFinished};
ghost use Rattle.decl_reader.specs.Opens.{Resolves, Begins, resumed};
ghost use Rattle.decl_reader.specs.Opens.{checked_basic, checked_type, checked_finished};
ghost use Rattle.decl_reader.specs.Progress.{known, IsReadyFor, GoesOn};

use crate::demands::{basic_meets, flat_meets, node_meets, out_of_range, unmet};
use crate::finished::Descriptor;
use crate::reading::{Known, Reading, join};
use crate::type_off::TypeOff;
use block_reader::{Block, Flat, basic_of, read_flat};
use decl_spelling::{FIRST_DESCRIPTOR, Mention};
use file_parts::Parts;
use std::alloc::AllocError;
use std::sync::ledger::Ledger;
use type_terms::Node;
use wire_bytes::{ByteFault, ReadFault};

/// A descriptor that is open: its own bytes were read, and some of its types are still to be known.
#[derive(Drop)]
pub(crate) struct Open {
    start: u64,
    /// What it spells, with types as numbers, and where it ends in the data section; or the fault in its own bytes.
    own: Result<(Flat, u64), ByteFault>,
    mentions: Vec<Mention>,
    /// How many of the mentions are known.
    known: usize,
    /// The mention that named it.
    named: Mention,
}

impl<L: Ledger> Reading<'_, L> {
    /// Reads the types that a block names, for a block that starts at `holder` in the data section.
    pub(crate) fn read_types(
        &mut self,
        parts: &Parts<'_>,
        holder: u64,
        mentions: &[Mention],
    ) -> Result<(), ReadFault>
        requires sections { IsOfFile parts.now }
        requires ready { IsReadyFor parts.now self.old }
        requires within { holder ≤ parts.now.body_len }
        ensures exact { Resolves result (known parts.now self.new)
            (resolve_types (sections_of parts.now) holder mentions.now (known parts.now self.old)) }
        ensures goes_on { GoesOn parts.now self.old self.new }
    {
        for mention in mentions {
            self.read_type(parts, holder, *mention)?;
        }
        Ok(())
    }

    /// Reads the type of a mention, with all that it reaches.
    fn read_type(&mut self, parts: &Parts<'_>, holder: u64, named: Mention) -> Result<(), ReadFault>
        requires sections { IsOfFile parts.now }
        requires ready { IsReadyFor parts.now self.old }
        requires within { holder ≤ parts.now.body_len }
        ensures exact { Resolves result (known parts.now self.new)
            (resolve_type (sections_of parts.now) holder named (known parts.now self.old)) }
        ensures goes_on { GoesOn parts.now self.old self.new }
    {
        match self.begin(parts, holder, named)? {
            Some(first) => self.read_open(parts, first),
            None => Ok(()),
        }
    }

    /// Reads an open descriptor to its end, with all that it reaches.
    fn read_open(&mut self, parts: &Parts<'_>, first: Open) -> Result<(), ReadFault>
        requires sections { IsOfFile parts.now }
        requires ready { IsReadyFor parts.now self.old }
        requires first { IsOpen (sections_of parts.now) (known parts.now self.old) first }
        ensures exact { Resolves result (known parts.now self.new)
            (resumed (sections_of parts.now) first [] (known parts.now self.old)) }
        ensures goes_on { GoesOn parts.now self.old self.new }
    {
        let mut holders: Vec<Open> = Vec::new(self.alloc);
        let mut current = first;
        loop {
            if current.known < current.mentions.len() {
                let named = current.mentions[current.known];
                match self.begin(parts, current.start, named)? {
                    None => current.known += 1,
                    Some(inner) => {
                        holders.push(current)?;
                        current = inner;
                    }
                }
            } else {
                self.close(parts, current)?;
                match holders.pop() {
                    None => return Ok(()),
                    Some(holder) => {
                        current = holder;
                        current.known += 1;
                    }
                }
            }
        }
    }

    /// What a mention needs: nothing more where its type is known, or the descriptor that it names, which is opened.
    fn begin(
        &self,
        parts: &Parts<'_>,
        holder: u64,
        named: Mention,
    ) -> Result<Option<Open>, ReadFault>
        requires sections { IsOfFile parts.now }
        requires ready { IsReadyFor parts.now self.now }
        requires within { holder ≤ parts.now.body_len }
        ensures { Begins (sections_of parts.now) (known parts.now self.now) holder named result }
    {
        match TypeOff::new(named.value) {
            TypeOff::Basic(_) => {
                check_basic(parts.version, named)?;
                Ok(None)
            }
            TypeOff::At(start) if start < holder => self.begin_at(parts, holder, named, start),
            TypeOff::At(_) => Err(ReadFault::Bytes(out_of_range(named))),
        }
    }

    /// The same of a mention that names a descriptor before its holder.
    fn begin_at(
        &self,
        parts: &Parts<'_>,
        holder: u64,
        named: Mention,
        start: u64,
    ) -> Result<Option<Open>, ReadFault>
        requires sections { IsOfFile parts.now }
        requires ready { IsReadyFor parts.now self.now }
        requires its_start { named.value ≡ FIRST_DESCRIPTOR + start }
        requires before { start < holder }
        requires within { holder ≤ parts.now.body_len }
        ensures { Begins (sections_of parts.now) (known parts.now self.now) holder named result }
    {
        match self.known_at(parts, start) {
            Some(Known::Remembered(finished)) => {
                let node = self.arena.node(finished.node);
                check_remembered(holder, named, finished.end, node)?;
                Ok(None)
            }
            Some(Known::Read(place)) => {
                let descriptor = &self.finished[place.index];
                check_finished(holder, named, place.end, &descriptor.flat)?;
                Ok(None)
            }
            None => Ok(Some(self.open_at(parts, holder, named, start)?)),
        }
    }

    /// Reads the descriptor's own bytes, up to its holder or to a descriptor that was read before.
    fn open_at(
        &self,
        parts: &Parts<'_>,
        holder: u64,
        named: Mention,
        start: u64,
    ) -> Result<Open, AllocError>
        requires sections { IsOfFile parts.now }
        requires ready { IsReadyFor parts.now self.now }
        requires its_start { named.value ≡ FIRST_DESCRIPTOR + start }
        requires before { start < holder }
        requires within { holder ≤ parts.now.body_len }
        requires new { at (known parts.now self.now) start ≡ None }
        ensures { IfOk result (IsBegun (sections_of parts.now) (known parts.now self.now) holder named) }
    {
        let free = self.free_to(parts, start, holder);
        let mut block = Block::new(self.alloc, parts, start, free);
        let own = match read_flat(self.alloc, parts, &mut block) {
            Ok(flat) => Ok((flat, block.cursor.place() as u64 - parts.body_at)),
            Err(ReadFault::Bytes(fault)) => Err(fault),
            Err(ReadFault::OutOfMemory) => return Err(AllocError),
        };
        Ok(Open {
            start,
            own,
            mentions: block.mentions,
            known: 0,
            named,
        })
    }

    /// A descriptor whose types are known joins the finished ones, and is what its holder asks for.
    fn close(&mut self, parts: &Parts<'_>, block: Open) -> Result<(), ReadFault>
        requires ready { IsReadyFor parts.now self.old }
        requires is_open { IsOpen (sections_of parts.now) (known parts.now self.old) block }
        requires all { block.known ≡ length block.mentions.items }
        ensures exact { Resolves result (known parts.now self.new)
            (closed parts.now.version (frame_of block) (known parts.now self.old)) }
        ensures closed { OnOk result
            (IsClosed (sections_of parts.now) (known parts.now self.old) (known parts.now self.new) block) }
        ensures goes_on { GoesOn parts.now self.old self.new }
    {
        let Open {
            start,
            own,
            named,
            ..
        } = block;
        match own {
            Ok((flat, end)) => self.finish(parts, start, named, flat, end),
            Err(fault) => Err(ReadFault::Bytes(named_at(named, fault))),
        }
    }

    /// What a descriptor spells joins the finished ones, and is what its holder asks for. One step is one byte that was
    /// read.
    fn finish(
        &mut self,
        parts: &Parts<'_>,
        start: u64,
        named: Mention,
        flat: Flat,
        end: u64,
    ) -> Result<(), ReadFault>
        requires ready { IsReadyFor parts.now self.old }
        requires generic { IsGenericFlat parts.now.version (known parts.now self.old) (flat_shape flat) }
        requires its_start { named.value ≡ FIRST_DESCRIPTOR + start }
        requires some { start < end }
        requires inside { end ≤ length (body_of parts.now) }
        requires room { HasRoom start end (known parts.now self.old) }
        ensures exact { Resolves result (known parts.now self.new)
            (answered parts.now.version named
            (with_shape parts.now.version start (flat_spelled flat, end) (known parts.now self.old))) }
        ensures finished { OnOk result
            (IsFinished (sections_of parts.now) (known parts.now self.old) (known parts.now self.new) named
            end) }
        ensures goes_on { GoesOn parts.now self.old self.new }
    {
        let met = check_flat(named, &flat);
        let descriptor = Descriptor { start, end, flat };
        join(&mut self.finished, &mut self.places, descriptor)?;
        self.steps.add(end - start);
        match met {
            Ok(()) => Ok(()),
            Err(fault) => Err(ReadFault::Bytes(fault)),
        }
    }
}

/// A predeclared type is there, and is what its holder asks for.
fn check_basic(version: u8, named: Mention) -> Result<(), ByteFault>
    ensures { result ≡ checked_basic named (basic_of version named.value) }
{
    match basic_of(version, named.value) {
        Some(basic) if basic_meets(named.asked, basic) => Ok(()),
        Some(_) => Err(unmet(named)),
        None => Err(out_of_range(named)),
    }
}

/// A descriptor that was read before ends before its holder, and is what that asks for.
fn check_finished(holder: u64, named: Mention, end: u64, flat: &Flat) -> Result<(), ByteFault>
    ensures { (types : ℕ → Tree)
        → result
        ≡ checked_finished holder named (record { end = end; tree = tree_of (retype types (flat_shape flat.now)) }) }
{
    if end > holder {
        return Err(out_of_range(named));
    }
    check_flat(named, flat)
}

/// The same of one that an earlier declaration has finished, by the node of its type.
fn check_remembered(holder: u64, named: Mention, end: u64, node: &Node) -> Result<(), ByteFault>
    ensures { (types : ℕ → Tree)
        → result
        ≡ checked_finished holder named (record { end = end; tree = tree_of (retype types (node_shape node.now)) }) }
{
    if end > holder {
        return Err(out_of_range(named));
    }
    if node_meets(named.asked, node) {
        Ok(())
    } else {
        Err(unmet(named))
    }
}

/// What a descriptor spells, whatever stands in it, is what its holder asks for.
fn check_flat(named: Mention, flat: &Flat) -> Result<(), ByteFault>
    ensures { (types : ℕ → Tree) → result ≡ checked_type named (tree_of (retype types (flat_shape flat.now))) }
{
    if flat_meets(named.asked, flat) {
        Ok(())
    } else {
        Err(unmet(named))
    }
}

/// A descriptor that runs into what isn't its own is out of range where it is named.
fn named_at(named: Mention, fault: ByteFault) -> ByteFault
    ensures { renamed named (Err fault) ≡ Err result }
{
    match fault {
        ByteFault::Ended { .. } => out_of_range(named),
        fault => fault,
    }
}
