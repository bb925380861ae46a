//! Reading a whole declaration.

ghost use Rattle.std.specs.Prelude.{◌≡◌, ◌+◌, ◌<◌, ◌≤◌, [], length, IfOk, IsErrOf};
ghost use Rattle.file_parts.specs.FileParts.{IsOfFile};
ghost use Rattle.type_terms.specs.Additions.{AddsOnly, Outgrows};
ghost use Rattle.type_terms.specs.Arenas.{AllBelow, Extends};
ghost use Rattle.type_terms.specs.Declarations.{decl_nodes};
ghost use Rattle.type_terms.specs.DeclarationRules.{IsProperDecl};
ghost use Rattle.type_terms.specs.Declarations.{decl_of};
ghost use Rattle.decl_spelling.specs.Sections.{HoldsBytes, window};
ghost use Rattle.decl_spelling.specs.Reading.{start};
ghost use Rattle.decl_spelling.specs.Declarations.{head_at, resolved, after_head, decl_at, FirstFault};
ghost use Rattle.decl_spelling.specs.Leaving.{types_read};
ghost use Rattle.decl_spelling.specs.Spelling.{SpellsDecl};
ghost use Rattle.block_reader.specs.Calls.{sections_of, ahead_of};
ghost use Rattle.block_reader.specs.Parts.{head_spelled};
ghost use Rattle.decl_reader.specs.Forms.{IsUpToTypes};
ghost use Rattle.decl_reader.specs.Blocks.{table_of};
ghost use Rattle.decl_reader.specs.Kept.{IsKept};
ghost use Rattle.decl_reader.specs.Progress.{remembered, known, IsReadyFor, GoesOn};
ghost use Rattle.decl_reader.specs.Wholes.{IsPart, IsWhole, ReadsParts, ReadsSpelled, ReadsDecl, IfFault};
ghost use Rattle.decl_reader.specs.Wholes.{CountsReached, CountsNew};

mod constants;
mod methods;
mod parts;

use crate::basics::Basics;
use crate::fault::DeclFault;
use crate::finished::Spelled;
use crate::nodes::add_spelled;
use crate::places::Places;
use crate::reading::Reading;
use crate::table::Table;
use block_reader::{Block, DeclHead, DeclParts, read_declaration_head};
use file_parts::Parts;
use std::alloc::Global;
use std::mem::replace;
use std::sync::ledger::Ledger;
use steps::Steps;
use type_terms::{Arena, DeclNode};
use wire_bytes::ReadFault;

/// Reads the declaration at an offset of the data section of a full file or a bundle, or answers the first fault in
/// reading order. A declaration is read from left to right; a descriptor is read where it is first named, once, and
/// stands wholly before the block that names it. docs/FORMAT.md has the rules, "Declarations". The nodes of its types
/// are added to the arena. `Nodes` comes only where the arena has no room for the types that are read. What is read
/// keeps the rules of declarations of environments.
///
/// One step is one byte of the data section read: those of each descriptor that it reaches, once, and its own. It takes
/// time near linear in them, and memory by the descriptors.
pub fn read_decl<B: Basics, L: Ledger>(
    alloc: Global,
    parts: &Parts<'_>,
    offset: u64,
    basics: &B,
    arena: &mut Arena,
    steps: &mut Steps<L>,
) -> Result<DeclNode, DeclFault>
    requires of_file { IsOfFile parts.now }
    requires inside { offset < parts.now.body_len }
    ensures bytes { HoldsBytes (sections_of parts.now) }
    ensures found { IfOk result
        (λ node. SpellsDecl (sections_of parts.now) (B.meaning basics.now) offset (decl_of arena.new.nodes node)) }
    ensures fault { IfFault result (FirstFault (sections_of parts.now) (B.meaning basics.now) offset) }
    ensures proper { IfOk result (λ node. IsProperDecl (decl_of arena.new.nodes node)) }
    ensures exact { ReadsDecl result arena.new.nodes (decl_at (sections_of parts.now) (B.meaning basics.now) offset) }
    ensures counted { CountsReached (sections_of parts.now) (B.meaning basics.now) offset result steps.old steps.new }
    ensures at_most { steps.new ≤ steps.old + parts.now.body_len }
    ensures within { IfOk result (λ node. AllBelow (length arena.new.nodes) (decl_nodes node)) }
    ensures extends { Extends arena.old arena.new }
    ensures adds { AddsOnly (types_read (sections_of parts.now) (B.meaning basics.now) offset) arena.old arena.new }
    ensures outgrown { IsErrOf result DeclFault.Nodes
        → Outgrows arena.old (types_read (sections_of parts.now) (B.meaning basics.now) offset) }
    ensures full { IsErrOf result DeclFault.Nodes → length arena.new.nodes ≡ arena.new.limit }
{
    let mut table = Table::new(alloc);
    let spelled = read_spelled(alloc, parts, offset, basics, &table, arena, steps)?;
    add_spelled(alloc, parts.version, spelled, &mut table, arena)
}

/// The declaration with types as numbers, and the descriptors that it reaches and that aren't remembered.
pub(crate) fn read_spelled<B: Basics, L: Ledger>(
    alloc: Global,
    parts: &Parts<'_>,
    offset: u64,
    basics: &B,
    memory: &Table,
    arena: &Arena,
    steps: &mut Steps<L>,
) -> Result<Spelled, ReadFault>
    requires of_file { IsOfFile parts.now }
    requires inside { offset < parts.now.body_len }
    requires memory { IsKept (sections_of parts.now) arena.now.nodes memory.now }
    ensures bytes { HoldsBytes (sections_of parts.now) }
    ensures exact { ReadsSpelled (sections_of parts.now) (B.meaning basics.now)
        (table_of arena.now.nodes memory.now) offset result }
    ensures counted { CountsNew (sections_of parts.now) (B.meaning basics.now)
        (table_of arena.now.nodes memory.now) offset result steps.old steps.new }
    ensures at_most { steps.new ≤ steps.old + parts.now.body_len }
{
    let mut block = Block::new(alloc, parts, offset, parts.body_len);
    let mut reading = Reading {
        alloc,
        memory,
        arena,
        finished: Vec::new(alloc),
        places: Places::new(alloc),
        steps,
    };
    let read = reading.read_out(parts, offset, basics, &mut block);
    let Reading {
        alloc: _alloc,
        memory: _memory,
        arena: _arena,
        finished: _finished,
        places: _places,
        steps: _steps,
    } = reading;
    read
}

impl<L: Ledger> Reading<'_, L> {
    /// The declaration, and all descriptors that were read whole, which are taken out.
    fn read_out<B: Basics>(
        &mut self,
        parts: &Parts<'_>,
        offset: u64,
        basics: &B,
        block: &mut Block<'_>,
    ) -> Result<Spelled, ReadFault>
        requires of_file { IsOfFile parts.now }
        requires bytes { HoldsBytes (sections_of parts.now) }
        requires inside { offset < parts.now.body_len }
        requires block { ahead_of block.old ≡ start (window (sections_of parts.now) offset parts.now.body_len) }
        requires memory { IsKept (sections_of parts.now) self.old.arena.now.nodes self.old.memory.now }
        requires empty { self.old.finished.items ≡ [] }
        requires none_placed { self.old.places ≡ [] }
        ensures exact { ReadsSpelled (sections_of parts.now) (B.meaning basics.now) (remembered self.old) offset
            result }
        ensures counted { CountsNew (sections_of parts.now) (B.meaning basics.now) (remembered self.old) offset result
            self.old.steps.now self.new.steps.now }
        ensures at_most { self.new.steps.now ≤ self.old.steps.now + parts.now.body_len }
        ensures same_steps { self.new.steps.ghost_name ≡ self.old.steps.ghost_name }
    {
        let decl = self.read_whole(parts, offset, basics, block)?;
        let finished = replace(&mut self.finished, Vec::new(self.alloc));
        Ok(Spelled { decl, finished })
    }

    /// The declaration, by the deciding function alone.
    fn read_whole<B: Basics>(
        &mut self,
        parts: &Parts<'_>,
        offset: u64,
        basics: &B,
        block: &mut Block<'_>,
    ) -> Result<DeclParts, ReadFault>
        requires of_file { IsOfFile parts.now }
        requires bytes { HoldsBytes (sections_of parts.now) }
        requires inside { offset < parts.now.body_len }
        requires block { ahead_of block.old ≡ start (window (sections_of parts.now) offset parts.now.body_len) }
        requires memory { IsKept (sections_of parts.now) self.old.arena.now.nodes self.old.memory.now }
        requires empty { self.old.finished.items ≡ [] }
        requires none_placed { self.old.places ≡ [] }
        ensures exact { ReadsParts (sections_of parts.now) (B.meaning basics.now) (remembered self.old) offset result
            self.new.finished.items }
        ensures counted { CountsNew (sections_of parts.now) (B.meaning basics.now) (remembered self.old) offset result
            self.old.steps.now self.new.steps.now }
        ensures at_most { self.new.steps.now ≤ self.old.steps.now + parts.now.body_len }
        ensures same_steps { self.new.steps.ghost_name ≡ self.old.steps.ghost_name }
    {
        let head = self.read_head_types(parts, offset, block)?;
        let whole = self.read_rest(parts, offset, head, basics, block)?;
        let end = block.cursor.place() as u64 - parts.body_at;
        self.steps.add(end - offset);
        Ok(whole)
    }

    /// A declaration up to where its types decide what follows, and these types.
    fn read_head_types(
        &mut self,
        parts: &Parts<'_>,
        offset: u64,
        block: &mut Block<'_>,
    ) -> Result<DeclHead, ReadFault>
        requires of_file { IsOfFile parts.now }
        requires ready { IsReadyFor parts.now self.old }
        requires within { offset ≤ parts.now.body_len }
        ensures exact { IsPart head_spelled result (ahead_of block.new) (known parts.now self.new)
            (resolved (sections_of parts.now) offset (head_at (sections_of parts.now) (ahead_of block.old))
            (known parts.now self.old)) }
        ensures goes_on { GoesOn parts.now self.old self.new }
    {
        match read_declaration_head(self.alloc, parts, block) {
            Ok(head) => {
                self.know_types(parts, offset, block)?;
                Ok(head)
            }
            Err(ReadFault::Bytes(fault)) => {
                // A fault of the types that stand before it comes first.
                self.know_types(parts, offset, block)?;
                Err(ReadFault::Bytes(fault))
            }
            Err(ReadFault::OutOfMemory) => Err(ReadFault::OutOfMemory),
        }
    }

    /// What follows the head of a declaration.
    fn read_rest<B: Basics>(
        &mut self,
        parts: &Parts<'_>,
        offset: u64,
        head: DeclHead,
        basics: &B,
        block: &mut Block<'_>,
    ) -> Result<DeclParts, ReadFault>
        requires of_file { IsOfFile parts.now }
        requires ready { IsReadyFor parts.now self.old }
        requires within { offset ≤ parts.now.body_len }
        requires whole { IsUpToTypes head }
        ensures exact { IsWhole result (ahead_of block.new) (known parts.now self.new)
            (after_head (sections_of parts.now) (B.meaning basics.now) offset (head_spelled head) (ahead_of block.old)
            (known parts.now self.old)) }
        ensures goes_on { GoesOn parts.now self.old self.new }
    {
        match head {
            DeclHead::Whole(parts) => Ok(parts),
            DeclHead::Defined {
                pos,
                tparams,
                underlying,
            } => {
                let methods = self.read_methods(parts, offset, underlying, block)?;
                Ok(DeclParts::Defined {
                    pos,
                    tparams,
                    underlying,
                    methods,
                })
            }
            DeclHead::Constant { pos, ty, at } => {
                let value = self.read_constant(parts, ty, at, basics, block)?;
                Ok(DeclParts::Constant { pos, ty, value })
            }
        }
    }
}
