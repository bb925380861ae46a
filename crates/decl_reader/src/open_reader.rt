//! Reading many declarations of one open file, each descriptor once.

ghost use Rattle.std.specs.Prelude.{◌≡◌, ◌+◌, ◌*◌, ◌<◌, ◌≤◌, [], List, length, IfOk, IfErr, IsErrOf, OnOk, OnErr};
ghost use Rattle.file_parts.specs.FileParts.{IsOfFile};
ghost use Rattle.type_terms.specs.declared.descriptors.Node.{Node};
ghost use Rattle.type_terms.specs.Additions.{AddsOnly, Outgrows};
ghost use Rattle.type_terms.specs.Arenas.{AllBelow, Extends};
ghost use Rattle.type_terms.specs.Declarations.{decl_nodes, decl_of};
ghost use Rattle.type_terms.specs.DeclarationRules.{IsProperDecl};
ghost use Rattle.decl_spelling.specs.Sections.{Sections, HoldsBytes};
ghost use Rattle.decl_spelling.specs.Declarations.{decl_at, FirstFault};
ghost use Rattle.decl_spelling.specs.Leaving.{types_read};
ghost use Rattle.decl_spelling.specs.Spelling.{SpellsDecl};
ghost use Rattle.block_reader.specs.Calls.{sections_of};
ghost use Rattle.shared_reading.specs.WithMemory.{widened};
ghost use Rattle.decl_reader.specs.Blocks.{AllInside};
ghost use Rattle.decl_reader.specs.Faults.{IsNoFault};
ghost use Rattle.decl_reader.specs.Finished.{known_after, AreInTurn};
ghost use Rattle.decl_reader.specs.Meant.{decl_by};
ghost use Rattle.decl_reader.specs.Wholes.{ReadsDecl, IfFault, CountsNew, types_reached};

use crate::basics::Basics;
use crate::declaration::{read_decl, read_spelled};
use crate::fault::DeclFault;
use crate::finished::Spelled;
use crate::nodes::add_spelled;
use crate::table::Table;
use file_parts::Parts;
use std::alloc::Global;
use std::sync::ledger::Ledger;
use steps::Steps;
use type_terms::{Arena, DeclNode};
use wire_bytes::ReadFault;

/// Reads declarations of one open file. It remembers the descriptors that they have finished, with the nodes of their
/// types, so each is read once. All of its calls have to be given that file and one arena.
#[derive(Drop)]
pub struct OpenReader {
    table: Table,
}

impl OpenReader {
    ghost use Rattle.decl_reader.specs.OpenReaders.{entries_of, memory_of, Remembers};

    /// Nothing is remembered. It takes no memory.
    pub fn new(alloc: Global) -> OpenReader
        ensures nothing { (nodes : List Node) → memory_of nodes result ≡ [] }
        ensures kept { (src : Sections) (nodes : List Node) → Remembers src nodes result }
    {
        OpenReader {
            table: Table::new(alloc),
        }
    }

    /// Reads a declaration as `read_decl` does, with the same answer. Descriptors that are remembered aren't read
    /// again, and those that it finishes are remembered. Where it meets a fault so, it is read by itself, since the
    /// fault may come of what is remembered. Where nodes or memory are wanting, all may be forgotten.
    ///
    /// One step is one byte of the data section read.
    pub fn read<B: Basics, L: Ledger>(
        &mut self,
        alloc: Global,
        parts: &Parts<'_>,
        offset: u64,
        basics: &B,
        arena: &mut Arena,
        steps: &mut Steps<L>,
    ) -> Result<DeclNode, DeclFault>
        requires of_file { IsOfFile parts.now }
        requires inside { offset < parts.now.body_len }
        requires kept { Remembers (sections_of parts.now) arena.old.nodes self.old }
        ensures bytes { HoldsBytes (sections_of parts.now) }

        // The answer is what the declaration is by itself.
        ensures found { IfOk result
            (λ node. SpellsDecl (sections_of parts.now) (B.meaning basics.now) offset (decl_of arena.new.nodes node)) }
        ensures fault { IfFault result (FirstFault (sections_of parts.now) (B.meaning basics.now) offset) }
        ensures proper { IfOk result (λ node. IsProperDecl (decl_of arena.new.nodes node)) }
        ensures plain { ReadsDecl result arena.new.nodes
            (decl_at (sections_of parts.now) (B.meaning basics.now) offset) }
        ensures within { IfOk result (λ node. AllBelow (length arena.new.nodes) (decl_nodes node)) }

        // What is remembered then.
        ensures keeps { Remembers (sections_of parts.now) arena.new.nodes self.new }
        ensures remembers { OnOk result (memory_of arena.new.nodes self.new
            ≡ widened (sections_of parts.now) (B.meaning basics.now) (memory_of arena.old.nodes self.old) offset) }
        ensures same { IfFault result
            (λ fault. memory_of arena.new.nodes self.new ≡ memory_of arena.old.nodes self.old) }

        // Steps are bytes that are read for the first time, where it is read with what is remembered.
        ensures counted { CountsNew (sections_of parts.now) (B.meaning basics.now)
            (memory_of arena.old.nodes self.old) offset result steps.old steps.new }
        ensures at_most { steps.new ≤ steps.old + 2 * parts.now.body_len }

        // Which nodes are added and wanted.
        ensures extends { Extends arena.old arena.new }
        ensures adds { AddsOnly (types_read (sections_of parts.now) (B.meaning basics.now) offset)
            arena.old arena.new }
        ensures outgrown { IsErrOf result DeclFault.Nodes
            → Outgrows arena.old (types_read (sections_of parts.now) (B.meaning basics.now) offset) }
        ensures full { IsErrOf result DeclFault.Nodes → length arena.new.nodes ≡ arena.new.limit }
    {
        match read_spelled(alloc, parts, offset, basics, &self.table, arena, steps) {
            Ok(spelled) => self.keep(alloc, parts.version, spelled, arena),
            Err(ReadFault::Bytes(_)) => read_decl(alloc, parts, offset, basics, arena, steps),
            Err(ReadFault::OutOfMemory) => Err(DeclFault::OutOfMemory),
        }
    }

    /// The declaration with types as nodes. What it has finished is remembered.
    fn keep(
        &mut self,
        alloc: Global,
        version: u8,
        spelled: Spelled,
        arena: &mut Arena,
    ) -> Result<DeclNode, DeclFault>
        requires inside { AllInside (length arena.old.nodes) (entries_of self.old) }
        requires turn { AreInTurn version (memory_of arena.old.nodes self.old) spelled.finished.items }
        ensures denotes { IfOk result (λ node. decl_of arena.new.nodes node
            ≡ decl_by version (known_after version (memory_of arena.old.nodes self.old) spelled.finished.items)
            spelled.decl) }
        ensures remembers { OnOk result (memory_of arena.new.nodes self.new
            ≡ known_after version (memory_of arena.old.nodes self.old) spelled.finished.items) }
        ensures inside { OnOk result (AllInside (length arena.new.nodes) (entries_of self.new)) }
        ensures forgotten { OnErr result (entries_of self.new ≡ []) }
        ensures within { IfOk result (λ node. AllBelow (length arena.new.nodes) (decl_nodes node)) }
        ensures extends { Extends arena.old arena.new }
        ensures only_memory { IfErr result IsNoFault }
        ensures adds { AddsOnly (types_reached version (memory_of arena.old.nodes self.old) spelled)
            arena.old arena.new }
        ensures outgrown { IsErrOf result DeclFault.Nodes
            → Outgrows arena.old (types_reached version (memory_of arena.old.nodes self.old) spelled) }
        ensures full { IsErrOf result DeclFault.Nodes → length arena.new.nodes ≡ arena.new.limit }
    {
        match add_spelled(alloc, version, spelled, &mut self.table, arena) {
            Ok(node) => Ok(node),
            Err(fault) => {
                self.table = Table::new(alloc);
                Err(fault)
            }
        }
    }
}
