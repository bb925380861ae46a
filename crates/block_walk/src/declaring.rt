//! Declarations, each behind the descriptors of its types.

ghost use Rattle.std.specs.Prelude.{[], length, IfOk, OnOk};
ghost use Rattle.std.specs.List.{AllByRecursion};
ghost use Rattle.type_terms.specs.Arenas.{AllBelow};
ghost use Rattle.type_terms.specs.Declarations.{decl_nodes};
ghost use Rattle.type_terms.specs.Denotation.{tree};
ghost use Rattle.decl_spelling.specs.Sections.{Basics};
ghost use Rattle.block_writer.specs.Declaring.{decl_over, HidesNone, IsOfType, IsTold, last_of};
ghost use Rattle.block_walk.specs.Declaring.{Declares};
ghost use Rattle.block_walk.specs.Standing.{HasRoom, Goes};
ghost use Rattle.block_walk.specs.Steps.{decl_steps};

use crate::labels::label_types;
use crate::section::Section;
use block_writer::{Told, push_declaration, put_declaration};
use std::alloc::{AllocError, Global};
use type_terms::{Arena, DeclNode};

impl Section {
    /// Writes a declaration behind the descriptors of its types, and answers where it starts. Its types are nodes of
    /// what is written. What is told of it has to fit: a whole number is one of its type, and a defined type that may
    /// have no methods has none. The own path is spelled as the empty text. Takes time and memory for the declaration
    /// and for types that aren't written yet, with their uses. After a refusal for want of memory some of it may be
    /// done.
    pub fn declare<'a>(
        &mut self,
        alloc: Global,
        nodes: &'a Arena,
        own: &[u8],
        decl: &'a DeclNode,
        told: Told,
    ) -> Result<u64, AllocError>
        requires there { AllBelow (length nodes.now.nodes) (decl_nodes decl.now) }
        requires room { HasRoom nodes.now.nodes self.old }
        requires of_type { AllByRecursion IsOfType (last_of told.basic decl.now) }
        requires methods { HidesNone told decl.now }
        ensures { IfOk result (λ start. (basics : Basics) → IsTold basics (tree nodes.now.nodes) told decl.now
            → Declares nodes.now.nodes own.now basics (decl_over (tree nodes.now.nodes) decl.now) start
            self.old self.new) }
    {
        go_before(alloc, nodes, own, self, decl, told)?;
        label_types(alloc, nodes, decl, &mut self.numbers)?;
        let start = self.body.bytes().len() as u64;
        put_declaration(
            alloc,
            &mut self.body,
            &mut self.strings,
            own,
            &self.numbers,
            decl,
            told,
        )?;
        Ok(start)
    }
}

/// Does what comes before the bytes of a declaration.
fn go_before<'a>(
    alloc: Global,
    nodes: &'a Arena,
    own: &[u8],
    section: &mut Section,
    decl: &'a DeclNode,
    told: Told,
) -> Result<(), AllocError>
    requires there { AllBelow (length nodes.now.nodes) (decl_nodes decl.now) }
    requires room { HasRoom nodes.now.nodes section.old }
    requires methods { HidesNone told decl.now }
    ensures goes { OnOk result ((basics : Basics) → IsTold basics (tree nodes.now.nodes) told decl.now
        → Goes nodes.now.nodes own.now section.old section.new
        (decl_steps basics (decl_over (tree nodes.now.nodes) decl.now)) []) }
    ensures room { OnOk result (HasRoom nodes.now.nodes section.new) }
{
    let mut items = Vec::new(alloc);
    push_declaration(decl, told, &mut items)?;
    section.go_through(alloc, nodes, own, items.as_slice())
}
