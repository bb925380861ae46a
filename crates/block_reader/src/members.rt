//! Fields, methods and terms, with types as numbers.

use crate::block::{Block, read_pos, read_text, read_truth, read_type};
use crate::lists::Listed;
use crate::params::{Signature, read_signature};
use crate::spelled::{Embedded, SpelledPos, SpelledText};
use decl_spelling::Demand;
use file_parts::Parts;
use std::alloc::Global;
use wire_bytes::ReadFault;

/// A field of a struct.
#[derive(Debug, Drop)]
pub struct FieldParts {
    pub pos: SpelledPos,
    pub name: SpelledText,
    pub ty: u64,
    pub embedded: bool,
    pub tag: SpelledText,
}

/// A method of an interface.
#[derive(Debug, Drop)]
pub struct MethodParts {
    pub pos: SpelledPos,
    pub name: SpelledText,
    pub signature: Signature,
}

/// A term of a union.
#[derive(Debug, Drop)]
pub struct TermParts {
    pub tilde: bool,
    pub ty: u64,
}

impl Listed for FieldParts {
    ghost use Rattle.decl_spelling.specs.Descriptors.{Field, field_at};
    ghost use Rattle.block_reader.specs.Parts.{field_spelled};

    ghost Shape = { Field };

    ghost shape = { field_spelled };

    ghost reading = { field_at };

    #[tactic(auto, unfolding(decl_spelling::specs::Descriptors::field_at))]
    fn read(
        alloc: Global,
        parts: &Parts<'_>,
        block: &mut Block<'_>,
    ) -> Result<FieldParts, ReadFault> {
        let pos = read_pos(alloc, parts, block)?;
        let name = read_text(alloc, parts, block)?;
        let ty = read_type(block, Demand::Any)?;
        let embedded = read_truth(block)?;
        let tag = read_text(alloc, parts, block)?;
        Ok(FieldParts {
            pos,
            name,
            ty,
            embedded,
            tag,
        })
    }
}

impl Listed for MethodParts {
    ghost use Rattle.decl_spelling.specs.Descriptors.{Method, method_at};
    ghost use Rattle.block_reader.specs.Parts.{method_spelled};

    ghost Shape = { Method };

    ghost shape = { method_spelled };

    ghost reading = { method_at };

    #[tactic(auto, unfolding(decl_spelling::specs::Descriptors::method_at))]
    fn read(
        alloc: Global,
        parts: &Parts<'_>,
        block: &mut Block<'_>,
    ) -> Result<MethodParts, ReadFault> {
        let pos = read_pos(alloc, parts, block)?;
        let name = read_text(alloc, parts, block)?;
        let signature = read_signature(alloc, parts, block)?;
        Ok(MethodParts {
            pos,
            name,
            signature,
        })
    }
}

impl Listed for TermParts {
    ghost use Rattle.decl_spelling.specs.Descriptors.{Term, term_at};
    ghost use Rattle.block_reader.specs.Parts.{term_spelled};

    ghost Shape = { Term };

    ghost shape = { term_spelled };

    ghost reading = { λ _. term_at };

    #[tactic(auto, unfolding(decl_spelling::specs::Descriptors::term_at))]
    fn read(
        _alloc: Global,
        _parts: &Parts<'_>,
        block: &mut Block<'_>,
    ) -> Result<TermParts, ReadFault> {
        let tilde = read_truth(block)?;
        let ty = read_type(block, Demand::Any)?;
        Ok(TermParts { tilde, ty })
    }
}

impl Listed for Embedded {
    ghost use Rattle.decl_spelling.specs.Spelled.{SpelledType};
    ghost use Rattle.decl_spelling.specs.Descriptors.{embedded_at};
    ghost use Rattle.block_reader.specs.Spelled.{embedded_spelled};

    ghost Shape = { SpelledType };

    ghost shape = { embedded_spelled };

    ghost reading = { embedded_at };

    #[tactic(auto, unfolding(decl_spelling::specs::Descriptors::embedded_at))]
    fn read(
        alloc: Global,
        parts: &Parts<'_>,
        block: &mut Block<'_>,
    ) -> Result<Embedded, ReadFault> {
        let pos = read_pos(alloc, parts, block)?;
        let ty = read_type(block, Demand::Any)?;
        Ok(Embedded { pos, ty })
    }
}
