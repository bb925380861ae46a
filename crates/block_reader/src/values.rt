//! The values of constants.

ghost use Rattle.std.specs.Prelude.{◌≡◌, ◌*◌};
ghost use Rattle.file_parts.specs.FileParts.{IsOfFile};
ghost use Rattle.decl_spelling.specs.Constants.{kind_of, kind_number, kind_given_at, kind_at, spelled_at, value_at};
ghost use Rattle.decl_spelling.specs.Constants.{value_alone, text_value};
ghost use Rattle.block_reader.specs.Calls.{ReadsBlock, sections_of};
ghost use Rattle.block_reader.specs.Spelled.{text_spelled, const_spelled};
ghost use Rattle.block_reader.specs.Spellings.{IsSpelling, IsKind, spelling_shape, kind_shape};

use crate::block::{Block, read_text, read_truth};
use crate::spelled::{SpelledConst, SpelledText};
use code_tables::Basic;
use file_parts::Parts;
use go_values::Const;
use std::alloc::Global;
use wire_bytes::{ByteFault, ReadFault, uvarint_of};

/// How the values of a basic type are spelled.
#[derive(Clone, Copy, Debug, PartialEq, Eq)]
pub enum Spelling {
    Flag,
    /// The offset of a text.
    Offset,
    /// A whole number of at most `max` bytes without its sign, where 64 stands for an untyped one.
    Number { signed: bool, max: u8 },
}

/// What kind of constant a basic type has.
#[derive(Clone, Copy, Debug, PartialEq, Eq)]
pub enum Kind {
    Spelled(Spelling),
    /// Floating and complex ones, which aren't read.
    Floating,
    NoConstant,
}

/// What kind of constant a basic type has.
pub fn kind_of(basic: Basic) -> Kind
    ensures known { IsKind result }
    ensures exact { kind_shape result ≡ kind_of basic }
{
    match basic {
        Basic::Bool | Basic::UntypedBool => Kind::Spelled(Spelling::Flag),
        Basic::String | Basic::UntypedString => Kind::Spelled(Spelling::Offset),
        Basic::Int8 => whole(true, 1),
        Basic::Int16 => whole(true, 2),
        Basic::Int32 | Basic::Rune => whole(true, 4),
        Basic::Int | Basic::Int64 => whole(true, 8),
        Basic::Uint8 | Basic::Byte => whole(false, 1),
        Basic::Uint16 => whole(false, 2),
        Basic::Uint32 => whole(false, 4),
        Basic::Uint | Basic::Uint64 | Basic::Uintptr => whole(false, 8),
        Basic::UntypedInt | Basic::UntypedRune => whole(true, 64),
        Basic::Float32
        | Basic::Float64
        | Basic::Complex64
        | Basic::Complex128
        | Basic::UntypedFloat
        | Basic::UntypedComplex => Kind::Floating,
        Basic::Error | Basic::UntypedNil | Basic::UnsafePointer | Basic::Comparable | Basic::Any =>
            Kind::NoConstant,
    }
}

fn whole(signed: bool, max: u8) -> Kind
    ensures { result ≡ Kind.Spelled (Spelling.Number signed max) }
{
    Kind::Spelled(Spelling::Number { signed, max })
}

/// The number of the value's kind, from version 2 on, and the value as values of its type are spelled.
#[tactic(auto, unfolding(decl_spelling::specs::Constants::value_at))]
pub fn read_value(
    alloc: Global,
    parts: &Parts<'_>,
    spelling: Spelling,
    block: &mut Block<'_>,
) -> Result<SpelledConst, ReadFault>
    requires sections { IsOfFile parts.now }
    requires spelling { IsSpelling spelling }
    ensures { ReadsBlock const_spelled (value_at (sections_of parts.now) (spelling_shape spelling)) block.old result
        block.new }
{
    read_kind(parts.version, spelling, block)?;
    read_spelled(alloc, parts, spelling, block)
}

fn read_kind(version: u8, spelling: Spelling, block: &mut Block<'_>) -> Result<(), ReadFault>
    ensures { ReadsBlock (λ _. tt) (kind_at version (spelling_shape spelling)) block.old result block.new }
{
    if version == 1 {
        return Ok(());
    }
    read_given_kind(spelling, block)
}

#[tactic(auto, unfolding(decl_spelling::specs::Constants::kind_given_at))]
fn read_given_kind(spelling: Spelling, block: &mut Block<'_>) -> Result<(), ReadFault>
    ensures { ReadsBlock (λ _. tt) (kind_given_at (spelling_shape spelling)) block.old result block.new }
{
    let at = block.cursor.place() as u64;
    let value = uvarint_of(block.cursor.varint()?);
    if value == 2 * kind_number(spelling) {
        Ok(())
    } else {
        Err(ReadFault::Bytes(ByteFault::Tag { at, value }))
    }
}

/// The number of a kind of value.
fn kind_number(spelling: Spelling) -> u64
    ensures { result ≡ kind_number (spelling_shape spelling) }
{
    match spelling {
        Spelling::Flag => 1,
        Spelling::Offset => 2,
        Spelling::Number { .. } => 3,
    }
}

fn read_spelled(
    alloc: Global,
    parts: &Parts<'_>,
    spelling: Spelling,
    block: &mut Block<'_>,
) -> Result<SpelledConst, ReadFault>
    requires sections { IsOfFile parts.now }
    requires spelling { IsSpelling spelling }
    ensures { ReadsBlock const_spelled (spelled_at (sections_of parts.now) (spelling_shape spelling)) block.old result
        block.new }
{
    match spelling {
        Spelling::Flag => Ok(value_alone(Const::Bool(read_truth(block)?))),
        Spelling::Offset => Ok(text_value(read_text(alloc, parts, block)?)),
        Spelling::Number { signed, max } => {
            Ok(value_alone(Const::Int(block.cursor.whole(signed, max)?)))
        }
    }
}

fn value_alone(value: Const) -> SpelledConst
    ensures { const_spelled result ≡ value_alone value }
{
    SpelledConst {
        offset: None,
        value,
    }
}

fn text_value(text: SpelledText) -> SpelledConst
    ensures { const_spelled result ≡ text_value (text_spelled text) }
{
    SpelledConst {
        offset: Some(text.offset),
        value: Const::Str(text.text),
    }
}
