//! Descriptors of types, with the types that stand in them as numbers.

ghost use Rattle.std.specs.Prelude.{◌≡◌, ◌<◌, ◌^◌};
ghost use Rattle.decl_spelling.specs.Spelled.{SpelledText as Text, SpelledPath as Path};
ghost use Rattle.file_parts.specs.FileParts.{IsOfFile};
ghost use Rattle.decl_spelling.specs.Descriptors.{Flat as Shape, qualified_at, array_at, chan_at, map_at, func_at};
ghost use Rattle.decl_spelling.specs.Descriptors.{struct_at, interface_at, instance_at, union_at, flat_by, flat_at};
ghost use Rattle.block_reader.specs.Calls.{ReadsBlock, sections_of};
ghost use Rattle.block_reader.specs.Parts.{flat_spelled};
ghost use Rattle.block_reader.specs.Spelled.{text_spelled, path_spelled};

use crate::block::{Block, read_number, read_path, read_pos, read_text, read_type};
use crate::codes::{dir_of, type_tag_of};
use crate::lists::{read_list, read_some};
use crate::members::{FieldParts, MethodParts, TermParts};
use crate::params::{Signature, read_signature};
use crate::spelled::{Embedded, SpelledName, SpelledPath, SpelledPos};
use crate::types::read_types;
use code_tables::TypeTag;
use decl_spelling::Demand;
use file_parts::Parts;
use std::alloc::Global;
use type_terms::Dir;
use wire_bytes::{ByteFault, ReadFault};

/// What stands in a descriptor. The first text of a function, a struct and an interface is the path of the package in
/// which the literal stands.
#[derive(Debug, Drop)]
pub enum Flat {
    Defined(SpelledName),
    TypeParameter(SpelledName),
    Alias(SpelledName),
    Pointer(u64),
    Slice(u64),
    /// The length, which has 63 bits, and the element's type.
    Array(u64, u64),
    Chan(Dir, u64),
    /// The key's type, and the element's.
    Map(u64, u64),
    Func(SpelledPath, Signature),
    Struct(SpelledPath, Vec<FieldParts>),
    /// The embedded types, and the methods.
    Interface(SpelledPath, Vec<Embedded>, Vec<MethodParts>),
    /// A position, which the type drops, the generic type, and at least one argument.
    Instance(SpelledPos, u64, Vec<u64>),
    /// At least one term.
    Union(Vec<TermParts>),
}

/// The number of its kind, and a descriptor.
#[tactic(auto, unfolding(decl_spelling::specs::Descriptors::flat_at))]
pub fn read_flat(alloc: Global, parts: &Parts<'_>, block: &mut Block<'_>) -> Result<Flat, ReadFault>
    requires { IsOfFile parts.now }
    ensures { ReadsBlock flat_spelled (flat_at (sections_of parts.now)) block.old result block.new }
{
    let at = block.cursor.place() as u64;
    let value = read_number(block)?;
    match type_tag_of(parts.version, value) {
        Some(tag) => read_parts(alloc, parts, tag, block),
        None => Err(ReadFault::Bytes(ByteFault::Tag { at, value })),
    }
}

/// The parts of a descriptor of a kind.
#[tactic(auto, unfolding(decl_spelling::specs::Descriptors::element_at))]
fn read_parts(
    alloc: Global,
    parts: &Parts<'_>,
    tag: TypeTag,
    block: &mut Block<'_>,
) -> Result<Flat, ReadFault>
    requires { IsOfFile parts.now }
    ensures { ReadsBlock flat_spelled (flat_by (sections_of parts.now) tag) block.old result block.new }
{
    match tag {
        TypeTag::Defined => Ok(Flat::Defined(read_qualified(alloc, parts, block)?)),
        TypeTag::TypeParameter => Ok(Flat::TypeParameter(read_qualified(alloc, parts, block)?)),
        TypeTag::Alias => Ok(Flat::Alias(read_qualified(alloc, parts, block)?)),
        TypeTag::Pointer => Ok(Flat::Pointer(read_type(block, Demand::Any)?)),
        TypeTag::Slice => Ok(Flat::Slice(read_type(block, Demand::Any)?)),
        TypeTag::Array => read_array(block),
        TypeTag::Chan => read_chan(block),
        TypeTag::Map => read_map(block),
        TypeTag::Signature => read_func(alloc, parts, block),
        TypeTag::Struct => read_struct(alloc, parts, block),
        TypeTag::Interface => read_interface(alloc, parts, block),
        TypeTag::Instance => read_instance(alloc, parts, block),
        TypeTag::Union => read_union(alloc, parts, block),
    }
}

/// A name and the path of its package.
#[tactic(auto, unfolding(decl_spelling::specs::Descriptors::qualified_at))]
fn read_qualified(
    alloc: Global,
    parts: &Parts<'_>,
    block: &mut Block<'_>,
) -> Result<SpelledName, ReadFault>
    requires { IsOfFile parts.now }
    ensures each { (make : Text → Path → Shape)
        → ReadsBlock (λ q. make (text_spelled q.name) (path_spelled q.path)) (qualified_at (sections_of parts.now) make)
        block.old result block.new }
{
    let name = read_text(alloc, parts, block)?;
    let path = read_path(alloc, parts, block)?;
    Ok(SpelledName { name, path })
}

/// A length and the element's type.
#[tactic(auto, unfolding(decl_spelling::specs::Descriptors::array_at))]
fn read_array(block: &mut Block<'_>) -> Result<Flat, ReadFault>
    ensures { ReadsBlock flat_spelled array_at block.old result block.new }
{
    let at = block.cursor.place() as u64;
    let value = read_number(block)?;
    if value > i64::MAX as u64 {
        return Err(ReadFault::Bytes(ByteFault::Range { at, value }));
    }
    let ty = read_type(block, Demand::Any)?;
    Ok(Flat::Array(value, ty))
}

/// A direction and the element's type.
#[tactic(auto, unfolding(decl_spelling::specs::Descriptors::chan_at))]
fn read_chan(block: &mut Block<'_>) -> Result<Flat, ReadFault>
    ensures { ReadsBlock flat_spelled chan_at block.old result block.new }
{
    let at = block.cursor.place() as u64;
    let value = read_number(block)?;
    let Some(dir) = dir_of(value) else {
        return Err(ReadFault::Bytes(ByteFault::Tag { at, value }));
    };
    let ty = read_type(block, Demand::Any)?;
    Ok(Flat::Chan(dir, ty))
}

/// The key's type and the element's.
#[tactic(auto, unfolding(decl_spelling::specs::Descriptors::map_at))]
fn read_map(block: &mut Block<'_>) -> Result<Flat, ReadFault>
    ensures { ReadsBlock flat_spelled map_at block.old result block.new }
{
    let key = read_type(block, Demand::Any)?;
    let ty = read_type(block, Demand::Any)?;
    Ok(Flat::Map(key, ty))
}

/// The path of its package, and a signature.
#[tactic(auto, unfolding(decl_spelling::specs::Descriptors::func_at))]
fn read_func(alloc: Global, parts: &Parts<'_>, block: &mut Block<'_>) -> Result<Flat, ReadFault>
    requires { IsOfFile parts.now }
    ensures { ReadsBlock flat_spelled (func_at (sections_of parts.now)) block.old result block.new }
{
    let home = read_path(alloc, parts, block)?;
    let signature = read_signature(alloc, parts, block)?;
    Ok(Flat::Func(home, signature))
}

/// The path of its package, and the fields.
#[tactic(auto, unfolding(decl_spelling::specs::Descriptors::struct_at))]
fn read_struct(alloc: Global, parts: &Parts<'_>, block: &mut Block<'_>) -> Result<Flat, ReadFault>
    requires { IsOfFile parts.now }
    ensures { ReadsBlock flat_spelled (struct_at (sections_of parts.now)) block.old result block.new }
{
    let home = read_path(alloc, parts, block)?;
    let fields = read_list(alloc, parts, block)?;
    Ok(Flat::Struct(home, fields))
}

/// The path of its package, the embedded types and the methods.
#[tactic(auto, unfolding(decl_spelling::specs::Descriptors::interface_at))]
fn read_interface(
    alloc: Global,
    parts: &Parts<'_>,
    block: &mut Block<'_>,
) -> Result<Flat, ReadFault>
    requires { IsOfFile parts.now }
    ensures { ReadsBlock flat_spelled (interface_at (sections_of parts.now)) block.old result block.new }
{
    let home = read_path(alloc, parts, block)?;
    let embedded = read_list(alloc, parts, block)?;
    let methods = read_list(alloc, parts, block)?;
    Ok(Flat::Interface(home, embedded, methods))
}

/// A position, the arguments and the generic type.
#[tactic(auto, unfolding(decl_spelling::specs::Descriptors::instance_at))]
fn read_instance(alloc: Global, parts: &Parts<'_>, block: &mut Block<'_>) -> Result<Flat, ReadFault>
    requires { IsOfFile parts.now }
    ensures { ReadsBlock flat_spelled (instance_at (sections_of parts.now)) block.old result block.new }
{
    let pos = read_pos(alloc, parts, block)?;
    let arguments = read_types(alloc, Demand::Any, block)?;
    let base = read_type(block, Demand::Base)?;
    Ok(Flat::Instance(pos, base, arguments))
}

/// The terms.
#[tactic(auto, unfolding(decl_spelling::specs::Descriptors::union_at))]
fn read_union(alloc: Global, parts: &Parts<'_>, block: &mut Block<'_>) -> Result<Flat, ReadFault>
    requires { IsOfFile parts.now }
    ensures { ReadsBlock flat_spelled union_at block.old result block.new }
{
    let terms = read_some(alloc, parts, block)?;
    Ok(Flat::Union(terms))
}
