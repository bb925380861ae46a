//! The value of a constant, by the predeclared type to which its type comes down.

ghost use Rattle.std.specs.Prelude.{◌≡◌, ◌<◌, ℕ, Some, length};
ghost use Rattle.file_parts.specs.FileParts.{IsOfFile};
ghost use Rattle.type_terms.specs.Denotation.{tree};
ghost use Rattle.type_terms.specs.NodeShapes.{node_shape};
ghost use Rattle.type_terms.specs.Shapes.{retype};
ghost use Rattle.type_terms.specs.Trees.{Tree, tree_of};
ghost use Rattle.decl_spelling.specs.Tables.{type_named};
ghost use Rattle.decl_spelling.specs.Constants.{generic_basic, basic_type};
ghost use Rattle.block_reader.specs.Calls.{sections_of, ahead_of};
ghost use Rattle.decl_reader.specs.Progress.{known, IsReadyFor};
ghost use Rattle.decl_reader.specs.Shapes.{flat_shape};
ghost use Rattle.decl_reader.specs.Wholes.{IsValue, value_by};

use crate::basics::Basics;
use crate::reading::{Known, Reading};
use crate::type_off::TypeOff;
use block_reader::{
    Block, Flat, Kind, SpelledConst, SpelledName, basic_named, kind_of, read_value,
};
use code_tables::Basic;
use file_parts::Parts;
use std::alloc::Global;
use std::sync::ledger::Ledger;
use type_terms::{Arena, Node, NodeId};
use wire_bytes::{ByteFault, ReadFault};

impl<L: Ledger> Reading<'_, L> {
    /// The value of a constant of this type, whose number stands at `at` in the file.
    pub(crate) fn read_constant<B: Basics>(
        &self,
        parts: &Parts<'_>,
        ty: u64,
        at: u64,
        basics: &B,
        block: &mut Block<'_>,
    ) -> Result<SpelledConst, ReadFault>
        requires of_file { IsOfFile parts.now }
        requires ready { IsReadyFor parts.now self.now }
        ensures { IsValue result (ahead_of block.new)
            (value_by (sections_of parts.now) at
            (basic_type (B.meaning basics.now) (type_named parts.now.version (known parts.now self.now) ty))
            (ahead_of block.old)) }
    {
        match self.basic_type(parts, ty, basics) {
            Some(basic) => read_value_of(self.alloc, parts, basic, at, block),
            None => Err(ReadFault::Bytes(ByteFault::NotConst { at })),
        }
    }
}

/// The value of a constant of a predeclared type.
fn read_value_of(
    alloc: Global,
    parts: &Parts<'_>,
    basic: Basic,
    at: u64,
    block: &mut Block<'_>,
) -> Result<SpelledConst, ReadFault>
    requires of_file { IsOfFile parts.now }
    ensures { IsValue result (ahead_of block.new)
        (value_by (sections_of parts.now) at (Some basic) (ahead_of block.old)) }
{
    match kind_of(basic) {
        Kind::Spelled(spelling) => read_value(alloc, parts, spelling, block),
        Kind::Floating => Err(ReadFault::Bytes(ByteFault::Float { at })),
        Kind::NoConstant => Err(ReadFault::Bytes(ByteFault::NotConst { at })),
    }
}

impl<L: Ledger> Reading<'_, L> {
    /// The predeclared type to which a type comes down.
    fn basic_type<B: Basics>(&self, parts: &Parts<'_>, ty: u64, basics: &B) -> Option<Basic>
        requires ready { IsReadyFor parts.now self.now }
        ensures { result
            ≡ basic_type (B.meaning basics.now) (type_named parts.now.version (known parts.now self.now) ty) }
    {
        match TypeOff::new(ty) {
            TypeOff::Basic(code) => Some(basic_named(parts.version, code)),
            TypeOff::At(offset) => match self.known_at(parts, offset) {
                Some(Known::Remembered(finished)) => node_basic(self.arena, finished.node, basics),
                Some(Known::Read(place)) => {
                    let descriptor = &self.finished[place.index];
                    self.flat_basic(parts, &descriptor.flat, basics)
                }
                None => Some(Basic::Bool),
            },
        }
    }

    /// The same of the type that a descriptor spells. An instance comes down to what its base does.
    fn flat_basic<B: Basics>(&self, parts: &Parts<'_>, flat: &Flat, basics: &B) -> Option<Basic>
        requires ready { IsReadyFor parts.now self.now }
        ensures { result
            ≡ basic_type (B.meaning basics.now)
            (tree_of (retype (type_named parts.now.version (known parts.now self.now)) (flat_shape flat.now))) }
    {
        match flat {
            Flat::Instance(_, base, _) => self.base_basic(parts, *base, basics),
            flat => named_basic(flat, basics),
        }
    }

    /// The predeclared type to which the base of an instance comes down.
    fn base_basic<B: Basics>(&self, parts: &Parts<'_>, base: u64, basics: &B) -> Option<Basic>
        requires ready { IsReadyFor parts.now self.now }
        ensures { result
            ≡ generic_basic (B.meaning basics.now) (type_named parts.now.version (known parts.now self.now) base) }
    {
        match TypeOff::new(base) {
            TypeOff::Basic(_) => None,
            TypeOff::At(offset) => match self.known_at(parts, offset) {
                Some(Known::Remembered(finished)) => {
                    named_node_basic(self.arena.node(finished.node), basics)
                }
                Some(Known::Read(place)) => {
                    let descriptor = &self.finished[place.index];
                    named_basic(&descriptor.flat, basics)
                }
                None => None,
            },
        }
    }
}

/// The predeclared type to which a defined type or an alias comes down by its name.
fn named_basic<B: Basics>(flat: &Flat, basics: &B) -> Option<Basic>
    ensures { (types : ℕ → Tree)
        → result ≡ generic_basic (B.meaning basics.now) (tree_of (retype types (flat_shape flat.now))) }
{
    match flat {
        Flat::Defined(q) | Flat::Alias(q) => basic_of_name(q, basics),
        _ => None,
    }
}

/// The predeclared type to which the type of a node comes down. An instance comes down to what its base does.
fn node_basic<B: Basics>(arena: &Arena, id: NodeId, basics: &B) -> Option<Basic>
    requires there { id < length arena.now.nodes }
    ensures { result ≡ basic_type (B.meaning basics.now) (tree arena.now.nodes id) }
{
    match arena.node(id) {
        Node::Predeclared(basic) => Some(*basic),
        Node::Instance(base, _) => named_node_basic(arena.node(*base), basics),
        node => named_node_basic(node, basics),
    }
}

/// The predeclared type to which the defined type or the alias of a node comes down by its name.
fn named_node_basic<B: Basics>(node: &Node, basics: &B) -> Option<Basic>
    ensures { (types : ℕ → Tree)
        → result ≡ generic_basic (B.meaning basics.now) (tree_of (retype types (node_shape node.now))) }
{
    match node {
        Node::Named(q) | Node::AliasName(q) => basics.basic_of(
            q.path.as_slice(),
            q.name.as_slice(),
        ),
        _ => None,
    }
}

fn basic_of_name<B: Basics>(q: &SpelledName, basics: &B) -> Option<Basic>
    ensures { result ≡ B.meaning basics.now q.now.path.path q.now.name.text }
{
    basics.basic_of(q.path.path.as_slice(), q.name.text.as_slice())
}
