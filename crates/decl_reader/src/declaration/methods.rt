//! The methods of a defined type.

ghost use Rattle.std.specs.Prelude.{◌≡◌, ◌≤◌, ℕ, map};
ghost use Rattle.file_parts.specs.FileParts.{IsOfFile};
ghost use Rattle.type_terms.specs.NodeShapes.{node_shape};
ghost use Rattle.type_terms.specs.Shapes.{retype};
ghost use Rattle.type_terms.specs.Trees.{Tree, tree_of};
ghost use Rattle.decl_spelling.specs.Reading.{list_at};
ghost use Rattle.decl_spelling.specs.Tables.{type_named};
ghost use Rattle.decl_spelling.specs.Declarations.{has_methods, receiver_at, resolved};
ghost use Rattle.block_reader.specs.Calls.{sections_of, ahead_of};
ghost use Rattle.block_reader.specs.Parts.{receiver_spelled};
ghost use Rattle.decl_reader.specs.Progress.{known, IsReadyFor, GoesOn};
ghost use Rattle.decl_reader.specs.Shapes.{flat_shape};
ghost use Rattle.decl_reader.specs.Wholes.{IsPart, methods_by};

use crate::reading::{Known, Reading};
use crate::type_off::TypeOff;
use block_reader::{Block, Flat, ReceiverParts, basic_named, read_receivers};
use code_tables::Basic;
use file_parts::Parts;
use std::sync::ledger::Ledger;
use type_terms::Node;
use wire_bytes::ReadFault;

impl<L: Ledger> Reading<'_, L> {
    /// The methods of a defined type with this underlying type, and the types that they name.
    pub(crate) fn read_methods(
        &mut self,
        parts: &Parts<'_>,
        offset: u64,
        underlying: u64,
        block: &mut Block<'_>,
    ) -> Result<Vec<ReceiverParts>, ReadFault>
        requires of_file { IsOfFile parts.now }
        requires ready { IsReadyFor parts.now self.old }
        requires within { offset ≤ parts.now.body_len }
        ensures exact { IsPart (λ v. map receiver_spelled v.items) result (ahead_of block.new)
            (known parts.now self.new)
            (methods_by (sections_of parts.now) offset (ahead_of block.old) (known parts.now self.old)
            (has_methods (type_named parts.now.version (known parts.now self.old) underlying))) }
        ensures goes_on { GoesOn parts.now self.old self.new }
    {
        if self.may_have_methods(parts, underlying) {
            self.read_receiver_types(parts, offset, block)
        } else {
            Ok(Vec::new(self.alloc))
        }
    }

    /// A list of methods, and the types that they name.
    fn read_receiver_types(
        &mut self,
        parts: &Parts<'_>,
        offset: u64,
        block: &mut Block<'_>,
    ) -> Result<Vec<ReceiverParts>, ReadFault>
        requires of_file { IsOfFile parts.now }
        requires ready { IsReadyFor parts.now self.old }
        requires within { offset ≤ parts.now.body_len }
        ensures exact { IsPart (λ v. map receiver_spelled v.items) result (ahead_of block.new)
            (known parts.now self.new)
            (resolved (sections_of parts.now) offset
            (list_at (receiver_at (sections_of parts.now)) (ahead_of block.old)) (known parts.now self.old)) }
        ensures goes_on { GoesOn parts.now self.old self.new }
    {
        match read_receivers(self.alloc, parts, block) {
            Ok(receivers) => {
                self.know_types(parts, offset, block)?;
                Ok(receivers)
            }
            Err(ReadFault::Bytes(fault)) => {
                // A fault of the types that stand before it comes first.
                self.know_types(parts, offset, block)?;
                Err(ReadFault::Bytes(fault))
            }
            Err(ReadFault::OutOfMemory) => Err(ReadFault::OutOfMemory),
        }
    }

    /// Whether a defined type with this underlying type may have methods: any and interfaces have none but their own.
    fn may_have_methods(&self, parts: &Parts<'_>, underlying: u64) -> bool
        requires ready { IsReadyFor parts.now self.now }
        ensures { result ≡ has_methods (type_named parts.now.version (known parts.now self.now) underlying) }
    {
        match TypeOff::new(underlying) {
            TypeOff::Basic(code) => basic_named(parts.version, code) != Basic::Any,
            TypeOff::At(offset) => match self.known_at(parts, offset) {
                Some(Known::Remembered(finished)) => {
                    node_has_methods(self.arena.node(finished.node))
                }
                Some(Known::Read(place)) => {
                    let descriptor = &self.finished[place.index];
                    flat_has_methods(&descriptor.flat)
                }
                None => true,
            },
        }
    }
}

/// The same of the type that a descriptor spells, whatever stands in it.
fn flat_has_methods(flat: &Flat) -> bool
    ensures { (types : ℕ → Tree) → result ≡ has_methods (tree_of (retype types (flat_shape flat.now))) }
{
    !matches!(flat, Flat::Interface(_, _, _))
}

/// The same of the type of a node.
fn node_has_methods(node: &Node) -> bool
    ensures { (types : ℕ → Tree) → result ≡ has_methods (tree_of (retype types (node_shape node.now))) }
{
    !matches!(node, Node::Iface(_, _, _) | Node::Predeclared(Basic::Any))
}
