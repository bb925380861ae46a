ghost use Rattle.std.specs.Prelude.{◌≡◌, ◌<◌, false, OnOk, IfOk, None, nat_eq, length};
ghost use Rattle.std.specs.Map.{lookup};
ghost use Rattle.type_terms.specs.Denotation.{tree};
ghost use Rattle.decl_text.specs.Numbers.{no_numbers, is_settled, line_of, finish};
ghost use Rattle.decl_text.specs.NodeNumbers.{numbered_at, is_name};
ghost use Rattle.decl_text.specs.Numbering.{numbers_at, StandsIn};

use crate::references::References;
use crate::types::put_type;
use go_values::Bytes;
use indexmap::{IndexMap, IndexSet};
use std::alloc::{AllocError, Global};
use type_terms::{Arena, Node, NodeId};

/// The most numbers whose memory is kept for the next.
const KEPT: usize = 1_000;

/// The numbers that types were given, and the lines in the order of their numbers. Types are nodes of one arena, to
/// which each call is given it.
#[derive(Drop)]
pub struct Numbering {
    pub numbers: IndexMap<NodeId, usize>,
    pub lines: IndexSet<Bytes>,
}

/// Whether a type goes by its name.
fn goes_by_name(node: &Node) -> bool
    ensures { result ≡ is_name node.now }
{
    matches!(
        node,
        Node::Predeclared(_) | Node::Named(_) | Node::Param(_) | Node::AliasName(_)
    )
}

impl Numbering {
    /// No numbers. Takes no memory.
    pub fn new(alloc: Global) -> Numbering
        ensures none { (nodes : _) → numbers_at nodes result ≡ no_numbers }
        ensures there { (nodes : _) → StandsIn nodes result }
    {
        Numbering {
            numbers: IndexMap::new(alloc),
            lines: IndexSet::new(alloc),
        }
    }

    /// Forgets all numbers. It keeps the memory for a few, so that it takes no longer than giving them took.
    pub fn clear(&mut self, alloc: Global)
        ensures none { (nodes : _) → numbers_at nodes self.new ≡ no_numbers }
        ensures there { (nodes : _) → StandsIn nodes self.new }
    {
        if self.numbers.len() > KEPT {
            *self = Numbering::new(alloc);
            return;
        }
        self.numbers.clear();
        self.lines.clear();
    }

    /// Whether a type goes by its name or has a number.
    pub fn is_settled(&self, arena: &Arena, id: NodeId) -> bool
        requires there { id < length arena.now.nodes }
        requires stands { StandsIn arena.now.nodes self.now }
        ensures settled { result
            ≡ is_settled (numbered_at arena.now.nodes self.now.numbers.entries) (tree arena.now.nodes id) }
        ensures missing { result ≡ false → lookup (nat_eq id) self.now.numbers.entries ≡ None }
    {
        let has_name = goes_by_name(arena.node(id));
        let has_number = self.numbers.contains_key(&id);
        has_name || has_number
    }

    /// Finishes a type, whose parts have been finished: it gets the number of its line, which is made in the room.
    pub fn finish(
        &mut self,
        alloc: Global,
        arena: &Arena,
        id: NodeId,
        room: &mut Vec<u8>,
    ) -> Result<(), AllocError>
        requires there { id < length arena.now.nodes }
        requires stands { StandsIn arena.now.nodes self.old }
        ensures numbers { OnOk result (numbers_at arena.now.nodes self.new
            ≡ finish (numbers_at arena.now.nodes self.old) (tree arena.now.nodes id)) }
        ensures stands { OnOk result (StandsIn arena.now.nodes self.new) }
    {
        if self.is_settled(arena, id) {
            return Ok(());
        }
        let line = self.line_of(alloc, arena, id, room)?;
        let (number, _) = self.lines.insert_full(line)?;
        self.numbers.insert(id, number)?;
        Ok(())
    }

    /// The line of a type, whose parts have been finished.
    fn line_of(
        &self,
        alloc: Global,
        arena: &Arena,
        id: NodeId,
        room: &mut Vec<u8>,
    ) -> Result<Bytes, AllocError>
        requires there { id < length arena.now.nodes }
        requires stands { StandsIn arena.now.nodes self.now }
        ensures { IfOk result (λ line.
            line ≡ line_of (numbered_at arena.now.nodes self.now.numbers.entries) (tree arena.now.nodes id)) }
    {
        let names = References {
            arena,
            numbers: &self.numbers,
        };
        room.clear();
        put_type(room, arena.node(id), &names)?;
        Ok(Bytes::from_slice(alloc, room.as_slice())?)
    }
}
