ghost use Rattle.std.specs.Prelude.{◌≡◌, ◌<◌, ◌++◌, OnOk};
ghost use Rattle.std.specs.Option.{unwrap_or};
ghost use Rattle.type_terms.specs.Arenas.{IsArena};
ghost use Rattle.type_terms.specs.Denotation.{tree};
ghost use Rattle.decl_text.specs.Numbers.{number_of};
ghost use Rattle.decl_text.specs.NodeNumbers.{numbered_at};
ghost use Rattle.decl_text.specs.Referring.{refer, node_count};

use crate::references::References;
use crate::words::{basic_name, put_decimal, put_qualified};
use std::alloc::AllocError;
use type_terms::{Node, NodeId};

impl References<'_> {
    /// The number of a type. Each type is given one before it is referred to.
    fn number(&self, id: NodeId) -> usize
        requires there { id < node_count self.now }
        requires arena { IsArena self.now.arena.now.nodes }
        ensures { result
            ≡ unwrap_or (number_of (numbered_at self.now.arena.now.nodes self.now.numbers.now.entries)
            (tree self.now.arena.now.nodes id)) 0 }
    {
        match self.numbers.get(&id) {
            Some(number) => *number,
            None => 0,
        }
    }
}

/// Adds a reference to a type.
pub fn put_reference(
    line: &mut Vec<u8>,
    id: NodeId,
    names: &References<'_>,
) -> Result<(), AllocError>
    requires { id < node_count names.now }
    ensures { OnOk result (line.new.items ≡ line.old.items ++ refer names.now id) }
{
    match names.arena.node(id) {
        Node::Predeclared(basic) => line.extend_from_slice(basic_name(*basic)),
        Node::Named(q) | Node::Param(q) | Node::AliasName(q) => put_qualified(line, q),
        _ => {
            line.extend_from_slice(b"#")?;
            put_decimal(line, names.number(id) as u64)
        }
    }
}
