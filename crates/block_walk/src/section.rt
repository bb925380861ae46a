//! What was written so far.

ghost use Rattle.std.specs.Prelude.{◌≡◌, [], ◌++◌, List, false, slice_index_or, OnOk};
ghost use Rattle.type_terms.specs.declared.descriptors.Node.{Node};
ghost use Rattle.block_walk.specs.Going.{Out, nothing_out};
ghost use Rattle.block_walk.specs.Standing.{HasRoom, Stands};

use decl_spelling::FIRST_DESCRIPTOR;
use go_values::{Bytes, QName};
use indexmap::IndexSet;
use std::alloc::{AllocError, Global};
use type_terms::{Arena, NodeId};
use wire_bytes::{Strings, Writer};

/// The data section as it is written, with what is mentioned in it.
#[derive(Drop)]
pub struct Section {
    /// Its bytes.
    pub body: Writer,
    /// The texts that are mentioned, each once.
    pub strings: Strings,
    /// The paths of packages that are mentioned, likewise.
    pub paths: IndexSet<Bytes>,
    /// The names of the types that have a descriptor, likewise.
    pub names: IndexSet<QName>,
    /// The number of each node: of a predeclared type its code, and else where its descriptor is placed.
    pub numbers: Vec<u64>,
    /// Which nodes have a descriptor.
    pub placed: Vec<bool>,
}

impl Section {
    /// Nothing. Takes no memory.
    pub fn new(alloc: Global) -> Section
        ensures body { result.body ≡ [] }
        ensures strings { result.strings ≡ [] }
        ensures paths { result.paths.keys ≡ [] }
        ensures names { result.names.keys ≡ [] }
        ensures numbers { result.numbers.items ≡ [] }
        ensures placed { result.placed.items ≡ [] }
        ensures stands { Stands [] result nothing_out }
        ensures room { HasRoom [] result }
    {
        Section {
            body: Writer::new(alloc),
            strings: Strings::new(alloc),
            paths: IndexSet::new(alloc),
            names: IndexSet::new(alloc),
            numbers: Vec::new(alloc),
            placed: Vec::new(alloc),
        }
    }

    /// Gives each node of what is written a number and a mark, where nodes came since. All else stays.
    pub fn make_room(&mut self, nodes: &Arena) -> Result<(), AllocError>
        ensures room { OnOk result (HasRoom nodes.now.nodes self.new) }
        ensures stands { OnOk result ((old more : List Node) (out : Out) → nodes.now.nodes ≡ old ++ more
            → HasRoom old self.old → Stands old self.old out → Stands nodes.now.nodes self.new out) }
    {
        let count = nodes.len() as usize;
        self.numbers.resize(count, FIRST_DESCRIPTOR)?;
        self.placed.resize(count, false)
    }
}

/// Whether a node has a descriptor. Takes no memory.
pub(crate) fn is_placed(placed: &[bool], id: NodeId) -> bool
    ensures { result ≡ slice_index_or placed.now id false }
{
    match placed.get(id.number() as usize) {
        Some(placed) => *placed,
        None => false,
    }
}
