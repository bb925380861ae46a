//! The nodes of the types that numbers name.

ghost use Rattle.std.specs.Prelude.{◌≡◌, ◌<◌, [], ◌∷◌, length, IfOk, IfErr, IsErrOf};
ghost use Rattle.type_terms.specs.Additions.{AddsOnly, Outgrows};
ghost use Rattle.type_terms.specs.Arenas.{Extends};
ghost use Rattle.type_terms.specs.Denotation.{tree};
ghost use Rattle.type_terms.specs.Trees.{predeclared};
ghost use Rattle.decl_reader.specs.Faults.{IsNoFault};
ghost use Rattle.decl_reader.specs.Blocks.{AllInside};
ghost use Rattle.decl_reader.specs.Meant.{named_by};

use crate::fault::DeclFault;
use crate::nodes::kept::{Kept, all_with_nodes};
use crate::table::Table;
use crate::type_off::TypeOff;
use block_reader::{Embedded, basic_named};
use code_tables::Basic;
use std::alloc::Global;
use type_terms::{Arena, Node, NodeId, Nodes};

/// The node of the type that a number names. A number that names none gives some type, as the definition does; those of
/// a declaration that is read name one.
fn node_named(
    version: u8,
    number: u64,
    table: &Table,
    arena: &mut Arena,
) -> Result<NodeId, DeclFault>
    requires inside { AllInside (length arena.old.nodes) table.now }
    ensures named { IfOk result (λ id. tree arena.new.nodes id ≡ named_by version arena.old.nodes table.now number) }
    ensures within { IfOk result (λ id. id < length arena.new.nodes) }
    ensures extends { Extends arena.old arena.new }
    ensures only_memory { IfErr result IsNoFault }
    ensures adds { AddsOnly (named_by version arena.old.nodes table.now number ∷ []) arena.old arena.new }
    ensures outgrown { IsErrOf result DeclFault.Nodes
        → Outgrows arena.old (named_by version arena.old.nodes table.now number ∷ []) }
    ensures full { IsErrOf result DeclFault.Nodes → length arena.new.nodes ≡ arena.new.limit }
{
    match TypeOff::new(number) {
        TypeOff::Basic(code) => predeclared_node(basic_named(version, code), arena),
        TypeOff::At(offset) => match table.at(offset) {
            Some(finished) => Ok(finished.node),
            None => predeclared_node(Basic::Bool, arena),
        },
    }
}

/// The node of a predeclared type.
fn predeclared_node(basic: Basic, arena: &mut Arena) -> Result<NodeId, DeclFault>
    ensures denotes { IfOk result (λ id. tree arena.new.nodes id ≡ predeclared basic) }
    ensures within { IfOk result (λ id. id < length arena.new.nodes) }
    ensures extends { Extends arena.old arena.new }
    ensures only_memory { IfErr result IsNoFault }
    ensures adds { AddsOnly (predeclared basic ∷ []) arena.old arena.new }
    ensures outgrown { IsErrOf result DeclFault.Nodes → Outgrows arena.old (predeclared basic ∷ []) }
    ensures full { IsErrOf result DeclFault.Nodes → length arena.new.nodes ≡ arena.new.limit }
{
    Ok(arena.add(Node::Predeclared(basic))?)
}

/// The number of a type.
impl Kept for u64 {
    ghost use Rattle.std.specs.Prelude.{ℕ, [], ◌∷◌};
    ghost use Rattle.type_terms.specs.Trees.{Tree};
    ghost use Rattle.decl_reader.specs.Meant.{number_agrees};

    type Item = NodeId;

    ghost Shape = { ℕ };

    ghost shape = { λ number. number };

    ghost item_shape = { λ id. id };

    ghost types = { λ number. number ∷ [] };

    ghost Meaning = { Tree };

    ghost meant = { λ named number. named number };

    ghost agrees = { number_agrees };

    fn with_nodes(
        self,
        _alloc: Global,
        version: u8,
        table: &Table,
        arena: &mut Arena,
    ) -> Result<NodeId, DeclFault> {
        node_named(version, self, table, arena)
    }
}

/// The numbers of some types.
#[derive(Drop)]
pub(crate) struct Numbers {
    pub(crate) items: Vec<u64>,
}

impl Kept for Numbers {
    ghost use Rattle.std.specs.Prelude.{ℕ, List, map};
    ghost use Rattle.type_terms.specs.Trees.{Tree};
    ghost use Rattle.decl_reader.specs.Meant.{list_meant, numbers_agree};

    type Item = Nodes;

    ghost Shape = { List ℕ };

    ghost shape = { λ numbers. numbers.items.items };

    ghost item_shape = { λ ids. ids };

    ghost types = { λ numbers. numbers };

    ghost Meaning = { List Tree };

    ghost meant = { λ named numbers. map named numbers };

    ghost agrees = { numbers_agree };

    fn with_nodes(
        self,
        alloc: Global,
        version: u8,
        table: &Table,
        arena: &mut Arena,
    ) -> Result<Nodes, DeclFault> {
        let ids = all_with_nodes(alloc, self.items, version, table, arena)?;
        Ok(Nodes::from_items(ids))
    }
}

/// The type of an embedded element, without its position.
impl Kept for Embedded {
    ghost use Rattle.std.specs.Prelude.{ℕ, [], ◌∷◌};
    ghost use Rattle.type_terms.specs.Trees.{Tree};
    ghost use Rattle.decl_reader.specs.Shapes.{element_type};
    ghost use Rattle.decl_reader.specs.Meant.{number_agrees};

    type Item = NodeId;

    ghost Shape = { ℕ };

    ghost shape = { element_type };

    ghost item_shape = { λ id. id };

    ghost types = { λ number. number ∷ [] };

    ghost Meaning = { Tree };

    ghost meant = { λ named number. named number };

    ghost agrees = { number_agrees };

    fn with_nodes(
        self,
        _alloc: Global,
        version: u8,
        table: &Table,
        arena: &mut Arena,
    ) -> Result<NodeId, DeclFault> {
        node_named(version, self.ty, table, arena)
    }
}

/// The types that are embedded in an interface.
#[derive(Drop)]
pub(crate) struct Elements {
    pub(crate) items: Vec<Embedded>,
}

impl Kept for Elements {
    ghost use Rattle.std.specs.Prelude.{ℕ, List, map};
    ghost use Rattle.type_terms.specs.Trees.{Tree};
    ghost use Rattle.decl_reader.specs.Shapes.{element_type};
    ghost use Rattle.decl_reader.specs.Meant.{numbers_agree};

    type Item = Nodes;

    ghost Shape = { List ℕ };

    ghost shape = { λ elements. map element_type elements.items.items };

    ghost item_shape = { λ ids. ids };

    ghost types = { λ numbers. numbers };

    ghost Meaning = { List Tree };

    ghost meant = { λ named numbers. map named numbers };

    ghost agrees = { numbers_agree };

    fn with_nodes(
        self,
        alloc: Global,
        version: u8,
        table: &Table,
        arena: &mut Arena,
    ) -> Result<Nodes, DeclFault> {
        let ids = all_with_nodes(alloc, self.items, version, table, arena)?;
        Ok(Nodes::from_items(ids))
    }
}
