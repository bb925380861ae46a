//! The node of a descriptor.

ghost use Rattle.std.specs.Prelude.{◌≡◌, ◌<◌, [], ◌∷◌, length, IfOk, IfErr, IsErrOf, OnOk};
ghost use Rattle.type_terms.specs.Additions.{AddsOnly, Outgrows};
ghost use Rattle.type_terms.specs.Arenas.{Extends};
ghost use Rattle.type_terms.specs.Denotation.{tree};
ghost use Rattle.type_terms.specs.Shapes.{retype};
ghost use Rattle.type_terms.specs.Trees.{tree_of};
ghost use Rattle.decl_spelling.specs.Tables.{type_named};
ghost use Rattle.decl_reader.specs.Faults.{IsNoFault};
ghost use Rattle.decl_reader.specs.Blocks.{AllInside, table_of};
ghost use Rattle.decl_reader.specs.Finished.{type_of, joined, known_after, types_after, MayJoin, AreInTurn};
ghost use Rattle.decl_reader.specs.Meant.{IsGenericFlat};
ghost use Rattle.decl_reader.specs.Shapes.{flat_shape};

use crate::fault::DeclFault;
use crate::finished::Descriptor;
use crate::nodes::kept::Kept;
use crate::nodes::numbers::{Elements, Numbers};
use crate::table::{Finished, Table};
use block_reader::{Flat, SpelledName};
use go_values::QName;
use std::alloc::Global;
use type_terms::{Arena, Node, NodeId};

/// The node of the type that a descriptor spells, with the types that its numbers name. An instance has the name of a
/// generic type, and an argument.
fn add_flat(
    alloc: Global,
    version: u8,
    flat: Flat,
    table: &Table,
    arena: &mut Arena,
) -> Result<NodeId, DeclFault>
    requires inside { AllInside (length arena.old.nodes) table.now }
    requires generic { IsGenericFlat version (table_of arena.old.nodes table.now) (flat_shape flat) }
    ensures denotes { IfOk result
        (λ id. tree arena.new.nodes id
        ≡ tree_of (retype (type_named version (table_of arena.old.nodes table.now)) (flat_shape flat))) }
    ensures within { IfOk result (λ id. id < length arena.new.nodes) }
    ensures extends { Extends arena.old arena.new }
    ensures only_memory { IfErr result IsNoFault }
    ensures adds { AddsOnly
        (tree_of (retype (type_named version (table_of arena.old.nodes table.now)) (flat_shape flat)) ∷ [])
        arena.old arena.new }
    ensures outgrown { IsErrOf result DeclFault.Nodes → Outgrows arena.old
        (tree_of (retype (type_named version (table_of arena.old.nodes table.now)) (flat_shape flat)) ∷ []) }
    ensures full { IsErrOf result DeclFault.Nodes → length arena.new.nodes ≡ arena.new.limit }
{
    let node = flat.with_nodes(alloc, version, table, arena)?;
    Ok(arena.add(node)?)
}

/// The nodes of descriptors, each behind those that it names, join those of the table.
pub(crate) fn add_descriptors(
    alloc: Global,
    version: u8,
    finished: Vec<Descriptor>,
    table: &mut Table,
    arena: &mut Arena,
) -> Result<(), DeclFault>
    requires inside { AllInside (length arena.old.nodes) table.old }
    requires turn { AreInTurn version (table_of arena.old.nodes table.old) finished.items }
    ensures denotes { OnOk result (table_of arena.new.nodes table.new
        ≡ known_after version (table_of arena.old.nodes table.old) finished.items) }
    ensures inside { OnOk result (AllInside (length arena.new.nodes) table.new) }
    ensures extends { Extends arena.old arena.new }
    ensures only_memory { IfErr result IsNoFault }
    ensures adds { AddsOnly (types_after version (table_of arena.old.nodes table.old) finished.items)
        arena.old arena.new }
    ensures outgrown { IsErrOf result DeclFault.Nodes
        → Outgrows arena.old (types_after version (table_of arena.old.nodes table.old) finished.items) }
    ensures full { IsErrOf result DeclFault.Nodes → length arena.new.nodes ≡ arena.new.limit }
{
    for descriptor in finished {
        add_descriptor(alloc, version, descriptor, table, arena)?;
    }
    Ok(())
}

/// The node of a descriptor behind those that it names.
fn add_descriptor(
    alloc: Global,
    version: u8,
    descriptor: Descriptor,
    table: &mut Table,
    arena: &mut Arena,
) -> Result<(), DeclFault>
    requires inside { AllInside (length arena.old.nodes) table.old }
    requires may { MayJoin version (table_of arena.old.nodes table.old) descriptor }
    ensures denotes { OnOk result
        (table_of arena.new.nodes table.new ≡ joined version (table_of arena.old.nodes table.old) descriptor) }
    ensures inside { OnOk result (AllInside (length arena.new.nodes) table.new) }
    ensures extends { Extends arena.old arena.new }
    ensures only_memory { IfErr result IsNoFault }
    ensures adds { AddsOnly (type_of version (table_of arena.old.nodes table.old) descriptor ∷ []) arena.old arena.new }
    ensures outgrown { IsErrOf result DeclFault.Nodes
        → Outgrows arena.old (type_of version (table_of arena.old.nodes table.old) descriptor ∷ []) }
    ensures full { IsErrOf result DeclFault.Nodes → length arena.new.nodes ≡ arena.new.limit }
{
    let Descriptor { start, end, flat } = descriptor;
    let node = add_flat(alloc, version, flat, table, arena)?;
    table.insert(start, Finished { end, node })?;
    Ok(())
}

/// The name without the offsets of its texts.
fn qualified(name: SpelledName) -> QName
    ensures { result ≡ record { path = name.path.path; name = name.name.text } }
{
    QName {
        path: name.path.path,
        name: name.name.text,
    }
}

impl Kept for Flat {
    ghost use Rattle.std.specs.Prelude.{ℕ};
    ghost use Rattle.go_values.specs.declared.positions.Pos.{Pos};
    ghost use Rattle.type_terms.specs.NodeShapes.{node_shape};
    ghost use Rattle.type_terms.specs.Shapes.{Shape as ShapeOf, shape_types};
    ghost use Rattle.type_terms.specs.Trees.{Text, Level};
    ghost use Rattle.decl_reader.specs.Shapes.{flat_shape};
    ghost use Rattle.decl_reader.specs.Meant.{level_meant, level_agrees};

    type Item = Node;

    ghost Shape = { ShapeOf Pos Text Text ℕ };

    ghost shape = { flat_shape };

    ghost item_shape = { node_shape };

    ghost types = { shape_types };

    ghost Meaning = { Level };

    ghost meant = { level_meant };

    ghost agrees = { level_agrees };

    fn with_nodes(
        self,
        alloc: Global,
        version: u8,
        table: &Table,
        arena: &mut Arena,
    ) -> Result<Node, DeclFault> {
        match self {
            Flat::Defined(name) => Ok(Node::Named(qualified(name))),
            Flat::TypeParameter(name) => Ok(Node::Param(qualified(name))),
            Flat::Alias(name) => Ok(Node::AliasName(qualified(name))),
            Flat::Pointer(ty) => Ok(Node::Pointer(ty.with_nodes(alloc, version, table, arena)?)),
            Flat::Slice(ty) => Ok(Node::Slice(ty.with_nodes(alloc, version, table, arena)?)),
            Flat::Array(size, ty) => {
                let ty = ty.with_nodes(alloc, version, table, arena)?;
                Ok(Node::Array(size, ty))
            }
            Flat::Chan(dir, ty) => {
                let ty = ty.with_nodes(alloc, version, table, arena)?;
                Ok(Node::Chan(dir, ty))
            }
            Flat::Map(key, ty) => {
                let (key, ty) = (key, ty).with_nodes(alloc, version, table, arena)?;
                Ok(Node::MapOf(key, ty))
            }
            Flat::Func(home, signature) => {
                let sig = signature.with_nodes(alloc, version, table, arena)?;
                Ok(Node::FuncOf(home.path, sig))
            }
            Flat::Struct(home, fields) => {
                let fields = fields.with_nodes(alloc, version, table, arena)?;
                Ok(Node::StructOf(home.path, fields))
            }
            Flat::Interface(home, embedded, methods) => {
                let parts = (Elements { items: embedded }, methods);
                let (embedded, methods) = parts.with_nodes(alloc, version, table, arena)?;
                Ok(Node::Iface(home.path, embedded, methods))
            }
            Flat::Instance(_pos, base, arguments) => {
                let parts = (Numbers { items: arguments }, base);
                let (arguments, base) = parts.with_nodes(alloc, version, table, arena)?;
                Ok(Node::Instance(base, arguments))
            }
            Flat::Union(terms) => {
                let terms = terms.with_nodes(alloc, version, table, arena)?;
                Ok(Node::Union(terms))
            }
        }
    }
}
