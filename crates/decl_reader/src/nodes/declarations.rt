//! Declarations with types as nodes.

ghost use Rattle.std.specs.Prelude.{◌≡◌, length, IfOk, IfErr, IsErrOf, OnOk};
ghost use Rattle.type_terms.specs.Additions.{AddsOnly, Outgrows};
ghost use Rattle.type_terms.specs.Arenas.{AllBelow, Extends};
ghost use Rattle.type_terms.specs.Declarations.{decl_nodes, decl_of, form_types};
ghost use Rattle.decl_reader.specs.Faults.{IsNoFault};
ghost use Rattle.decl_reader.specs.Blocks.{table_of, AllInside};
ghost use Rattle.decl_reader.specs.Finished.{known_after, AreInTurn};
ghost use Rattle.decl_reader.specs.Meant.{decl_by, decl_named};
ghost use Rattle.decl_reader.specs.Wholes.{types_reached};

use crate::fault::DeclFault;
use crate::finished::Spelled;
use crate::nodes::descriptors::add_descriptors;
use crate::nodes::kept::Kept;
use crate::nodes::numbers::Numbers;
use crate::table::Table;
use block_reader::{DeclParts, SpelledConst, SpelledPos};
use std::alloc::Global;
use type_terms::{Arena, DeclNode, MethodList, NodeId, Nodes, Sig};

/// The declaration with the types that its numbers name.
fn add_declaration(
    alloc: Global,
    version: u8,
    parts: DeclParts,
    table: &Table,
    arena: &mut Arena,
) -> Result<DeclNode, DeclFault>
    requires inside { AllInside (length arena.old.nodes) table.now }
    ensures denotes { IfOk result
        (λ node. decl_of arena.new.nodes node ≡ decl_named version arena.old.nodes table.now parts) }
    ensures within { IfOk result (λ node. AllBelow (length arena.new.nodes) (decl_nodes node)) }
    ensures extends { Extends arena.old arena.new }
    ensures only_memory { IfErr result IsNoFault }
    ensures adds { AddsOnly (form_types (decl_named version arena.old.nodes table.now parts)) arena.old arena.new }
    ensures outgrown { IsErrOf result DeclFault.Nodes → Outgrows arena.old
        (form_types (decl_named version arena.old.nodes table.now parts)) }
    ensures full { IsErrOf result DeclFault.Nodes → length arena.new.nodes ≡ arena.new.limit }
{
    parts.with_nodes(alloc, version, table, arena)
}

/// The declaration and what it reaches, with types as nodes. The table gets the descriptors that were read.
pub(crate) fn add_spelled(
    alloc: Global,
    version: u8,
    spelled: Spelled,
    table: &mut Table,
    arena: &mut Arena,
) -> Result<DeclNode, DeclFault>
    requires inside { AllInside (length arena.old.nodes) table.old }
    requires turn { AreInTurn version (table_of arena.old.nodes table.old) spelled.finished.items }
    ensures denotes { IfOk result (λ node. decl_of arena.new.nodes node
        ≡ decl_by version (known_after version (table_of arena.old.nodes table.old) spelled.finished.items)
        spelled.decl) }
    ensures table { OnOk result (table_of arena.new.nodes table.new
        ≡ known_after version (table_of arena.old.nodes table.old) spelled.finished.items) }
    ensures inside { OnOk result (AllInside (length arena.new.nodes) table.new) }
    ensures within { IfOk result (λ node. AllBelow (length arena.new.nodes) (decl_nodes node)) }
    ensures extends { Extends arena.old arena.new }
    ensures only_memory { IfErr result IsNoFault }
    ensures adds { AddsOnly (types_reached version (table_of arena.old.nodes table.old) spelled)
        arena.old arena.new }
    ensures outgrown { IsErrOf result DeclFault.Nodes
        → Outgrows arena.old (types_reached version (table_of arena.old.nodes table.old) spelled) }
    ensures full { IsErrOf result DeclFault.Nodes → length arena.new.nodes ≡ arena.new.limit }
{
    let Spelled { decl, finished } = spelled;
    add_descriptors(alloc, version, finished, table, arena)?;
    add_declaration(alloc, version, decl, table, arena)
}

impl Kept for DeclParts {
    ghost use Rattle.std.specs.Prelude.{ℕ};
    ghost use Rattle.go_values.specs.declared.positions.Pos.{Pos};
    ghost use Rattle.type_terms.specs.Declarations.{Form, Decl, form_types, decl_form as node_form};
    ghost use Rattle.type_terms.specs.Trees.{Text};
    ghost use Rattle.decl_reader.specs.Forms.{decl_form};
    ghost use Rattle.decl_reader.specs.Meant.{decl_meant, decl_agrees};

    type Item = DeclNode;

    ghost Shape = { Form Pos Text ℕ };

    ghost shape = { decl_form };

    ghost item_shape = { node_form };

    ghost types = { form_types };

    ghost Meaning = { Decl };

    ghost meant = { decl_meant };

    ghost agrees = { decl_agrees };

    fn with_nodes(
        self,
        alloc: Global,
        version: u8,
        table: &Table,
        arena: &mut Arena,
    ) -> Result<DeclNode, DeclFault> {
        match self {
            DeclParts::Var { pos, ty } => {
                let ty = ty.with_nodes(alloc, version, table, arena)?;
                Ok(DeclNode::Var { pos: pos.pos, ty })
            }
            DeclParts::Constant { pos, ty, value } => {
                let ty = ty.with_nodes(alloc, version, table, arena)?;
                Ok(constant_node(pos, ty, value))
            }
            DeclParts::Func {
                pos,
                tparams,
                signature,
            } => {
                let types = (Numbers { items: tparams }, signature);
                Ok(func_node(pos, types.with_nodes(alloc, version, table, arena)?))
            }
            DeclParts::Defined {
                pos,
                tparams,
                underlying,
                methods,
            } => {
                let types = (Numbers { items: tparams }, (underlying, methods));
                Ok(defined_node(pos, types.with_nodes(alloc, version, table, arena)?))
            }
            DeclParts::Alias { pos, tparams, ty } => {
                let types = (Numbers { items: tparams }, ty);
                Ok(alias_node(pos, types.with_nodes(alloc, version, table, arena)?))
            }
            DeclParts::Parameter {
                pos,
                implicit,
                constraint,
            } => {
                let constraint = constraint.with_nodes(alloc, version, table, arena)?;
                Ok(parameter_node(pos, implicit, constraint))
            }
        }
    }
}

fn constant_node(pos: SpelledPos, ty: NodeId, value: SpelledConst) -> DeclNode
    ensures { result ≡ DeclNode.Constant pos.pos ty value.value }
{
    DeclNode::Constant {
        pos: pos.pos,
        ty,
        value: value.value,
    }
}

/// A function, by its type parameters and its signature.
fn func_node(pos: SpelledPos, types: (Nodes, Sig)) -> DeclNode
    ensures { result ≡ DeclNode.Func pos.pos types.0 types.1 }
{
    let (tparams, sig) = types;
    DeclNode::Func {
        pos: pos.pos,
        tparams,
        sig,
    }
}

/// A defined type, by its type parameters, its underlying type and its methods.
fn defined_node(pos: SpelledPos, types: (Nodes, (NodeId, MethodList))) -> DeclNode
    ensures { result ≡ DeclNode.Defined pos.pos types.0 types.1.0 types.1.1 }
{
    let (tparams, (underlying, methods)) = types;
    DeclNode::Defined {
        pos: pos.pos,
        tparams,
        underlying,
        methods,
    }
}

/// An alias, by its type parameters and the type that it stands for.
fn alias_node(pos: SpelledPos, types: (Nodes, NodeId)) -> DeclNode
    ensures { result ≡ DeclNode.Alias pos.pos types.0 types.1 }
{
    let (tparams, ty) = types;
    DeclNode::Alias {
        pos: pos.pos,
        tparams,
        ty,
    }
}

fn parameter_node(pos: SpelledPos, implicit: bool, constraint: NodeId) -> DeclNode
    ensures { result ≡ DeclNode.Parameter pos.pos implicit constraint }
{
    DeclNode::Parameter {
        pos: pos.pos,
        implicit,
        constraint,
    }
}
