ghost use Rattle.std.specs.Prelude.{◌≡◌, ◌<◌, ◌++◌, ◌∷◌, [], ℕ, List, map, codes, if◌then◌else◌, OnOk};
ghost use Rattle.std.specs.List.{flat_map};
ghost use Rattle.type_terms.specs.Arenas.{AllBelow};
ghost use Rattle.type_terms.specs.Declarations.{decl_nodes};
ghost use Rattle.type_terms.specs.NodeShapes.{sig_shape};
ghost use Rattle.type_terms.specs.Shapes.{sig_types};
ghost use Rattle.decl_text.specs.DeclText.{value_text, tparams_text, form_pos, form_text, form_methods, method_line};
ghost use Rattle.decl_text.specs.DeclText.{first_line};
ghost use Rattle.decl_text.specs.PieceText.{sig_line, described_decl};
ghost use Rattle.decl_text.specs.Referring.{refer, node_count};

use crate::escapes::put_printed;
use crate::methods::put_methods;
use crate::naming::put_reference;
use crate::references::References;
use crate::signatures::put_sig;
use crate::types::{put_bracketed, put_prefixed};
use crate::words::{put_mark, put_position, put_value};
use go_values::{Const, Pos, QName};
use std::alloc::AllocError;
use type_terms::{DeclNode, NodeId, Sig};

/// Adds the first line of a declaration.
pub fn put_first_line(
    text: &mut Vec<u8>,
    q: &QName,
    decl: &DeclNode,
    names: &References<'_>,
) -> Result<(), AllocError>
    requires { AllBelow (node_count names.now) (decl_nodes decl.now) }
    ensures { OnOk result (text.new.items ≡ text.old.items
        ++ first_line q.now (described_decl (refer names.now) decl.now)) }
{
    put_printed(text, q.path.as_slice())?;
    text.extend_from_slice(b":")?;
    put_printed(text, q.name.as_slice())?;
    text.extend_from_slice(b" ")?;
    put_position(text, position(decl))?;
    text.extend_from_slice(b" ")?;
    put_form(text, decl, names)?;
    text.extend_from_slice(b"\n")
}

/// The position of a declaration.
fn position(decl: &DeclNode) -> &Pos
    ensures { (refer : ℕ → List ℕ) → result.now ≡ form_pos (described_decl refer decl.now) }
{
    match decl {
        DeclNode::Var { pos, .. }
        | DeclNode::Func { pos, .. }
        | DeclNode::Constant { pos, .. }
        | DeclNode::Defined { pos, .. }
        | DeclNode::Alias { pos, .. }
        | DeclNode::Parameter { pos, .. } => pos,
    }
}

/// Adds what the first line says behind the position.
fn put_form(text: &mut Vec<u8>, decl: &DeclNode, names: &References<'_>) -> Result<(), AllocError>
    requires { AllBelow (node_count names.now) (decl_nodes decl.now) }
    ensures { OnOk result (text.new.items ≡ text.old.items ++ form_text (described_decl (refer names.now) decl.now)) }
{
    match decl {
        DeclNode::Var { ty, .. } => put_prefixed(text, b"var ", *ty, names),
        DeclNode::Func { tparams, sig, .. } => put_function(text, tparams.items(), sig, names),
        DeclNode::Constant { ty, value, .. } => put_constant(text, *ty, value, names),
        DeclNode::Defined {
            tparams,
            underlying,
            ..
        } => put_named(text, b"type", tparams.items(), *underlying, names),
        DeclNode::Alias { tparams, ty, .. } => {
            put_named(text, b"alias", tparams.items(), *ty, names)
        }
        DeclNode::Parameter {
            implicit,
            constraint,
            ..
        } => put_parameter(text, *implicit, *constraint, names),
    }
}

fn put_function(
    text: &mut Vec<u8>,
    tparams: &[NodeId],
    sig: &Sig,
    names: &References<'_>,
) -> Result<(), AllocError>
    requires tparams { AllBelow (node_count names.now) tparams.now }
    requires sig { AllBelow (node_count names.now) (sig_types (sig_shape sig.now)) }
    ensures { OnOk result (text.new.items ≡ text.old.items
        ++ (codes "func" ++ tparams_text (map (refer names.now) tparams.now) ++ sig_line (refer names.now) sig.now)) }
{
    text.extend_from_slice(b"func")?;
    put_tparams(text, tparams, names)?;
    put_sig(text, sig, names)
}

fn put_constant(
    text: &mut Vec<u8>,
    ty: NodeId,
    value: &Const,
    names: &References<'_>,
) -> Result<(), AllocError>
    requires { ty < node_count names.now }
    ensures { OnOk result (text.new.items ≡ text.old.items
        ++ (codes "const " ++ refer names.now ty ++ codes " = " ++ value_text value.now)) }
{
    put_prefixed(text, b"const ", ty, names)?;
    text.extend_from_slice(b" = ")?;
    put_value(text, value)
}

/// Adds a defined type or an alias.
fn put_named(
    text: &mut Vec<u8>,
    word: &[u8],
    tparams: &[NodeId],
    ty: NodeId,
    names: &References<'_>,
) -> Result<(), AllocError>
    requires tparams { AllBelow (node_count names.now) tparams.now }
    requires there { ty < node_count names.now }
    ensures { OnOk result (text.new.items ≡ text.old.items
        ++ (word.now ++ tparams_text (map (refer names.now) tparams.now) ++ codes " " ++ refer names.now ty)) }
{
    text.extend_from_slice(word)?;
    put_tparams(text, tparams, names)?;
    put_prefixed(text, b" ", ty, names)
}

fn put_parameter(
    text: &mut Vec<u8>,
    implicit: bool,
    constraint: NodeId,
    names: &References<'_>,
) -> Result<(), AllocError>
    requires { constraint < node_count names.now }
    ensures { OnOk result (text.new.items ≡ text.old.items
        ++ (codes "param " ++ (if implicit then codes "implicit " else []) ++ refer names.now constraint)) }
{
    text.extend_from_slice(b"param ")?;
    put_mark(text, b"implicit ", implicit)?;
    put_reference(text, constraint, names)
}

/// Adds type parameters, if there are any.
fn put_tparams(
    text: &mut Vec<u8>,
    tparams: &[NodeId],
    names: &References<'_>,
) -> Result<(), AllocError>
    requires { AllBelow (node_count names.now) tparams.now }
    ensures { OnOk result (text.new.items ≡ text.old.items ++ tparams_text (map (refer names.now) tparams.now)) }
{
    match tparams {
        [] => Ok(()),
        tparams => put_bracketed(text, tparams, names),
    }
}

/// Adds a line for each method of a defined type.
pub fn put_method_lines(
    text: &mut Vec<u8>,
    decl: &DeclNode,
    names: &References<'_>,
) -> Result<(), AllocError>
    requires { AllBelow (node_count names.now) (decl_nodes decl.now) }
    ensures { OnOk result (text.new.items ≡ text.old.items
        ++ flat_map method_line (form_methods (described_decl (refer names.now) decl.now))) }
{
    match decl {
        DeclNode::Defined { methods, .. } => put_methods(text, methods.items(), names),
        _ => Ok(()),
    }
}
