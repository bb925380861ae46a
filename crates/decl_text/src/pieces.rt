ghost use Rattle.std.specs.Prelude.{◌≡◌, ℕ, List, [], ◌∷◌, ◌++◌, map, OnOk};
ghost use Rattle.std.specs.List.{flat_map};
ghost use Rattle.type_terms.specs.Arenas.{AllBelow};
ghost use Rattle.decl_text.specs.Joined.{joined, between};
ghost use Rattle.decl_text.specs.Referring.{refer, node_count};

use crate::escapes::put_printed;
use crate::naming::put_reference;
use crate::references::References;
use crate::words::{put_mark, put_param_name, put_tag};
use std::alloc::AllocError;
use type_terms::{Field, NodeId, ParamNode, Term};

/// A part of a line: a reference to a type, or what holds types and has a text by their references.
pub trait Piece {
    /// The types that it holds, in reading order.
    ghost types: { Self → List ℕ };

    /// The text.
    ghost text: { (ℕ → List ℕ) → Self → List ℕ };

    /// Adds the text.
    fn put(&self, line: &mut Vec<u8>, names: &References<'_>) -> Result<(), AllocError>
        requires there { AllBelow (node_count names.now) (types self.now) }
        ensures text { OnOk result (line.new.items ≡ line.old.items ++ text (refer names.now) self.now) };
}

impl Piece for NodeId {
    ghost use Rattle.std.specs.Prelude.{[], ◌∷◌};

    ghost types = { λ id. id ∷ [] };

    ghost text = { λ refer id. refer id };

    fn put(&self, line: &mut Vec<u8>, names: &References<'_>) -> Result<(), AllocError> {
        put_reference(line, *self, names)
    }
}

impl Piece for ParamNode {
    ghost use Rattle.type_terms.specs.Shapes.{param_types};
    ghost use Rattle.type_terms.specs.NodeShapes.{param_shape};
    ghost use Rattle.decl_text.specs.PieceText.{param_line};

    ghost types = { λ param. param_types (param_shape param) };

    ghost text = { param_line };

    fn put(&self, line: &mut Vec<u8>, names: &References<'_>) -> Result<(), AllocError> {
        put_param_name(line, self.name.as_slice())?;
        line.extend_from_slice(b" ")?;
        put_reference(line, self.ty, names)
    }
}

impl Piece for Field {
    ghost use Rattle.type_terms.specs.Shapes.{field_types};
    ghost use Rattle.type_terms.specs.NodeShapes.{field_shape};
    ghost use Rattle.decl_text.specs.PieceText.{field_line};

    ghost types = { λ field. field_types (field_shape field) };

    ghost text = { field_line };

    fn put(&self, line: &mut Vec<u8>, names: &References<'_>) -> Result<(), AllocError> {
        put_mark(line, b"^", self.embedded)?;
        put_printed(line, self.name.as_slice())?;
        line.extend_from_slice(b" ")?;
        put_reference(line, self.ty, names)?;
        put_tag(line, self.tag.as_slice())
    }
}

impl Piece for Term {
    ghost use Rattle.type_terms.specs.Shapes.{term_types};
    ghost use Rattle.type_terms.specs.NodeShapes.{term_shape};
    ghost use Rattle.decl_text.specs.PieceText.{term_line};

    ghost types = { λ term. term_types (term_shape term) };

    ghost text = { term_line };

    fn put(&self, line: &mut Vec<u8>, names: &References<'_>) -> Result<(), AllocError> {
        put_mark(line, b"~", self.tilde)?;
        put_reference(line, self.ty, names)
    }
}

/// Adds some parts, with a divider between them.
pub fn put_joined<T: Piece>(
    line: &mut Vec<u8>,
    pieces: &[T],
    divider: &[u8],
    names: &References<'_>,
) -> Result<(), AllocError>
    requires { AllBelow (node_count names.now) (flat_map T.types pieces.now) }
    ensures { OnOk result (line.new.items ≡ line.old.items
        ++ joined divider.now (map (T.text (refer names.now)) pieces.now)) }
{
    for (k, piece) in pieces.iter().enumerate() {
        put_between(line, divider, k, 1)?;
        piece.put(line, names)?;
    }
    Ok(())
}

/// Adds a divider where texts stand before it and behind it.
pub fn put_between(
    line: &mut Vec<u8>,
    divider: &[u8],
    first: usize,
    second: usize,
) -> Result<(), AllocError>
    ensures { OnOk result (line.new.items ≡ line.old.items ++ between divider.now first second) }
{
    if first == 0 || second == 0 {
        Ok(())
    } else {
        line.extend_from_slice(divider)
    }
}
