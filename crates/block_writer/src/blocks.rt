//! Whole blocks.

ghost use Rattle.std.specs.Prelude.{◌≡◌, ◌++◌, ℕ, OnOk};
ghost use Rattle.std.specs.List.{AllByRecursion};
ghost use Rattle.position_codec.specs.Place.{Place};
ghost use Rattle.type_terms.specs.Trees.{Text, Tree};
ghost use Rattle.file_layout.specs.Items.{constant_kind};
ghost use Rattle.file_layout.specs.Bytes.{items_bytes};
ghost use Rattle.block_writer.specs.Declaring.{PutsDecl, HidesNone, IsOfType, last_items, last_of};
ghost use Rattle.block_writer.specs.Putting.{PutsDescriptor};

use crate::declarations::{Told, kind_byte, push_declaration};
use crate::descriptors::push_descriptor;
use crate::numbers::put_whole;
use crate::values::whole_of;
use crate::writing::put_items;
use code_tables::Basic;
use go_values::Const;
use std::alloc::{AllocError, Global};
use type_terms::{DeclNode, Node};
use wire_bytes::{Strings, Writer};

/// Adds the descriptor of a type, with the number of each type that stands in it at its node's place. The texts that
/// it mentions are added to the strings. The own path is spelled as the empty text. After a refusal for want of memory
/// some of the bytes may be written, and some of the texts added.
pub fn put_descriptor(
    alloc: Global,
    w: &mut Writer,
    strings: &mut Strings,
    own: &[u8],
    numbers: &[u64],
    node: &Node,
) -> Result<(), AllocError>
    ensures { OnOk result (PutsDescriptor own.now numbers.now node.now strings.old strings.new w.old w.new) }
{
    let mut items = Vec::new(alloc);
    push_descriptor(node, &mut items)?;
    put_items(w, strings, own, numbers, items.as_slice())
}

/// Adds a declaration: the byte of its kind, and what it holds. Its types stand as in a descriptor. What is told of it
/// has to fit: a whole number is one of its type, and a defined type that may have no methods has none.
pub fn put_declaration(
    alloc: Global,
    w: &mut Writer,
    strings: &mut Strings,
    own: &[u8],
    numbers: &[u64],
    decl: &DeclNode,
    told: Told,
) -> Result<(), AllocError>
    requires of_type { AllByRecursion IsOfType (last_of told.basic decl.now) }
    requires methods { HidesNone told decl.now }
    ensures { OnOk result (PutsDecl own.now numbers.now told decl.now strings.old strings.new w.old w.new) }
{
    w.put_byte(kind_byte(decl))?;
    let mut items = Vec::new(alloc);
    push_declaration(decl, told, &mut items)?;
    put_items(w, strings, own, numbers, items.as_slice())?;
    put_last(w, decl, told)
}

/// Adds the value of a constant, if it is a whole number, which stands last.
fn put_last(w: &mut Writer, decl: &DeclNode, told: Told) -> Result<(), AllocError>
    requires { AllByRecursion IsOfType (last_of told.basic decl.now) }
    ensures { OnOk result ((own : Text) (offset : Text → ℕ) (number : Tree → ℕ) (before : Place)
        → w.new ≡ w.old ++ items_bytes own offset number before (last_of told.basic decl.now)) }
{
    match decl {
        DeclNode::Constant { value, .. } => put_whole_of(w, told.basic, value),
        DeclNode::Var { .. }
        | DeclNode::Func { .. }
        | DeclNode::Defined { .. }
        | DeclNode::Alias { .. }
        | DeclNode::Parameter { .. } => Ok(()),
    }
}

fn put_whole_of(w: &mut Writer, basic: Option<Basic>, value: &Const) -> Result<(), AllocError>
    requires { AllByRecursion IsOfType (last_items (constant_kind basic) value.now) }
    ensures { OnOk result ((own : Text) (offset : Text → ℕ) (number : Tree → ℕ) (before : Place)
        → w.new ≡ w.old ++ items_bytes own offset number before (last_items (constant_kind basic) value.now)) }
{
    match whole_of(basic, value) {
        Some(whole) => put_whole(w, whole.signed, whole.max, whole.value),
        None => Ok(()),
    }
}
