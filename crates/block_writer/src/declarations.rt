//! Declarations.

ghost use Rattle.std.specs.Prelude.{◌≡◌, ◌∷◌, [], ◌++◌, ℕ, OnOk, map};
ghost use Rattle.code_tables.specs.DeclTag.{decl_tag_code};
ghost use Rattle.type_terms.specs.Trees.{Tree};
ghost use Rattle.decl_spelling.specs.Spelling.{generic_or};
ghost use Rattle.file_layout.specs.Items.{
  a_position,
  a_flag,
  a_type,
  list_items,
  generic_items,
  receiver_items,
  methods_items,
  constant_kind,
  value_items,
  sig_items,
  decl_kind,
};
ghost use Rattle.block_writer.specs.Adding.{Adds, sig_over, receivers_over};
ghost use Rattle.block_writer.specs.Declaring.{AddsDecl, AddsFront, decl_over, last_items};

use crate::items::Item;
use crate::lists::{Listed, push_list, push_types};
use crate::members::push_named;
use crate::signatures::push_sig;
use crate::values::push_constant_value;
use code_tables::{Basic, DeclTag, decl_tags};
use go_values::{Const, Pos};
use std::alloc::AllocError;
use type_terms::{DeclNode, Method, MethodList, NodeId, Nodes, Sig};

/// What a declaration's items depend on beside its own parts.
#[derive(Clone, Copy)]
pub struct Told {
    /// The basic type to which a constant's type comes down.
    pub basic: Option<Basic>,
    /// Whether the underlying type of a defined type may have methods: it is neither `any` nor an interface.
    pub has_methods: bool,
}

/// The byte of a declaration's kind.
pub(crate) fn kind_byte(decl: &DeclNode) -> u8
    ensures { (type : ℕ → Tree) → result ≡ decl_tag_code (decl_kind (decl_over type decl.now)) }
{
    decl_tags().code_of(kind_of(decl))
}

fn kind_of(decl: &DeclNode) -> DeclTag
    ensures { (type : ℕ → Tree) → result ≡ decl_kind (decl_over type decl.now) }
{
    match decl {
        DeclNode::Var { .. } => DeclTag::Var,
        DeclNode::Func { tparams, .. } => {
            generic_or(tparams.items(), DeclTag::GenericFunc, DeclTag::Func)
        }
        DeclNode::Constant { .. } => DeclTag::Const,
        DeclNode::Defined { tparams, .. } => {
            generic_or(tparams.items(), DeclTag::GenericDefined, DeclTag::Defined)
        }
        DeclNode::Alias { tparams, .. } => {
            generic_or(tparams.items(), DeclTag::GenericAlias, DeclTag::Alias)
        }
        DeclNode::Parameter { .. } => DeclTag::TypeParameter,
    }
}

fn generic_or(tparams: &[NodeId], generic: DeclTag, plain: DeclTag) -> DeclTag
    ensures { (type : ℕ → Tree) → result ≡ generic_or (map type tparams.now) generic plain }
{
    if tparams.is_empty() { plain } else { generic }
}

/// Adds what a declaration holds behind the byte of its kind, in the order of writing; but a whole number, which stands
/// last, isn't added.
pub fn push_declaration<'a>(
    decl: &'a DeclNode,
    told: Told,
    into: &mut Vec<Item<'a>>,
) -> Result<(), AllocError>
    ensures { OnOk result (AddsDecl told decl.now into.old.items into.new.items) }
{
    match decl {
        DeclNode::Var { pos, ty } => push_var(pos, *ty, into),
        DeclNode::Func { pos, tparams, sig } => push_function(pos, tparams, sig, into),
        DeclNode::Constant { pos, ty, value } => {
            push_constant(pos, *ty, told.basic, value, into)
        }
        DeclNode::Defined {
            pos,
            tparams,
            underlying,
            methods,
        } => push_defined(pos, tparams, *underlying, told.has_methods, methods, into),
        DeclNode::Alias { pos, tparams, ty } => push_type_name(pos, tparams, *ty, into),
        DeclNode::Parameter {
            pos,
            implicit,
            constraint,
        } => push_parameter(pos, *implicit, *constraint, into),
    }
}

fn push_var<'a>(pos: &'a Pos, ty: NodeId, into: &mut Vec<Item<'a>>) -> Result<(), AllocError>
    ensures { OnOk result (Adds into.old.items into.new.items (λ type. a_position pos.now ∷ a_type (type ty) ∷ [])) }
{
    into.extend_from_slice(&[Item::Position(pos), Item::Type(ty)])
}

/// Adds type parameters, if there are any.
fn push_generic(tparams: &Nodes, into: &mut Vec<Item<'_>>) -> Result<(), AllocError>
    ensures { OnOk result (Adds into.old.items into.new.items (λ type. generic_items (map type tparams.now))) }
{
    let tparams = tparams.items();
    if tparams.is_empty() {
        return Ok(());
    }
    push_types(tparams, into)
}

fn push_function<'a>(
    pos: &'a Pos,
    tparams: &Nodes,
    sig: &'a Sig,
    into: &mut Vec<Item<'a>>,
) -> Result<(), AllocError>
    ensures { OnOk result (Adds into.old.items into.new.items
        (λ type. a_position pos.now ∷ (generic_items (map type tparams.now) ++ sig_items (sig_over type sig.now)))) }
{
    into.extend_from_slice(&[Item::Position(pos)])?;
    push_generic(tparams, into)?;
    push_sig(sig, into)
}

fn push_constant<'a>(
    pos: &'a Pos,
    ty: NodeId,
    basic: Option<Basic>,
    value: &'a Const,
    into: &mut Vec<Item<'a>>,
) -> Result<(), AllocError>
    ensures { OnOk result (AddsFront into.old.items into.new.items
        (λ type. a_position pos.now ∷ a_type (type ty) ∷ value_items (constant_kind basic) value.now)
        (last_items (constant_kind basic) value.now)) }
{
    push_var(pos, ty, into)?;
    push_constant_value(basic, value, into)
}

/// Adds a defined type without its methods, or an alias.
fn push_type_name<'a>(
    pos: &'a Pos,
    tparams: &Nodes,
    ty: NodeId,
    into: &mut Vec<Item<'a>>,
) -> Result<(), AllocError>
    ensures { OnOk result (Adds into.old.items into.new.items
        (λ type. a_position pos.now ∷ (generic_items (map type tparams.now) ++ a_type (type ty) ∷ []))) }
{
    into.extend_from_slice(&[Item::Position(pos)])?;
    push_generic(tparams, into)?;
    into.extend_from_slice(&[Item::Type(ty)])
}

fn push_defined<'a>(
    pos: &'a Pos,
    tparams: &Nodes,
    underlying: NodeId,
    has_methods: bool,
    methods: &'a MethodList,
    into: &mut Vec<Item<'a>>,
) -> Result<(), AllocError>
    ensures { OnOk result (Adds into.old.items into.new.items
        (λ type. a_position pos.now ∷ (generic_items (map type tparams.now)
        ++ a_type (type underlying) ∷ methods_items has_methods (receivers_over type methods.now)))) }
{
    push_type_name(pos, tparams, underlying, into)?;
    push_methods(has_methods, methods, into)
}

/// Adds the methods of a defined type, if it may have any.
fn push_methods<'a>(
    has_methods: bool,
    methods: &'a MethodList,
    into: &mut Vec<Item<'a>>,
) -> Result<(), AllocError>
    ensures { OnOk result (Adds into.old.items into.new.items
        (λ type. methods_items has_methods (receivers_over type methods.now))) }
{
    if !has_methods {
        return Ok(());
    }
    push_receivers(methods.items(), into)
}

#[tactic(auto, using(crate::proofs::Fused::receivers_fused))]
fn push_receivers<'a>(methods: &'a [Method], into: &mut Vec<Item<'a>>) -> Result<(), AllocError>
    ensures { OnOk result (Adds into.old.items into.new.items
        (λ type. list_items receiver_items (receivers_over type methods.now))) }
{
    push_list(methods, into)
}

impl Listed for Method {
    ghost use Rattle.file_layout.specs.Items.{receiver_items};
    ghost use Rattle.block_writer.specs.Adding.{receiver_over};

    ghost items = { λ type x. receiver_items (receiver_over type x) };

    fn push<'a>(&'a self, into: &mut Vec<Item<'a>>) -> Result<(), AllocError> {
        push_named(&self.pos, &self.name, into)?;
        self.recv.push(into)?;
        push_sig(&self.sig, into)
    }
}

fn push_parameter<'a>(
    pos: &'a Pos,
    implicit: bool,
    constraint: NodeId,
    into: &mut Vec<Item<'a>>,
) -> Result<(), AllocError>
    ensures { OnOk result (Adds into.old.items into.new.items
        (λ type. a_position pos.now ∷ a_flag implicit ∷ a_type (type constraint) ∷ [])) }
{
    into.extend_from_slice(&[
        Item::Position(pos),
        Item::Flag(implicit),
        Item::Type(constraint),
    ])
}
