//! Fields, methods of interfaces, and terms.

ghost use Rattle.std.specs.Prelude.{◌∷◌, [], OnOk};
ghost use Rattle.file_layout.specs.Items.{a_position, a_text, list_items, field_items, method_items, term_items};
ghost use Rattle.block_writer.specs.Adding.{Adds, fields_over, methods_over, terms_over};

use crate::items::Item;
use crate::lists::{Listed, push_list};
use crate::signatures::push_sig;
use go_values::{Bytes, Pos};
use std::alloc::AllocError;
use type_terms::{Field, IMethod, Term};

impl Listed for Field {
    ghost use Rattle.file_layout.specs.Items.{field_items};
    ghost use Rattle.block_writer.specs.Adding.{field_over};

    ghost items = { λ type x. field_items (field_over type x) };

    fn push<'a>(&'a self, into: &mut Vec<Item<'a>>) -> Result<(), AllocError> {
        into.extend_from_slice(&[
            Item::Position(&self.pos),
            Item::Text(self.name.as_slice()),
            Item::Type(self.ty),
            Item::Flag(self.embedded),
            Item::Text(self.tag.as_slice()),
        ])
    }
}

impl Listed for IMethod {
    ghost use Rattle.file_layout.specs.Items.{method_items};
    ghost use Rattle.block_writer.specs.Adding.{method_over};

    ghost items = { λ type x. method_items (method_over type x) };

    fn push<'a>(&'a self, into: &mut Vec<Item<'a>>) -> Result<(), AllocError> {
        push_named(&self.pos, &self.name, into)?;
        push_sig(&self.sig, into)
    }
}

impl Listed for Term {
    ghost use Rattle.file_layout.specs.Items.{term_items};
    ghost use Rattle.block_writer.specs.Adding.{term_over};

    ghost items = { λ type x. term_items (term_over type x) };

    fn push<'a>(&'a self, into: &mut Vec<Item<'a>>) -> Result<(), AllocError> {
        into.extend_from_slice(&[Item::Flag(self.tilde), Item::Type(self.ty)])
    }
}

/// Adds the position and the name of a method.
pub(crate) fn push_named<'a>(
    pos: &'a Pos,
    name: &'a Bytes,
    into: &mut Vec<Item<'a>>,
) -> Result<(), AllocError>
    ensures { OnOk result (Adds into.old.items into.new.items (λ type. a_position pos.now ∷ a_text name.now ∷ [])) }
{
    into.extend_from_slice(&[Item::Position(pos), Item::Text(name.as_slice())])
}

/// Adds the fields of a struct.
#[tactic(auto, using(crate::proofs::Fused::fields_fused))]
pub(crate) fn push_fields<'a>(
    fields: &'a [Field],
    into: &mut Vec<Item<'a>>,
) -> Result<(), AllocError>
    ensures { OnOk result (Adds into.old.items into.new.items
        (λ type. list_items field_items (fields_over type fields.now))) }
{
    push_list(fields, into)
}

/// Adds the methods of an interface.
#[tactic(auto, using(crate::proofs::Fused::methods_fused))]
pub(crate) fn push_methods<'a>(
    methods: &'a [IMethod],
    into: &mut Vec<Item<'a>>,
) -> Result<(), AllocError>
    ensures { OnOk result (Adds into.old.items into.new.items
        (λ type. list_items method_items (methods_over type methods.now))) }
{
    push_list(methods, into)
}

/// Adds the terms of a union.
#[tactic(auto, using(crate::proofs::Fused::terms_fused))]
pub(crate) fn push_terms<'a>(terms: &'a [Term], into: &mut Vec<Item<'a>>) -> Result<(), AllocError>
    ensures { OnOk result (Adds into.old.items into.new.items
        (λ type. list_items term_items (terms_over type terms.now))) }
{
    push_list(terms, into)
}
