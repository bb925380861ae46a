//! Descriptors of types.

ghost use Rattle.std.specs.Prelude.{◌≡◌, ◌∷◌, [], OnOk, map};
ghost use Rattle.code_tables.specs.TypeTag.{type_tag_code};
ghost use Rattle.decl_spelling.specs.Grammar.{dir_number};
ghost use Rattle.type_terms.specs.NodeShapes.{node_shape};
ghost use Rattle.type_terms.specs.Shapes.{retype};
ghost use Rattle.file_layout.specs.Items.{
  a_text,
  a_path,
  a_type,
  a_number,
  level_items,
  tagged,
};
ghost use Rattle.block_writer.specs.Adding.{Adds};

use crate::items::Item;
use crate::lists::{push_embedded, push_types};
use crate::members::{push_fields, push_methods, push_terms};
use crate::signatures::push_sig;
use code_tables::{TypeTag, type_tags};
use go_values::{Bytes, QName};
use std::alloc::AllocError;
use type_terms::{Dir, Field, IMethod, Node, NodeId, Sig, Term};

/// Adds what the descriptor of a type holds, in the order of writing. A predeclared type has none.
pub fn push_descriptor<'a>(node: &'a Node, into: &mut Vec<Item<'a>>) -> Result<(), AllocError>
    ensures { OnOk result (Adds into.old.items into.new.items
        (λ type. level_items (retype type (node_shape node.now)))) }
{
    match node {
        Node::Predeclared(_) => Ok(()),
        Node::Named(q) => push_name(TypeTag::Defined, q, into),
        Node::Param(q) => push_name(TypeTag::TypeParameter, q, into),
        Node::AliasName(q) => push_name(TypeTag::Alias, q, into),
        Node::Pointer(id) => push_element(TypeTag::Pointer, *id, into),
        Node::Slice(id) => push_element(TypeTag::Slice, *id, into),
        Node::Array(size, id) => push_sized(TypeTag::Array, *size, *id, into),
        Node::Chan(dir, id) => push_sized(TypeTag::Chan, dir_number(*dir), *id, into),
        Node::MapOf(key, id) => push_map(*key, *id, into),
        Node::FuncOf(home, sig) => push_func(home, sig, into),
        Node::StructOf(home, fields) => push_struct(home, fields.items(), into),
        Node::Iface(home, embedded, methods) => {
            push_interface(home, embedded.items(), methods.items(), into)
        }
        Node::Instance(base, args) => push_instance(*base, args.items(), into),
        Node::Union(terms) => push_union(terms.items(), into),
    }
}

/// The number of a kind of descriptor.
fn tag_item<'a>(tag: TypeTag) -> Item<'a>
    ensures { result ≡ Item.Number (type_tag_code tag) }
{
    Item::Number(u64::from(type_tags().code_of(tag)))
}

/// The number of what a channel may do.
fn dir_number(dir: Dir) -> u64
    ensures { result ≡ dir_number dir }
{
    match dir {
        Dir::Receive => 1,
        Dir::Send => 2,
        Dir::Both => 3,
    }
}

/// Adds a name and the path of its package.
fn push_name<'a>(tag: TypeTag, q: &'a QName, into: &mut Vec<Item<'a>>) -> Result<(), AllocError>
    ensures { OnOk result (Adds into.old.items into.new.items
        (λ type. tagged tag (a_text q.now.name ∷ a_path q.now.path ∷ []))) }
{
    into.extend_from_slice(&[
        tag_item(tag),
        Item::Text(q.name.as_slice()),
        Item::Path(q.path.as_slice()),
    ])
}

fn push_element(tag: TypeTag, id: NodeId, into: &mut Vec<Item<'_>>) -> Result<(), AllocError>
    ensures { OnOk result (Adds into.old.items into.new.items (λ type. tagged tag (a_type (type id) ∷ []))) }
{
    into.extend_from_slice(&[tag_item(tag), Item::Type(id)])
}

/// Adds an array with its length, or a channel with its direction.
fn push_sized(
    tag: TypeTag,
    number: u64,
    id: NodeId,
    into: &mut Vec<Item<'_>>,
) -> Result<(), AllocError>
    ensures { OnOk result (Adds into.old.items into.new.items
        (λ type. tagged tag (a_number number ∷ a_type (type id) ∷ []))) }
{
    into.extend_from_slice(&[tag_item(tag), Item::Number(number), Item::Type(id)])
}

fn push_map(key: NodeId, id: NodeId, into: &mut Vec<Item<'_>>) -> Result<(), AllocError>
    ensures { OnOk result (Adds into.old.items into.new.items
        (λ type. tagged TypeTag.Map (a_type (type key) ∷ a_type (type id) ∷ []))) }
{
    into.extend_from_slice(&[tag_item(TypeTag::Map), Item::Type(key), Item::Type(id)])
}

/// Adds the kind of a literal, and the path of the package in which it stands.
fn push_home<'a>(tag: TypeTag, home: &'a Bytes, into: &mut Vec<Item<'a>>) -> Result<(), AllocError>
    ensures { OnOk result (Adds into.old.items into.new.items (λ type. tagged tag (a_path home.now ∷ []))) }
{
    into.extend_from_slice(&[tag_item(tag), Item::Path(home.as_slice())])
}

fn push_func<'a>(home: &'a Bytes, sig: &'a Sig, into: &mut Vec<Item<'a>>) -> Result<(), AllocError>
    ensures { OnOk result (Adds into.old.items into.new.items
        (λ type. level_items (retype type (node_shape (Node.FuncOf home.now sig.now))))) }
{
    push_home(TypeTag::Signature, home, into)?;
    push_sig(sig, into)
}

fn push_struct<'a>(
    home: &'a Bytes,
    fields: &'a [Field],
    into: &mut Vec<Item<'a>>,
) -> Result<(), AllocError>
    ensures { OnOk result (Adds into.old.items into.new.items
        (λ type. level_items (retype type (node_shape (Node.StructOf home.now fields.now))))) }
{
    push_home(TypeTag::Struct, home, into)?;
    push_fields(fields, into)
}

fn push_interface<'a>(
    home: &'a Bytes,
    embedded: &[NodeId],
    methods: &'a [IMethod],
    into: &mut Vec<Item<'a>>,
) -> Result<(), AllocError>
    ensures { OnOk result (Adds into.old.items into.new.items
        (λ type. level_items (retype type (node_shape (Node.Iface home.now embedded.now methods.now))))) }
{
    push_home(TypeTag::Interface, home, into)?;
    push_embedded(embedded, into)?;
    push_methods(methods, into)
}

/// Adds an instance, which has no position.
fn push_instance(base: NodeId, args: &[NodeId], into: &mut Vec<Item<'_>>) -> Result<(), AllocError>
    ensures { OnOk result (Adds into.old.items into.new.items
        (λ type. level_items (retype type (node_shape (Node.Instance base args.now))))) }
{
    into.extend_from_slice(&[tag_item(TypeTag::Instance), Item::NoPosition])?;
    push_types(args, into)?;
    into.extend_from_slice(&[Item::Type(base)])
}

fn push_union<'a>(terms: &'a [Term], into: &mut Vec<Item<'a>>) -> Result<(), AllocError>
    ensures { OnOk result (Adds into.old.items into.new.items
        (λ type. level_items (retype type (node_shape (Node.Union terms.now))))) }
{
    into.extend_from_slice(&[tag_item(TypeTag::Union)])?;
    push_terms(terms, into)
}
