ghost use Rattle.std.specs.Prelude.{◌≡◌, ◌<◌, ◌++◌, map, codes, decimal, OnOk};
ghost use Rattle.std.specs.List.{flat_map};
ghost use Rattle.type_terms.specs.Arenas.{AllBelow};
ghost use Rattle.type_terms.specs.Shapes.{field_types, method_types, term_types};
ghost use Rattle.type_terms.specs.NodeShapes.{field_shape, method_shape, term_shape, children};
ghost use Rattle.decl_text.specs.Joined.{joined};
ghost use Rattle.decl_text.specs.Printed.{printed};
ghost use Rattle.decl_text.specs.TypeText.{chan_word, bracketed, field_text, method_text, term_text};
ghost use Rattle.decl_text.specs.PieceText.{described_field, described_method, described_term, node_line};
ghost use Rattle.decl_text.specs.Referring.{refer, node_count};

use crate::escapes::put_printed;
use crate::naming::put_reference;
use crate::pieces::{put_between, put_joined};
use crate::references::References;
use crate::signatures::put_sig;
use crate::words::{basic_name, put_decimal, put_qualified};
use std::alloc::AllocError;
use type_terms::{Dir, Field, IMethod, Node, NodeId, Term};

/// Adds the line of a type, without the numbers of others before it.
pub fn put_type(line: &mut Vec<u8>, node: &Node, names: &References<'_>) -> Result<(), AllocError>
    requires { AllBelow (node_count names.now) (children node.now) }
    ensures { OnOk result (line.new.items ≡ line.old.items ++ node_line (refer names.now) node.now) }
{
    match node {
        Node::Predeclared(basic) => line.extend_from_slice(basic_name(*basic)),
        Node::Named(q) | Node::Param(q) | Node::AliasName(q) => put_qualified(line, q),
        Node::Pointer(id) => put_prefixed(line, b"*", *id, names),
        Node::Slice(id) => put_prefixed(line, b"[]", *id, names),
        Node::Array(size, id) => put_array(line, *size, *id, names),
        Node::Chan(dir, id) => put_prefixed(line, chan_word(*dir), *id, names),
        Node::MapOf(key, id) => put_map(line, *key, *id, names),
        Node::FuncOf(_, sig) => {
            line.extend_from_slice(b"func")?;
            put_sig(line, sig, names)
        }
        Node::StructOf(home, fields) => put_struct(line, home.as_slice(), fields.items(), names),
        Node::Iface(home, embedded, methods) => put_interface(
            line,
            home.as_slice(),
            embedded.items(),
            methods.items(),
            names,
        ),
        Node::Instance(base, args) => put_instance(line, *base, args.items(), names),
        Node::Union(terms) => put_union(line, terms.items(), names),
    }
}

/// The word of a channel's type.
fn chan_word(dir: Dir) -> &'static [u8]
    ensures { result.now ≡ chan_word dir }
{
    match dir {
        Dir::Receive => b"<-chan ",
        Dir::Send => b"chan<- ",
        Dir::Both => b"chan ",
    }
}

/// Adds what stands before a reference, and the reference.
pub fn put_prefixed(
    line: &mut Vec<u8>,
    prefix: &[u8],
    id: NodeId,
    names: &References<'_>,
) -> Result<(), AllocError>
    requires { id < node_count names.now }
    ensures { OnOk result (line.new.items ≡ line.old.items ++ (prefix.now ++ refer names.now id)) }
{
    line.extend_from_slice(prefix)?;
    put_reference(line, id, names)
}

fn put_array(
    line: &mut Vec<u8>,
    size: u64,
    id: NodeId,
    names: &References<'_>,
) -> Result<(), AllocError>
    requires { id < node_count names.now }
    ensures { OnOk result (line.new.items ≡ line.old.items
        ++ (codes "[" ++ decimal size ++ codes "]" ++ refer names.now id)) }
{
    line.extend_from_slice(b"[")?;
    put_decimal(line, size)?;
    put_prefixed(line, b"]", id, names)
}

fn put_map(
    line: &mut Vec<u8>,
    key: NodeId,
    id: NodeId,
    names: &References<'_>,
) -> Result<(), AllocError>
    requires key { key < node_count names.now }
    requires element { id < node_count names.now }
    ensures { OnOk result (line.new.items ≡ line.old.items
        ++ (codes "map[" ++ refer names.now key ++ codes "]" ++ refer names.now id)) }
{
    put_prefixed(line, b"map[", key, names)?;
    put_prefixed(line, b"]", id, names)
}

fn put_struct(
    line: &mut Vec<u8>,
    home: &[u8],
    fields: &[Field],
    names: &References<'_>,
) -> Result<(), AllocError>
    requires { AllBelow (node_count names.now) (flat_map field_types (map field_shape fields.now)) }
    ensures { OnOk result (line.new.items ≡ line.old.items
        ++ (codes "struct " ++ printed home.now
        ++ codes " {"
        ++ joined (codes "; ") (map field_text (map (described_field (refer names.now)) (map field_shape fields.now)))
        ++ codes "}")) }
{
    line.extend_from_slice(b"struct ")?;
    put_printed(line, home)?;
    line.extend_from_slice(b" {")?;
    put_fields(line, fields, names)?;
    line.extend_from_slice(b"}")
}

#[tactic(auto, using(crate::proofs::Fused::fields_types, crate::proofs::Fused::fields_lines))]
fn put_fields(
    line: &mut Vec<u8>,
    fields: &[Field],
    names: &References<'_>,
) -> Result<(), AllocError>
    requires { AllBelow (node_count names.now) (flat_map field_types (map field_shape fields.now)) }
    ensures { OnOk result (line.new.items ≡ line.old.items
        ++ joined (codes "; ")
        (map field_text (map (described_field (refer names.now)) (map field_shape fields.now)))) }
{
    put_joined(line, fields, b"; ", names)
}

fn put_interface(
    line: &mut Vec<u8>,
    home: &[u8],
    embedded: &[NodeId],
    methods: &[IMethod],
    names: &References<'_>,
) -> Result<(), AllocError>
    requires embedded { AllBelow (node_count names.now) embedded.now }
    requires methods { AllBelow (node_count names.now) (flat_map method_types (map method_shape methods.now)) }
    ensures { OnOk result (line.new.items ≡ line.old.items
        ++ (codes "interface " ++ printed home.now
        ++ codes " {"
        ++ joined (codes "; ") (map (refer names.now) embedded.now
        ++ map method_text (map (described_method (refer names.now)) (map method_shape methods.now))) ++ codes "}")) }
{
    line.extend_from_slice(b"interface ")?;
    put_printed(line, home)?;
    line.extend_from_slice(b" {")?;
    put_items(line, embedded, methods, names)?;
    line.extend_from_slice(b"}")
}

/// Adds the embedded types and then the methods of an interface.
fn put_items(
    line: &mut Vec<u8>,
    embedded: &[NodeId],
    methods: &[IMethod],
    names: &References<'_>,
) -> Result<(), AllocError>
    requires embedded { AllBelow (node_count names.now) embedded.now }
    requires methods { AllBelow (node_count names.now) (flat_map method_types (map method_shape methods.now)) }
    ensures { OnOk result (line.new.items ≡ line.old.items
        ++ joined (codes "; ") (map (refer names.now) embedded.now
        ++ map method_text (map (described_method (refer names.now)) (map method_shape methods.now)))) }
{
    put_types(line, b"; ", embedded, names)?;
    put_between(line, b"; ", embedded.len(), methods.len())?;
    put_methods(line, methods, names)
}

#[tactic(auto, using(crate::proofs::Fused::methods_types, crate::proofs::Fused::methods_lines))]
fn put_methods(
    line: &mut Vec<u8>,
    methods: &[IMethod],
    names: &References<'_>,
) -> Result<(), AllocError>
    requires { AllBelow (node_count names.now) (flat_map method_types (map method_shape methods.now)) }
    ensures { OnOk result (line.new.items ≡ line.old.items
        ++ joined (codes "; ")
        (map method_text (map (described_method (refer names.now)) (map method_shape methods.now)))) }
{
    put_joined(line, methods, b"; ", names)
}

/// Adds references with a divider between them.
#[tactic(auto, using(type_terms::specs::Replaced::singles))]
fn put_types(
    line: &mut Vec<u8>,
    divider: &[u8],
    types: &[NodeId],
    names: &References<'_>,
) -> Result<(), AllocError>
    requires { AllBelow (node_count names.now) types.now }
    ensures { OnOk result (line.new.items ≡ line.old.items ++ joined divider.now (map (refer names.now) types.now)) }
{
    put_joined(line, types, divider, names)
}

/// Adds references between brackets.
pub fn put_bracketed(
    line: &mut Vec<u8>,
    types: &[NodeId],
    names: &References<'_>,
) -> Result<(), AllocError>
    requires { AllBelow (node_count names.now) types.now }
    ensures { OnOk result (line.new.items ≡ line.old.items ++ bracketed (map (refer names.now) types.now)) }
{
    line.extend_from_slice(b"[")?;
    put_types(line, b", ", types, names)?;
    line.extend_from_slice(b"]")
}

fn put_instance(
    line: &mut Vec<u8>,
    base: NodeId,
    args: &[NodeId],
    names: &References<'_>,
) -> Result<(), AllocError>
    requires base { base < node_count names.now }
    requires args { AllBelow (node_count names.now) args.now }
    ensures { OnOk result (line.new.items ≡ line.old.items
        ++ (refer names.now base ++ bracketed (map (refer names.now) args.now))) }
{
    put_reference(line, base, names)?;
    put_bracketed(line, args, names)
}

#[tactic(auto, using(crate::proofs::Fused::terms_types, crate::proofs::Fused::terms_lines))]
fn put_union(line: &mut Vec<u8>, terms: &[Term], names: &References<'_>) -> Result<(), AllocError>
    requires { AllBelow (node_count names.now) (flat_map term_types (map term_shape terms.now)) }
    ensures { OnOk result (line.new.items ≡ line.old.items
        ++ joined (codes " | ") (map term_text (map (described_term (refer names.now)) (map term_shape terms.now)))) }
{
    put_joined(line, terms, b" | ", names)
}
