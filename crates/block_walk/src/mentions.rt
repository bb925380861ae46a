//! What is mentioned.

ghost use Rattle.std.specs.Prelude.{◌≡◌, OnOk};
ghost use Rattle.wire_bytes.specs.Section.{with_text};
ghost use Rattle.file_layout.specs.Bytes.{path_text};
ghost use Rattle.block_walk.specs.Going.{with_name, with_path, with_names};
ghost use Rattle.block_walk.specs.NodeNames.{node_names};

use go_values::{Bytes, QName};
use indexmap::IndexSet;
use std::alloc::{AllocError, Global};
use type_terms::Node;
use wire_bytes::Strings;

/// Mentions a text.
pub(crate) fn say(strings: &mut Strings, text: &[u8]) -> Result<(), AllocError>
    ensures { OnOk result (strings.new ≡ with_text strings.old text.now) }
{
    strings.add(text)?;
    Ok(())
}

/// Mentions the text that stands for a package's path, which is empty for the own one.
pub(crate) fn say_path(strings: &mut Strings, own: &[u8], path: &[u8]) -> Result<(), AllocError>
    ensures { OnOk result (strings.new ≡ with_text strings.old (path_text own.now path.now)) }
{
    if path == own {
        say(strings, &[])
    } else {
        say(strings, path)
    }
}

/// Puts a path to those that were mentioned.
pub(crate) fn put_path(
    alloc: Global,
    paths: &mut IndexSet<Bytes>,
    path: &[u8],
) -> Result<(), AllocError>
    ensures { OnOk result (paths.new.keys ≡ with_path paths.old.keys path.now) }
{
    let path = Bytes::from_slice(alloc, path)?;
    paths.insert(path)?;
    Ok(())
}

/// Puts the name that a type is, if it is one, to those that were mentioned.
pub(crate) fn put_name_of(names: &mut IndexSet<QName>, node: &Node) -> Result<(), AllocError>
    ensures { OnOk result (names.new.keys ≡ with_names names.old.keys (node_names node.now)) }
{
    match node {
        Node::Named(q) | Node::Param(q) | Node::AliasName(q) => put_name(names, q),
        Node::Predeclared(_)
        | Node::Pointer(_)
        | Node::Slice(_)
        | Node::Array(_, _)
        | Node::Chan(_, _)
        | Node::MapOf(_, _)
        | Node::FuncOf(_, _)
        | Node::StructOf(_, _)
        | Node::Iface(_, _, _)
        | Node::Instance(_, _)
        | Node::Union(_) => Ok(()),
    }
}

fn put_name(names: &mut IndexSet<QName>, q: &QName) -> Result<(), AllocError>
    ensures { OnOk result (names.new.keys ≡ with_name names.old.keys q.now) }
{
    let name = q.clone()?;
    names.insert(name)?;
    Ok(())
}
