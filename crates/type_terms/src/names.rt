//! The name that a node is, by its kind.

ghost use Rattle.std.specs.Prelude.{◌≡◌, ◌<◌, length, option_map};
ghost use Rattle.type_terms.specs.Denotation.{tree};
ghost use Rattle.type_terms.specs.Names.{basic_of, defined_name, alias_name, parameter_name};

use crate::descriptors::Node;
use crate::node_numbers::NodeId;
use crate::shared_nodes::Arena;
use code_tables::Basic;
use go_values::QName;

impl Arena {
    /// The predeclared type that a type is, if it is one. Takes no memory.
    pub fn predeclared(&self, id: NodeId) -> Option<Basic>
        requires there { id < length self.now.nodes }
        ensures { result ≡ basic_of (tree self.now.nodes id) }
    {
        match self.node(id) {
            Node::Predeclared(basic) => Some(*basic),
            Node::Named(_)
            | Node::Param(_)
            | Node::AliasName(_)
            | Node::Pointer(_)
            | Node::Slice(_)
            | Node::Array(_, _)
            | Node::Chan(_, _)
            | Node::MapOf(_, _)
            | Node::FuncOf(_, _)
            | Node::StructOf(_, _)
            | Node::Iface(_, _, _)
            | Node::Instance(_, _)
            | Node::Union(_) => None,
        }
    }

    /// The name of the defined type that a type is, if it is one. Takes no memory.
    pub fn defined_name(&self, id: NodeId) -> Option<&QName>
        requires there { id < length self.now.nodes }
        ensures { option_map (λ q. q.now) result ≡ defined_name (tree self.now.nodes id) }
    {
        match self.node(id) {
            Node::Named(q) => Some(q),
            Node::Predeclared(_)
            | Node::Param(_)
            | Node::AliasName(_)
            | Node::Pointer(_)
            | Node::Slice(_)
            | Node::Array(_, _)
            | Node::Chan(_, _)
            | Node::MapOf(_, _)
            | Node::FuncOf(_, _)
            | Node::StructOf(_, _)
            | Node::Iface(_, _, _)
            | Node::Instance(_, _)
            | Node::Union(_) => None,
        }
    }

    /// The name of the alias that a type is, if it is one. Takes no memory.
    pub fn alias_name(&self, id: NodeId) -> Option<&QName>
        requires there { id < length self.now.nodes }
        ensures { option_map (λ q. q.now) result ≡ alias_name (tree self.now.nodes id) }
    {
        match self.node(id) {
            Node::AliasName(q) => Some(q),
            Node::Predeclared(_)
            | Node::Named(_)
            | Node::Param(_)
            | Node::Pointer(_)
            | Node::Slice(_)
            | Node::Array(_, _)
            | Node::Chan(_, _)
            | Node::MapOf(_, _)
            | Node::FuncOf(_, _)
            | Node::StructOf(_, _)
            | Node::Iface(_, _, _)
            | Node::Instance(_, _)
            | Node::Union(_) => None,
        }
    }

    /// The name of the type parameter that a type is, if it is one. Takes no memory.
    pub fn parameter_name(&self, id: NodeId) -> Option<&QName>
        requires there { id < length self.now.nodes }
        ensures { option_map (λ q. q.now) result ≡ parameter_name (tree self.now.nodes id) }
    {
        match self.node(id) {
            Node::Param(q) => Some(q),
            Node::Predeclared(_)
            | Node::Named(_)
            | Node::AliasName(_)
            | Node::Pointer(_)
            | Node::Slice(_)
            | Node::Array(_, _)
            | Node::Chan(_, _)
            | Node::MapOf(_, _)
            | Node::FuncOf(_, _)
            | Node::StructOf(_, _)
            | Node::Iface(_, _, _)
            | Node::Instance(_, _)
            | Node::Union(_) => None,
        }
    }
}
