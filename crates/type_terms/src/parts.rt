//! The types that stand in nodes and declarations, as a list.

ghost use Rattle.std.specs.Prelude.{◌≡◌, ℕ, List, [], ◌∷◌, ◌++◌, map, OnOk};
ghost use Rattle.std.specs.List.{flat_map};
ghost use Rattle.type_terms.specs.Declarations.{receiver_types, receiver_shape, decl_nodes};
ghost use Rattle.type_terms.specs.NodeShapes.{children, param_shape, sig_shape, method_shape};
ghost use Rattle.type_terms.specs.Shapes.{param_types, sig_types, method_types};

use crate::declarations::{DeclNode, Method};
use crate::descriptors::Node;
use crate::literals::{Field, IMethod, ParamNode, Sig, Term};
use crate::node_numbers::NodeId;
use std::alloc::AllocError;

/// What holds types.
trait Holder {
    /// The types that it holds, in reading order.
    ghost types: { Self → List ℕ };

    /// Adds them.
    fn push_types(&self, into: &mut Vec<NodeId>) -> Result<(), AllocError>
        ensures types { OnOk result (into.new.items ≡ into.old.items ++ types self.now) };
}

impl Holder for ParamNode {
    ghost use Rattle.type_terms.specs.Shapes.{param_types};
    ghost use Rattle.type_terms.specs.NodeShapes.{param_shape};

    ghost types = { λ param. param_types (param_shape param) };

    fn push_types(&self, into: &mut Vec<NodeId>) -> Result<(), AllocError> {
        into.push(self.ty)?;
        Ok(())
    }
}

impl Holder for Field {
    ghost use Rattle.type_terms.specs.Shapes.{field_types};
    ghost use Rattle.type_terms.specs.NodeShapes.{field_shape};

    ghost types = { λ field. field_types (field_shape field) };

    fn push_types(&self, into: &mut Vec<NodeId>) -> Result<(), AllocError> {
        into.push(self.ty)?;
        Ok(())
    }
}

impl Holder for Term {
    ghost use Rattle.type_terms.specs.Shapes.{term_types};
    ghost use Rattle.type_terms.specs.NodeShapes.{term_shape};

    ghost types = { λ term. term_types (term_shape term) };

    fn push_types(&self, into: &mut Vec<NodeId>) -> Result<(), AllocError> {
        into.push(self.ty)?;
        Ok(())
    }
}

impl Holder for IMethod {
    ghost use Rattle.type_terms.specs.Shapes.{method_types};
    ghost use Rattle.type_terms.specs.NodeShapes.{method_shape};

    ghost types = { λ method. method_types (method_shape method) };

    fn push_types(&self, into: &mut Vec<NodeId>) -> Result<(), AllocError> {
        push_sig(&self.sig, into)
    }
}

impl Holder for Method {
    ghost use Rattle.type_terms.specs.Declarations.{receiver_types, receiver_shape};

    ghost types = { λ method. receiver_types (receiver_shape method) };

    fn push_types(&self, into: &mut Vec<NodeId>) -> Result<(), AllocError> {
        into.push(self.recv.ty)?;
        push_sig(&self.sig, into)
    }
}

/// Adds the types of some holders.
fn push_all<T: Holder>(holders: &[T], into: &mut Vec<NodeId>) -> Result<(), AllocError>
    ensures { OnOk result (into.new.items ≡ into.old.items ++ flat_map T.types holders.now) }
{
    for holder in holders {
        holder.push_types(into)?;
    }
    Ok(())
}

/// Adds the types that stand in a type, in reading order. Costs their number.
#[tactic(auto, using(crate::proofs::HolderLemmas::fields_types, crate::proofs::HolderLemmas::terms_types))]
pub fn push_children(node: &Node, into: &mut Vec<NodeId>) -> Result<(), AllocError>
    ensures { OnOk result (into.new.items ≡ into.old.items ++ children node.now) }
{
    match node {
        Node::Predeclared(_) | Node::Named(_) | Node::Param(_) | Node::AliasName(_) => Ok(()),
        Node::Pointer(id) | Node::Slice(id) | Node::Array(_, id) | Node::Chan(_, id) => {
            into.push(*id)?;
            Ok(())
        }
        Node::MapOf(key, id) => into.extend_from_slice(&[*key, *id]),
        Node::FuncOf(_, sig) => push_sig(sig, into),
        Node::StructOf(_, fields) => push_all(fields.items(), into),
        Node::Iface(_, embedded, methods) => push_items(embedded.items(), methods.items(), into),
        Node::Instance(base, args) => {
            into.extend_from_slice(args.items())?;
            into.push(*base)?;
            Ok(())
        }
        Node::Union(terms) => push_all(terms.items(), into),
    }
}

/// Adds the types of an interface.
fn push_items(
    embedded: &[NodeId],
    methods: &[IMethod],
    into: &mut Vec<NodeId>,
) -> Result<(), AllocError>
    ensures { OnOk result (into.new.items ≡ into.old.items
        ++ (embedded.now ++ flat_map method_types (map method_shape methods.now))) }
{
    into.extend_from_slice(embedded)?;
    push_methods_of(methods, into)
}

#[tactic(auto, using(crate::proofs::HolderLemmas::methods_types))]
fn push_methods_of(methods: &[IMethod], into: &mut Vec<NodeId>) -> Result<(), AllocError>
    ensures { OnOk result (into.new.items ≡ into.old.items ++ flat_map method_types (map method_shape methods.now)) }
{
    push_all(methods, into)
}

/// Adds the types of parameters and results.
fn push_sig(sig: &Sig, into: &mut Vec<NodeId>) -> Result<(), AllocError>
    ensures { OnOk result (into.new.items ≡ into.old.items ++ sig_types (sig_shape sig.now)) }
{
    push_params(sig.params.items(), into)?;
    push_params(sig.results.items(), into)
}

#[tactic(auto, using(crate::proofs::HolderLemmas::params_types))]
fn push_params(params: &[ParamNode], into: &mut Vec<NodeId>) -> Result<(), AllocError>
    ensures { OnOk result (into.new.items ≡ into.old.items ++ flat_map param_types (map param_shape params.now)) }
{
    push_all(params, into)
}

/// Adds the types that stand in a declaration, in reading order. Costs their number.
pub fn push_decl(decl: &DeclNode, into: &mut Vec<NodeId>) -> Result<(), AllocError>
    ensures { OnOk result (into.new.items ≡ into.old.items ++ decl_nodes decl.now) }
{
    match decl {
        DeclNode::Var { ty, .. } | DeclNode::Constant { ty, .. } => push_type(*ty, into),
        DeclNode::Func { tparams, sig, .. } => push_function(tparams.items(), sig, into),
        DeclNode::Defined {
            tparams,
            underlying,
            methods,
            ..
        } => push_defined(tparams.items(), *underlying, methods.items(), into),
        DeclNode::Alias { tparams, ty, .. } => push_alias(tparams.items(), *ty, into),
        DeclNode::Parameter { constraint, .. } => push_type(*constraint, into),
    }
}

fn push_type(ty: NodeId, into: &mut Vec<NodeId>) -> Result<(), AllocError>
    ensures { OnOk result (into.new.items ≡ into.old.items ++ ty ∷ []) }
{
    into.push(ty)?;
    Ok(())
}

fn push_function(tparams: &[NodeId], sig: &Sig, into: &mut Vec<NodeId>) -> Result<(), AllocError>
    ensures { OnOk result (into.new.items ≡ into.old.items ++ (tparams.now ++ sig_types (sig_shape sig.now))) }
{
    into.extend_from_slice(tparams)?;
    push_sig(sig, into)
}

fn push_alias(tparams: &[NodeId], ty: NodeId, into: &mut Vec<NodeId>) -> Result<(), AllocError>
    ensures { OnOk result (into.new.items ≡ into.old.items ++ (tparams.now ++ ty ∷ [])) }
{
    into.extend_from_slice(tparams)?;
    push_type(ty, into)
}

fn push_defined(
    tparams: &[NodeId],
    underlying: NodeId,
    methods: &[Method],
    into: &mut Vec<NodeId>,
) -> Result<(), AllocError>
    ensures { OnOk result (into.new.items ≡ into.old.items
        ++ (tparams.now ++ underlying ∷ flat_map receiver_types (map receiver_shape methods.now))) }
{
    push_alias(tparams, underlying, into)?;
    push_methods(methods, into)
}

#[tactic(auto, using(crate::proofs::HolderLemmas::receivers_types))]
fn push_methods(methods: &[Method], into: &mut Vec<NodeId>) -> Result<(), AllocError>
    ensures { OnOk result (into.new.items ≡ into.old.items
        ++ flat_map receiver_types (map receiver_shape methods.now)) }
{
    push_all(methods, into)
}
