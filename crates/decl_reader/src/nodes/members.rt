//! Parameters, signatures, fields, methods and terms.

ghost use Rattle.std.specs.Prelude.{◌≡◌, []};

use crate::fault::DeclFault;
use crate::nodes::kept::Kept;
use crate::table::Table;
use block_reader::{FieldParts, MethodParts, Param, ReceiverParts, Signature, TermParts};
use go_values::Bytes;
use std::alloc::Global;
use type_terms::{Arena, Field, IMethod, Method, Origin, ParamNode, Sig, Term};

/// Literals of full files stand in no other package.
fn no_origin(alloc: Global) -> Origin
    ensures { result ≡ record { text = []; path = [] } }
{
    Origin {
        text: Bytes::new(alloc),
        path: Bytes::new(alloc),
    }
}

impl Kept for Param {
    ghost use Rattle.go_values.specs.declared.positions.Pos.{Pos};
    ghost use Rattle.type_terms.specs.Shapes.{ParamOf, param_types};
    ghost use Rattle.type_terms.specs.Trees.{Text, Tree};
    ghost use Rattle.std.specs.Prelude.{ℕ};
    ghost use Rattle.type_terms.specs.NodeShapes.{param_shape as node_param};
    ghost use Rattle.decl_reader.specs.Shapes.{param_shape};
    ghost use Rattle.decl_reader.specs.Meant.{param_meant, param_agrees};

    type Item = ParamNode;

    ghost Shape = { ParamOf Pos Text ℕ };

    ghost shape = { param_shape };

    ghost item_shape = { node_param };

    ghost types = { param_types };

    ghost Meaning = { ParamOf Pos Text Tree };

    ghost meant = { param_meant };

    ghost agrees = { param_agrees };

    fn with_nodes(
        self,
        alloc: Global,
        version: u8,
        table: &Table,
        arena: &mut Arena,
    ) -> Result<ParamNode, DeclFault> {
        let ty = self.ty.with_nodes(alloc, version, table, arena)?;
        Ok(ParamNode {
            pos: self.pos.pos,
            name: self.name.text,
            ty,
        })
    }
}

impl Kept for Signature {
    ghost use Rattle.go_values.specs.declared.positions.Pos.{Pos};
    ghost use Rattle.type_terms.specs.Shapes.{SigOf, sig_types};
    ghost use Rattle.type_terms.specs.Trees.{Text, Tree};
    ghost use Rattle.std.specs.Prelude.{ℕ};
    ghost use Rattle.type_terms.specs.NodeShapes.{sig_shape as node_sig};
    ghost use Rattle.decl_reader.specs.Shapes.{sig_shape};
    ghost use Rattle.decl_reader.specs.Meant.{sig_meant, signature_agrees};

    type Item = Sig;

    ghost Shape = { SigOf Pos Text ℕ };

    ghost shape = { sig_shape };

    ghost item_shape = { node_sig };

    ghost types = { sig_types };

    ghost Meaning = { SigOf Pos Text Tree };

    ghost meant = { sig_meant };

    ghost agrees = { signature_agrees };

    fn with_nodes(
        self,
        alloc: Global,
        version: u8,
        table: &Table,
        arena: &mut Arena,
    ) -> Result<Sig, DeclFault> {
        let lists = (self.params, self.results);
        let (params, results) = lists.with_nodes(alloc, version, table, arena)?;
        Ok(Sig {
            params,
            results,
            variadic: self.variadic,
        })
    }
}

impl Kept for FieldParts {
    ghost use Rattle.go_values.specs.declared.positions.Pos.{Pos};
    ghost use Rattle.type_terms.specs.Shapes.{FieldOf, field_types};
    ghost use Rattle.type_terms.specs.Trees.{Text, Tree};
    ghost use Rattle.std.specs.Prelude.{ℕ};
    ghost use Rattle.type_terms.specs.NodeShapes.{field_shape as node_field};
    ghost use Rattle.decl_reader.specs.Shapes.{field_shape};
    ghost use Rattle.decl_reader.specs.Meant.{field_meant, field_agrees};

    type Item = Field;

    ghost Shape = { FieldOf Pos Text Text ℕ };

    ghost shape = { field_shape };

    ghost item_shape = { node_field };

    ghost types = { field_types };

    ghost Meaning = { FieldOf Pos Text Text Tree };

    ghost meant = { field_meant };

    ghost agrees = { field_agrees };

    fn with_nodes(
        self,
        alloc: Global,
        version: u8,
        table: &Table,
        arena: &mut Arena,
    ) -> Result<Field, DeclFault> {
        let ty = self.ty.with_nodes(alloc, version, table, arena)?;
        Ok(Field {
            origin: no_origin(alloc),
            pos: self.pos.pos,
            name: self.name.text,
            ty,
            embedded: self.embedded,
            tag: self.tag.text,
        })
    }
}

impl Kept for MethodParts {
    ghost use Rattle.go_values.specs.declared.positions.Pos.{Pos};
    ghost use Rattle.type_terms.specs.Shapes.{MethodOf, method_types};
    ghost use Rattle.type_terms.specs.Trees.{Text, Tree};
    ghost use Rattle.std.specs.Prelude.{ℕ};
    ghost use Rattle.type_terms.specs.NodeShapes.{method_shape as node_method};
    ghost use Rattle.decl_reader.specs.Shapes.{method_shape};
    ghost use Rattle.decl_reader.specs.Meant.{method_meant, method_agrees};

    type Item = IMethod;

    ghost Shape = { MethodOf Pos Text Text ℕ };

    ghost shape = { method_shape };

    ghost item_shape = { node_method };

    ghost types = { method_types };

    ghost Meaning = { MethodOf Pos Text Text Tree };

    ghost meant = { method_meant };

    ghost agrees = { method_agrees };

    fn with_nodes(
        self,
        alloc: Global,
        version: u8,
        table: &Table,
        arena: &mut Arena,
    ) -> Result<IMethod, DeclFault> {
        let sig = self.signature.with_nodes(alloc, version, table, arena)?;
        Ok(IMethod {
            origin: no_origin(alloc),
            pos: self.pos.pos,
            name: self.name.text,
            sig,
        })
    }
}

impl Kept for TermParts {
    ghost use Rattle.type_terms.specs.Shapes.{TermOf, term_types};
    ghost use Rattle.type_terms.specs.Trees.{Tree};
    ghost use Rattle.std.specs.Prelude.{ℕ};
    ghost use Rattle.type_terms.specs.NodeShapes.{term_shape as node_term};
    ghost use Rattle.decl_reader.specs.Shapes.{term_shape};
    ghost use Rattle.decl_reader.specs.Meant.{term_meant, term_agrees};

    type Item = Term;

    ghost Shape = { TermOf ℕ };

    ghost shape = { term_shape };

    ghost item_shape = { node_term };

    ghost types = { term_types };

    ghost Meaning = { TermOf Tree };

    ghost meant = { term_meant };

    ghost agrees = { term_agrees };

    fn with_nodes(
        self,
        alloc: Global,
        version: u8,
        table: &Table,
        arena: &mut Arena,
    ) -> Result<Term, DeclFault> {
        let ty = self.ty.with_nodes(alloc, version, table, arena)?;
        Ok(Term {
            tilde: self.tilde,
            ty,
        })
    }
}

impl Kept for ReceiverParts {
    ghost use Rattle.go_values.specs.declared.positions.Pos.{Pos};
    ghost use Rattle.type_terms.specs.Declarations.{ReceiverOf, receiver_types, receiver_shape as node_receiver};
    ghost use Rattle.type_terms.specs.Trees.{Text, Tree};
    ghost use Rattle.std.specs.Prelude.{ℕ};
    ghost use Rattle.decl_reader.specs.Forms.{receiver_shape};
    ghost use Rattle.decl_reader.specs.Meant.{receiver_meant, receiver_agrees};

    type Item = Method;

    ghost Shape = { ReceiverOf Pos Text ℕ };

    ghost shape = { receiver_shape };

    ghost item_shape = { node_receiver };

    ghost types = { receiver_types };

    ghost Meaning = { ReceiverOf Pos Text Tree };

    ghost meant = { receiver_meant };

    ghost agrees = { receiver_agrees };

    fn with_nodes(
        self,
        alloc: Global,
        version: u8,
        table: &Table,
        arena: &mut Arena,
    ) -> Result<Method, DeclFault> {
        let types = (self.recv, self.signature);
        let (recv, sig) = types.with_nodes(alloc, version, table, arena)?;
        Ok(Method {
            pos: self.pos.pos,
            name: self.name.text,
            recv,
            sig,
        })
    }
}
