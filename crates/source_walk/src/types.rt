ghost use Rattle.std.specs.Prelude.{◌≡◌, OnOk, map};
ghost use Rattle.go_type_syntax.specs.PlainTypes.{types_of, params_of, fields_of, elems_of, terms_of};
ghost use Rattle.source_trees.specs.Trees.{written_expr, written_type, written_sig, written_field, written_param};
ghost use Rattle.source_trees.specs.Trees.{written_elem, written_term};
ghost use Rattle.source_walk.specs.Rows.{scope_in};
ghost use Rattle.source_walk.specs.Seen.{seen};
ghost use Rattle.source_walk.specs.Visits.{expr_visits, type_visits, types_visits, sig_visits, params_visits};
ghost use Rattle.source_walk.specs.Visits.{fields_visits, elems_visits, elem_visits, terms_visits};

use crate::spots::Spot;
use crate::visitor::{Around, Visitor};
use go_syntax::{ElemExpr, Expr, FieldExpr, ParamExpr, SigExpr, TermExpr, TypeExpr};

/// Sees an expression and its operands.
#[tactic(auto, using(source_trees::proofs::Equations::exprs, crate::proofs::SeenLaws::steps))]
pub fn visit_expr<V: Visitor>(
    visitor: &mut V,
    around: &Around<'_>,
    spot: Spot,
    expr: &Expr,
) -> Result<(), V::Stop>
    ensures told { OnOk result (V.told visitor.new ≡ seen V.join (V.tells visitor.old) (V.told visitor.old)
        (expr_visits spot (scope_in around.now.source.now around.now.top.now)
        (written_expr around.now.source.now expr.now))) }
    ensures kept { V.tells visitor.new ≡ V.tells visitor.old }
{
    visitor.at_expr(around, spot, expr)?;
    match expr {
        Expr::Literal { .. } | Expr::Name { .. } => Ok(()),
        Expr::Convert { arg, .. } => visit_expr(visitor, around, spot, arg.get()),
        Expr::Paren { arg, .. } => visit_expr(visitor, around, spot, arg.get()),
        Expr::Unary { arg, .. } => visit_expr(visitor, around, spot, arg.get()),
        Expr::Binary { left, right, .. } => {
            visit_expr(visitor, around, spot, left.get())?;
            visit_expr(visitor, around, spot, right.get())
        }
    }
}

/// Sees a type and what stands in it.
#[cycle(types)]
#[tactic(auto, using(source_trees::proofs::Equations::types, crate::proofs::SeenLaws::steps))]
pub fn visit_type<V: Visitor>(
    visitor: &mut V,
    around: &Around<'_>,
    spot: Spot,
    ty: &TypeExpr,
) -> Result<(), V::Stop>
    ensures told { OnOk result (V.told visitor.new ≡ seen V.join (V.tells visitor.old) (V.told visitor.old)
        (type_visits spot (scope_in around.now.source.now around.now.top.now)
        (written_type around.now.source.now ty.now))) }
    ensures kept { V.tells visitor.new ≡ V.tells visitor.old }
{
    visitor.at_type(around, spot, ty)?;
    let inside = spot.inside();
    match ty {
        TypeExpr::Name { args, .. } => visit_types(visitor, around, inside, args.as_slice()),
        TypeExpr::Paren { ty, .. } => visit_type(visitor, around, spot, ty.get()),
        TypeExpr::Pointer { ty, .. } => visit_type(visitor, around, inside, ty.get()),
        TypeExpr::Slice { ty, .. } => visit_type(visitor, around, inside, ty.get()),
        TypeExpr::Array { length, ty, .. } => {
            visit_expr(visitor, around, inside, length.get())?;
            visit_type(visitor, around, inside, ty.get())
        }
        TypeExpr::MapOf { key, ty, .. } => {
            visit_type(visitor, around, inside, key.get())?;
            visit_type(visitor, around, inside, ty.get())
        }
        TypeExpr::Chan { ty, .. } => visit_type(visitor, around, inside, ty.get()),
        TypeExpr::Func { sig, .. } => visit_sig(visitor, around, inside, sig),
        TypeExpr::Struct { fields, .. } => visit_fields(visitor, around, inside, fields.as_slice()),
        TypeExpr::Interface { elems, .. } => visit_elems(visitor, around, spot, elems.as_slice()),
        TypeExpr::Union { terms, .. } => visit_terms(
            visitor,
            around,
            spot.term(),
            terms.as_slice(),
        ),
    }
}

/// Sees the arguments of a generic type.
#[cycle(types)]
#[tactic(auto, using(source_trees::proofs::Equations::types, crate::proofs::SeenLaws::steps))]
fn visit_types<V: Visitor>(
    visitor: &mut V,
    around: &Around<'_>,
    spot: Spot,
    types: &[TypeExpr],
) -> Result<(), V::Stop>
    ensures told { OnOk result (V.told visitor.new ≡ seen V.join (V.tells visitor.old) (V.told visitor.old)
        (types_visits spot (scope_in around.now.source.now around.now.top.now)
        (types_of (map (written_type around.now.source.now) types.now)))) }
    ensures kept { V.tells visitor.new ≡ V.tells visitor.old }
{
    for ty in types {
        visit_type(visitor, around, spot, ty)?;
    }
    Ok(())
}

/// Sees the types of parameters and results.
#[cycle(types)]
#[tactic(auto, using(source_trees::proofs::Equations::types, crate::proofs::SeenLaws::steps))]
pub fn visit_sig<V: Visitor>(
    visitor: &mut V,
    around: &Around<'_>,
    spot: Spot,
    sig: &SigExpr,
) -> Result<(), V::Stop>
    ensures told { OnOk result (V.told visitor.new ≡ seen V.join (V.tells visitor.old) (V.told visitor.old)
        (sig_visits spot (scope_in around.now.source.now around.now.top.now)
        (written_sig around.now.source.now sig.now))) }
    ensures kept { V.tells visitor.new ≡ V.tells visitor.old }
{
    visit_params(visitor, around, spot, sig.params.as_slice())?;
    visit_params(visitor, around, spot, sig.results.as_slice())
}

/// Sees the types of parameters.
#[cycle(types)]
#[tactic(auto, using(source_trees::proofs::Equations::types, crate::proofs::SeenLaws::steps))]
fn visit_params<V: Visitor>(
    visitor: &mut V,
    around: &Around<'_>,
    spot: Spot,
    params: &[ParamExpr],
) -> Result<(), V::Stop>
    ensures told { OnOk result (V.told visitor.new ≡ seen V.join (V.tells visitor.old) (V.told visitor.old)
        (params_visits spot (scope_in around.now.source.now around.now.top.now)
        (params_of (map (written_param around.now.source.now) params.now)))) }
    ensures kept { V.tells visitor.new ≡ V.tells visitor.old }
{
    for param in params {
        visit_type(visitor, around, spot, &param.ty)?;
    }
    Ok(())
}

/// Sees the types of fields.
#[cycle(types)]
#[tactic(auto, using(source_trees::proofs::Equations::types, crate::proofs::SeenLaws::steps))]
fn visit_fields<V: Visitor>(
    visitor: &mut V,
    around: &Around<'_>,
    spot: Spot,
    fields: &[FieldExpr],
) -> Result<(), V::Stop>
    ensures told { OnOk result (V.told visitor.new ≡ seen V.join (V.tells visitor.old) (V.told visitor.old)
        (fields_visits spot (scope_in around.now.source.now around.now.top.now)
        (fields_of (map (written_field around.now.source.now) fields.now)))) }
    ensures kept { V.tells visitor.new ≡ V.tells visitor.old }
{
    for field in fields {
        visit_type(visitor, around, spot, &field.ty)?;
    }
    Ok(())
}

/// Sees the elements of an interface.
#[cycle(types)]
#[tactic(auto, using(source_trees::proofs::Equations::types, crate::proofs::SeenLaws::steps))]
fn visit_elems<V: Visitor>(
    visitor: &mut V,
    around: &Around<'_>,
    spot: Spot,
    elems: &[ElemExpr],
) -> Result<(), V::Stop>
    ensures told { OnOk result (V.told visitor.new ≡ seen V.join (V.tells visitor.old) (V.told visitor.old)
        (elems_visits spot (scope_in around.now.source.now around.now.top.now)
        (elems_of (map (written_elem around.now.source.now) elems.now)))) }
    ensures kept { V.tells visitor.new ≡ V.tells visitor.old }
{
    for elem in elems {
        visit_elem(visitor, around, spot, elem)?;
    }
    Ok(())
}

/// Sees the signature of a method, or an embedded type.
#[cycle(types)]
#[tactic(auto, using(source_trees::proofs::Equations::types, crate::proofs::SeenLaws::steps))]
fn visit_elem<V: Visitor>(
    visitor: &mut V,
    around: &Around<'_>,
    spot: Spot,
    elem: &ElemExpr,
) -> Result<(), V::Stop>
    ensures told { OnOk result (V.told visitor.new ≡ seen V.join (V.tells visitor.old) (V.told visitor.old)
        (elem_visits spot (scope_in around.now.source.now around.now.top.now)
        (written_elem around.now.source.now elem.now))) }
    ensures kept { V.tells visitor.new ≡ V.tells visitor.old }
{
    match elem {
        ElemExpr::Method { sig, .. } => visit_sig(visitor, around, spot.inside(), sig),
        ElemExpr::Embedded { ty, .. } => visit_type(visitor, around, spot.element(), ty),
    }
}

/// Sees the terms of a union.
#[cycle(types)]
#[tactic(auto, using(source_trees::proofs::Equations::types, crate::proofs::SeenLaws::steps))]
fn visit_terms<V: Visitor>(
    visitor: &mut V,
    around: &Around<'_>,
    spot: Spot,
    terms: &[TermExpr],
) -> Result<(), V::Stop>
    ensures told { OnOk result (V.told visitor.new ≡ seen V.join (V.tells visitor.old) (V.told visitor.old)
        (terms_visits spot (scope_in around.now.source.now around.now.top.now)
        (terms_of (map (written_term around.now.source.now) terms.now)))) }
    ensures kept { V.tells visitor.new ≡ V.tells visitor.old }
{
    for term in terms {
        visit_type(visitor, around, spot, &term.ty)?;
    }
    Ok(())
}
