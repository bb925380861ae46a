ghost use Rattle.std.specs.Prelude.{◌≡◌, ◌++◌, OnOk, map};
ghost use Rattle.source_trees.specs.Trees.{written_expr, type_if_any};
ghost use Rattle.source_trees.specs.Files.{written_tparam, written_type_spec, written_func, written_top, written_tops};
ghost use Rattle.source_walk.specs.Rows.{scope_in};
ghost use Rattle.source_walk.specs.Seen.{seen};
ghost use Rattle.source_walk.specs.Visits.{numbered, type_if_any_visits, value_visits};
ghost use Rattle.source_walk.specs.Visits.{tparams_visits, type_spec_visits};
ghost use Rattle.source_walk.specs.Visits.{func_visits, inside_top, top_visits};

use crate::spots::Spot;
use crate::types::{visit_expr, visit_sig, visit_type};
use crate::visitor::{Around, Visitor};
use go_syntax::{ConstSpec, Expr, FuncDecl, TParam, Top, TypeExpr, TypeSpec};
use source_trees::repeated;

/// Sees the written type of constants or variables.
fn visit_type_if_any<V: Visitor>(
    visitor: &mut V,
    around: &Around<'_>,
    spot: Spot,
    ty: &Option<TypeExpr>,
) -> Result<(), V::Stop>
    ensures told { OnOk result (V.told visitor.new ≡ seen V.join (V.tells visitor.old) (V.told visitor.old)
        (type_if_any_visits spot (scope_in around.now.source.now around.now.top.now)
        (type_if_any around.now.source.now ty.now))) }
    ensures kept { V.tells visitor.new ≡ V.tells visitor.old }
{
    match ty {
        Some(ty) => visit_type(visitor, around, spot, ty),
        None => Ok(()),
    }
}

/// Sees the values of constants.
fn visit_values<V: Visitor>(
    visitor: &mut V,
    around: &Around<'_>,
    spot: Spot,
    values: &[Expr],
) -> Result<(), V::Stop>
    ensures told { OnOk result (V.told visitor.new ≡ seen V.join (V.tells visitor.old) (V.told visitor.old)
        (numbered (value_visits spot (scope_in around.now.source.now around.now.top.now)) 0
        (map (written_expr around.now.source.now) values.now))) }
    ensures kept { V.tells visitor.new ≡ V.tells visitor.old }
{
    for (item, value) in values.iter().enumerate() {
        visit_expr(visitor, around, spot.value_of(item), value)?;
    }
    Ok(())
}

/// Sees the constraints of type parameters.
fn visit_tparams<V: Visitor>(
    visitor: &mut V,
    around: &Around<'_>,
    spot: Spot,
    tparams: &[TParam],
) -> Result<(), V::Stop>
    ensures told { OnOk result (V.told visitor.new ≡ seen V.join (V.tells visitor.old) (V.told visitor.old)
        (tparams_visits spot (scope_in around.now.source.now around.now.top.now)
        (map (written_tparam around.now.source.now) tparams.now))) }
    ensures kept { V.tells visitor.new ≡ V.tells visitor.old }
{
    for tparam in tparams {
        visit_type(visitor, around, spot.constraint(), &tparam.constraint)?;
    }
    Ok(())
}

/// Sees the type and the values that constants have.
fn visit_constants<V: Visitor>(
    visitor: &mut V,
    around: &Around<'_>,
    spot: Spot,
    found: &ConstSpec,
) -> Result<(), V::Stop>
    ensures told { OnOk result (V.told visitor.new ≡ seen V.join (V.tells visitor.old) (V.told visitor.old)
        (type_if_any_visits spot (scope_in around.now.source.now around.now.top.now)
        (type_if_any around.now.source.now found.now.ty)
        ++ numbered (value_visits spot (scope_in around.now.source.now around.now.top.now)) 0
        (map (written_expr around.now.source.now) found.now.values))) }
    ensures kept { V.tells visitor.new ≡ V.tells visitor.old }
{
    visit_type_if_any(visitor, around, spot, &found.ty)?;
    visit_values(visitor, around, spot, found.values.as_slice())
}

/// Sees the type parameters and the right side of a type or an alias.
fn visit_type_spec<V: Visitor>(
    visitor: &mut V,
    around: &Around<'_>,
    spot: Spot,
    declared: &TypeSpec,
) -> Result<(), V::Stop>
    ensures told { OnOk result (V.told visitor.new ≡ seen V.join (V.tells visitor.old) (V.told visitor.old)
        (type_spec_visits spot (scope_in around.now.source.now around.now.top.now)
        (written_type_spec around.now.source.now declared.now))) }
    ensures kept { V.tells visitor.new ≡ V.tells visitor.old }
{
    visit_tparams(visitor, around, spot, declared.tparams.as_slice())?;
    visit_type(visitor, around, spot.right_side(), &declared.ty)
}

/// Sees the type parameters and the signature of a function or method.
fn visit_func<V: Visitor>(
    visitor: &mut V,
    around: &Around<'_>,
    spot: Spot,
    func: &FuncDecl,
) -> Result<(), V::Stop>
    ensures told { OnOk result (V.told visitor.new ≡ seen V.join (V.tells visitor.old) (V.told visitor.old)
        (func_visits spot (scope_in around.now.source.now around.now.top.now)
        (written_func around.now.source.now func.now))) }
    ensures kept { V.tells visitor.new ≡ V.tells visitor.old }
{
    visit_tparams(visitor, around, spot, func.tparams.as_slice())?;
    visit_sig(visitor, around, spot.signature(), &func.sig)
}

/// Sees what stands in a declaration.
fn visit_inside<V: Visitor>(visitor: &mut V, around: &Around<'_>, spot: Spot) -> Result<(), V::Stop>
    ensures told { OnOk result (V.told visitor.new ≡ seen V.join (V.tells visitor.old) (V.told visitor.old)
        (inside_top spot (scope_in around.now.source.now around.now.top.now)
        (written_top around.now.source.now around.now.tops.now spot.top around.now.top.now))) }
    ensures kept { V.tells visitor.new ≡ V.tells visitor.old }
{
    match around.top {
        Top::Constant(constants) => {
            let found = repeated(around.tops, spot.top, constants);
            visit_constants(visitor, around, spot, found)
        }
        Top::Var(variables) => visit_type_if_any(visitor, around, spot, &variables.ty),
        Top::Defined(declared) | Top::Alias(declared) => visit_type_spec(
            visitor, around, spot, declared,
        ),
        Top::Func(func) => visit_func(visitor, around, spot, func),
    }
}

/// Sees the declaration with this number of a file with this number, and what stands in it.
#[tactic(auto, using(crate::proofs::TopLaws::tops))]
pub fn visit_top<V: Visitor>(
    visitor: &mut V,
    file: usize,
    source: &[u8],
    tops: &[Top],
    number: usize,
    top: &Top,
) -> Result<(), V::Stop>
    ensures told { OnOk result (V.told visitor.new ≡ seen V.join (V.tells visitor.old) (V.told visitor.old)
        (top_visits file number (written_top source.now tops.now number top.now))) }
    ensures kept { V.tells visitor.new ≡ V.tells visitor.old }
{
    let around = Around { source, tops, top };
    let spot = Spot::start(file, number, top);
    visitor.at_top(&around, spot)?;
    visit_inside(visitor, &around, spot)
}

/// Sees the declarations of a file.
pub(crate) fn visit_tops<V: Visitor>(
    visitor: &mut V,
    file: usize,
    source: &[u8],
    tops: &[Top],
) -> Result<(), V::Stop>
    ensures told { OnOk result (V.told visitor.new ≡ seen V.join (V.tells visitor.old) (V.told visitor.old)
        (numbered (top_visits file) 0 (written_tops source.now tops.now 0 tops.now))) }
    ensures kept { V.tells visitor.new ≡ V.tells visitor.old }
{
    for (number, top) in tops.iter().enumerate() {
        visit_top(visitor, file, source, tops, number, top)?;
    }
    Ok(())
}
