ghost use Rattle.std.specs.Prelude.{◌≡◌, ◌++◌, map, codes, if◌then◌else◌, OnOk};
ghost use Rattle.std.specs.List.{flat_map};
ghost use Rattle.type_terms.specs.Arenas.{AllBelow};
ghost use Rattle.type_terms.specs.Shapes.{param_types, sig_types};
ghost use Rattle.type_terms.specs.NodeShapes.{param_shape, sig_shape};
ghost use Rattle.decl_text.specs.Joined.{joined};
ghost use Rattle.decl_text.specs.TypeText.{param_text, dotted, spread, params_text, results_text};
ghost use Rattle.decl_text.specs.PieceText.{described_param, described_params, sig_line};
ghost use Rattle.decl_text.specs.Referring.{refer, node_count};

use crate::escapes::put_printed;
use crate::naming::put_reference;
use crate::pieces::{Piece, put_between, put_joined};
use crate::references::References;
use crate::words::put_param_name;
use std::alloc::AllocError;
use type_terms::{IMethod, ParamNode, Sig};

/// Adds parameters and results.
pub fn put_sig(line: &mut Vec<u8>, sig: &Sig, names: &References<'_>) -> Result<(), AllocError>
    requires { AllBelow (node_count names.now) (sig_types (sig_shape sig.now)) }
    ensures { OnOk result (line.new.items ≡ line.old.items ++ sig_line (refer names.now) sig.now) }
{
    put_params(line, sig.params.items(), sig.variadic, names)?;
    put_results(line, sig.results.items(), names)
}

/// Adds parameters in parentheses.
fn put_params(
    line: &mut Vec<u8>,
    params: &[ParamNode],
    variadic: bool,
    names: &References<'_>,
) -> Result<(), AllocError>
    requires { AllBelow (node_count names.now) (flat_map param_types (map param_shape params.now)) }
    ensures { OnOk result (line.new.items ≡ line.old.items ++ params_text (if variadic
        then spread (described_params (refer names.now) params.now)
        else described_params (refer names.now) params.now)) }
{
    line.extend_from_slice(b"(")?;
    put_param_list(line, params, variadic, names)?;
    line.extend_from_slice(b")")
}

/// Adds parameters with commas between them.
fn put_param_list(
    line: &mut Vec<u8>,
    params: &[ParamNode],
    variadic: bool,
    names: &References<'_>,
) -> Result<(), AllocError>
    requires { AllBelow (node_count names.now) (flat_map param_types (map param_shape params.now)) }
    ensures { OnOk result (line.new.items ≡ line.old.items
        ++ joined (codes ", ") (map param_text (if variadic then spread (described_params (refer names.now) params.now)
        else described_params (refer names.now) params.now))) }
{
    if variadic {
        put_spread_list(line, params, names)
    } else {
        put_plain_list(line, params, names)
    }
}

/// Adds the parameters of a signature that isn't variadic, or results.
#[tactic(auto, using(crate::proofs::Fused::params_types, crate::proofs::Fused::params_lines))]
fn put_plain_list(
    line: &mut Vec<u8>,
    params: &[ParamNode],
    names: &References<'_>,
) -> Result<(), AllocError>
    requires { AllBelow (node_count names.now) (flat_map param_types (map param_shape params.now)) }
    ensures { OnOk result (line.new.items ≡ line.old.items
        ++ joined (codes ", ") (map param_text (described_params (refer names.now) params.now))) }
{
    put_joined(line, params, b", ", names)
}

/// Adds the parameters of a variadic signature.
fn put_spread_list(
    line: &mut Vec<u8>,
    params: &[ParamNode],
    names: &References<'_>,
) -> Result<(), AllocError>
    requires { AllBelow (node_count names.now) (flat_map param_types (map param_shape params.now)) }
    ensures { OnOk result (line.new.items ≡ line.old.items
        ++ joined (codes ", ") (map param_text (spread (described_params (refer names.now) params.now)))) }
{
    let [front @ .., last] = params else {
        return Ok(());
    };
    put_joined(line, front, b", ", names)?;
    put_between(line, b", ", front.len(), 1)?;
    put_spread(line, last, names)
}

/// Adds the last parameter of a variadic signature.
fn put_spread(
    line: &mut Vec<u8>,
    param: &ParamNode,
    names: &References<'_>,
) -> Result<(), AllocError>
    requires { AllBelow (node_count names.now) (param_types (param_shape param.now)) }
    ensures { OnOk result (line.new.items ≡ line.old.items
        ++ param_text (dotted (described_param (refer names.now) (param_shape param.now)))) }
{
    put_param_name(line, param.name.as_slice())?;
    line.extend_from_slice(b" ...")?;
    put_reference(line, param.ty, names)
}

/// Adds results, if there are any.
fn put_results(
    line: &mut Vec<u8>,
    results: &[ParamNode],
    names: &References<'_>,
) -> Result<(), AllocError>
    requires { AllBelow (node_count names.now) (flat_map param_types (map param_shape results.now)) }
    ensures { OnOk result (line.new.items ≡ line.old.items
        ++ results_text (described_params (refer names.now) results.now)) }
{
    match results {
        [] => Ok(()),
        results => {
            line.extend_from_slice(b" ")?;
            put_params(line, results, false, names)
        }
    }
}

impl Piece for IMethod {
    ghost use Rattle.type_terms.specs.Shapes.{method_types};
    ghost use Rattle.type_terms.specs.NodeShapes.{method_shape};
    ghost use Rattle.decl_text.specs.PieceText.{method_line};

    ghost types = { λ method. method_types (method_shape method) };

    ghost text = { method_line };

    fn put(&self, line: &mut Vec<u8>, names: &References<'_>) -> Result<(), AllocError> {
        put_printed(line, self.name.as_slice())?;
        put_sig(line, &self.sig, names)
    }
}
