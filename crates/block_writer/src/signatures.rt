//! Parameters and signatures.

ghost use Rattle.std.specs.Prelude.{OnOk, map};
ghost use Rattle.type_terms.specs.NodeShapes.{param_shape, sig_shape};
ghost use Rattle.type_terms.specs.Shapes.{param_map, sig_map};
ghost use Rattle.file_layout.specs.Items.{list_items, param_items, variadic_items, sig_items};
ghost use Rattle.block_writer.specs.Adding.{Adds, params_over, sig_over};

use crate::items::Item;
use crate::lists::{Listed, push_list};
use std::alloc::AllocError;
use type_terms::{ParamNode, Sig};

impl Listed for ParamNode {
    ghost use Rattle.file_layout.specs.Items.{param_items};
    ghost use Rattle.block_writer.specs.Adding.{param_over};

    ghost items = { λ type x. param_items (param_over type x) };

    fn push<'a>(&'a self, into: &mut Vec<Item<'a>>) -> Result<(), AllocError> {
        into.extend_from_slice(&[
            Item::Position(&self.pos),
            Item::Text(self.name.as_slice()),
            Item::Type(self.ty),
        ])
    }
}

#[tactic(auto, using(crate::proofs::Fused::params_fused))]
fn push_params<'a>(params: &'a [ParamNode], into: &mut Vec<Item<'a>>) -> Result<(), AllocError>
    ensures { OnOk result (Adds into.old.items into.new.items
        (λ type. list_items param_items (params_over type params.now))) }
{
    push_list(params, into)
}

/// The flag stands only where there is a parameter.
fn push_variadic(
    params: &[ParamNode],
    variadic: bool,
    into: &mut Vec<Item<'_>>,
) -> Result<(), AllocError>
    ensures { OnOk result (Adds into.old.items into.new.items
        (λ type. variadic_items (params_over type params.now) variadic)) }
{
    if params.is_empty() {
        return Ok(());
    }
    into.extend_from_slice(&[Item::Flag(variadic)])
}

/// Adds the parameters, the results, and whether the last parameter is variadic.
pub(crate) fn push_sig<'a>(sig: &'a Sig, into: &mut Vec<Item<'a>>) -> Result<(), AllocError>
    ensures { OnOk result (Adds into.old.items into.new.items (λ type. sig_items (sig_over type sig.now))) }
{
    push_params(sig.params.items(), into)?;
    push_params(sig.results.items(), into)?;
    push_variadic(sig.params.items(), sig.variadic, into)
}
