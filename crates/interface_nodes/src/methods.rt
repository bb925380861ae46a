//! Methods of type sets.

ghost use Rattle.std.specs.Prelude.{◌≡◌, List, IfOk, map};
ghost use Rattle.environments.specs.Exported.{exported};
ghost use Rattle.interface_nodes.specs.HeldNodes.{set_method_of, home_of, error_at};

use environments::is_exported;
use go_values::{Bytes, Pos};
use std::alloc::{AllocError, Global};
use type_terms::{IMethod, NodeId, ParamNode, Params, Sig};

/// A method of a type set. Its home is the package of the interface that has it, where the name isn't exported, and
/// else empty: methods with equal names and homes are the same method of a set.
#[derive(Clone, Debug, Drop, PartialEq, Eq)]
pub struct SetMethod {
    pub name: Bytes,
    pub home: Bytes,
    pub sig: Sig,
}

/// The methods of an interface literal with this home, in their order.
pub(crate) fn own_methods(
    alloc: Global,
    home: &Bytes,
    methods: &[IMethod],
) -> Result<Vec<SetMethod>, AllocError>
    ensures { IfOk result (λ own. own.items ≡ map (set_method_of home.now) methods.now) }
{
    let mut own = Vec::new(alloc);
    for method in methods {
        own.push(set_method(alloc, home, method)?)?;
    }
    Ok(own)
}

fn set_method(alloc: Global, home: &Bytes, method: &IMethod) -> Result<SetMethod, AllocError>
    ensures { IfOk result (λ made. made ≡ set_method_of home.now method.now) }
{
    let name = method.name.clone()?;
    let home = home_for(alloc, home, &method.name)?;
    let sig = method.sig.clone()?;
    Ok(SetMethod { name, home, sig })
}

/// The home of a method with this name.
fn home_for(alloc: Global, home: &Bytes, name: &Bytes) -> Result<Bytes, AllocError>
    ensures { IfOk result (λ own. own ≡ home_of home.now name.now) }
{
    if is_exported(name.as_slice()) {
        Ok(Bytes::new(alloc))
    } else {
        home.clone()
    }
}

/// The method of `error`, where this is the node of `string`.
pub(crate) fn error_method(alloc: Global, string: NodeId) -> Result<SetMethod, AllocError>
    ensures { IfOk result (λ made. made ≡ error_at string) }
{
    let mut results = Vec::new(alloc);
    results.push(ParamNode {
        pos: Pos::Nowhere,
        name: Bytes::new(alloc),
        ty: string,
    })?;
    let name = Bytes::from_slice(alloc, b"Error")?;
    Ok(SetMethod {
        name,
        home: Bytes::new(alloc),
        sig: Sig {
            params: Params::from_items(Vec::new(alloc)),
            results: Params::from_items(results),
            variadic: false,
        },
    })
}
