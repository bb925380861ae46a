//! The methods of an interface in the order in which they are written.

ghost use Rattle.std.specs.Prelude.{OnOk};
ghost use Rattle.written_nodes.specs.Making.{InOrder};

use std::alloc::AllocError;
use type_terms::IMethod;

/// Puts methods into the bytewise order of their names, those of one name as they stand.
pub(crate) fn sort_methods(methods: &mut Vec<IMethod>) -> Result<(), AllocError>
    ensures { OnOk result (InOrder methods.old.items methods.new.items) }
{
    methods.sort_by(|x, y| x.name.as_slice().cmp(y.name.as_slice()))
}
