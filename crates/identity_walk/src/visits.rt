//! Visits that are due.

ghost use Rattle.std.specs.Prelude.{◌≡◌, ◌<◌, ◌++◌, ◌^◌, length, OnOk};
ghost use Rattle.pair_walk.specs.Walk.{visits};
ghost use Rattle.identity_walk.specs.Walking.{due_of};

use std::alloc::AllocError;
use type_demands::Pair;

/// A pair that is still to be visited, and how many steps from part to part lead to it.
#[derive(Clone, Copy, Debug)]
pub(crate) struct Visit {
    pub(crate) pair: Pair,
    pub(crate) depth: u32,
}

/// Puts visits to these pairs before all that are due.
pub(crate) fn push_visits(
    stack: &mut Vec<Visit>,
    pairs: &[Pair],
    depth: u32,
) -> Result<(), AllocError>
    ensures pushed { OnOk result (due_of stack.new.items ≡ visits depth pairs.now ++ due_of stack.old.items) }
    ensures few { OnOk result (length stack.new.items < 2 ^ 64) }
{
    let mut left = pairs.len();
    while left > 0 {
        left -= 1;
        let pair = pairs[left];
        stack.push(Visit { pair, depth })?;
    }
    Ok(())
}
