ghost use Rattle.std.specs.Prelude.{◌≡◌};
ghost use Rattle.go_expr_syntax.specs.Reading.{Reply, ParsesAs};
ghost use Rattle.go_expr_syntax.specs.Either.{later, instead_of, after_fault};
ghost use Rattle.go_expr_syntax.specs.declared.faults.Fault.TheVariants.{Deep};

use crate::faults::{Fault, Stop};
use crate::reading::Read;
use crate::symbols::Tokens;

/// The fault that counts, where the first reading has one with this many tokens left, and the second has another.
fn later(first: Fault, left: usize, second: Fault) -> Fault
    ensures { result ≡ later first left second }
{
    let further = match second {
        Fault::Unexpected(k) => k < left,
        Fault::Deep(k, _) | Fault::DotImport(k) | Fault::Call(k, _) => k <= left,
    };
    if further { second } else { first }
}

/// The second reading, unless the first, which has this fault with so many tokens left, goes further.
fn instead<T: Drop>(first: Fault, left: usize, second: Read<'_, T>) -> Read<'_, T>
    ensures { (read : Reply T) → ParsesAs second.entry read → ParsesAs result (instead_of first left read) }
{
    match second {
        Ok(read) => {
            if read.1.len() <= left {
                Ok(read)
            } else {
                Err(Stop::At(first))
            }
        }
        Err(Stop::At(fault)) => Err(Stop::At(later(first, left, fault))),
        Err(Stop::OutOfMemory) => Err(Stop::OutOfMemory),
    }
}

/// What counts, where a path is too long in the first reading. With the same token in the second too, the
/// outermost type begins where that one does.
fn deep_in_both<T: Drop>(left: usize, began: u32, second: Read<'_, T>) -> Read<'_, T>
    ensures { (read : Reply T) → ParsesAs second.entry read → ParsesAs result (after_fault (Deep left began) read) }
{
    match second {
        Err(Stop::At(Fault::Deep(there, at))) if there == left => {
            Err(Stop::At(Fault::Deep(left, at)))
        }
        Err(Stop::OutOfMemory) => Err(Stop::OutOfMemory),
        _ => Err(Stop::At(Fault::Deep(left, began))),
    }
}

/// What counts, where the first of two readings has this fault, and the second answers so.
pub fn after_fault<T: Drop>(first: Fault, second: Read<'_, T>) -> Read<'_, T>
    ensures { (read : Reply T) → ParsesAs second.entry read → ParsesAs result (after_fault first read) }
{
    match first {
        Fault::Deep(left, began) => deep_in_both(left, began, second),
        Fault::Unexpected(left) | Fault::DotImport(left) | Fault::Call(left, _) => {
            instead(first, left, second)
        }
    }
}
