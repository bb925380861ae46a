//! What the calls say together.
ghost use Rattle.std.specs.Prelude.{◌≡◌, Some};

use crate::code_table::CodeTable;
use crate::ordinals::Coded;

/// The ordinal of a value leads back to it.
pub fn by_ordinal<T: Coded>(value: T) -> Option<T>
    ensures { result ≡ Some value }
{
    T::of_ordinal(value.ordinal())
}

/// The code of a value leads back to it, in every table.
pub fn by_code<T: Coded, const N: usize>(table: &CodeTable<T, N>, value: T) -> Option<T>
    ensures { result ≡ Some value }
{
    table.of_code(u64::from(table.code_of(value)))
}
