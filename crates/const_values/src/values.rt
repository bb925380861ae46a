ghost use Rattle.std.specs.Prelude.{IsTrue, ◌↔◌};

use crate::kinds::{admits, in_range};
use code_tables::Basic;
use go_values::Const;

/// A constant: a value of a basic kind. The calls of this crate ask that it is one of its kind: a truth
/// value, a text, or a whole number in the range of its kind, which for an untyped one is from -2^127 to
/// 2^127 - 1.
#[derive(Clone, Debug, Drop, PartialEq, Eq)]
pub struct Value {
    pub kind: Basic,
    pub value: Const,
}

impl Value {
    ghost use Rattle.const_values.specs.Values.{IsValue};

    /// Whether the value is one of its kind.
    pub fn is_valid(&self) -> bool
        ensures { IsTrue result ↔ IsValue self.now }
    {
        admits(self.kind, &self.value) && in_range(self.kind, &self.value)
    }
}
