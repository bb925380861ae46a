ghost use Rattle.std.specs.Prelude.{◌≡◌, slice_index};
ghost use Rattle.code_tables.specs.Basic.{basic_code, basic_number};

use crate::code_table::CodeTable;
use crate::ordinals::{Coded, number_arms, value_arms};

/// A predeclared type of Go, with the types of untyped constants among them.
#[derive(Clone, Copy, Debug, PartialEq, Eq, PartialOrd, Ord, Hash)]
pub enum Basic {
    Bool,
    Int,
    Int8,
    Int16,
    Int32,
    Int64,
    Uint,
    Uint8,
    Uint16,
    Uint32,
    Uint64,
    Uintptr,
    Float32,
    Float64,
    Complex64,
    Complex128,
    String,
    Byte,
    Rune,
    Error,
    UntypedBool,
    UntypedInt,
    UntypedRune,
    UntypedFloat,
    UntypedComplex,
    UntypedString,
    UntypedNil,
    UnsafePointer,
    Comparable,
    Any,
}

macro_rules! basic_arms {
    ($arms:ident, $value:expr) => {
        $arms!($value, Basic;
            Bool = 0, Int = 1, Int8 = 2, Int16 = 3, Int32 = 4, Int64 = 5, Uint = 6, Uint8 = 7,
            Uint16 = 8, Uint32 = 9, Uint64 = 10, Uintptr = 11, Float32 = 12, Float64 = 13,
            Complex64 = 14, Complex128 = 15, String = 16, Byte = 17, Rune = 18, Error = 19,
            UntypedBool = 20, UntypedInt = 21, UntypedRune = 22, UntypedFloat = 23,
            UntypedComplex = 24, UntypedString = 25, UntypedNil = 26, UnsafePointer = 27,
            Comparable = 28, Any = 29)
    };
}

impl Coded for Basic {
    ghost use Rattle.code_tables.specs.Basic.{basic_number};
    ghost use Rattle.code_tables.specs.BasicLaws.{basic_below, basic_exact};

    ghost number = { basic_number };

    ghost count = { 30 };

    ghost below = { basic_below };

    ghost exact = { basic_exact };

    fn ordinal(self) -> usize {
        basic_arms!(number_arms, self)
    }

    fn of_ordinal(n: usize) -> Option<Basic> {
        basic_arms!(value_arms, n)
    }
}

/// The numbers below 32 that stand for the predeclared types in export data.
pub fn basics() -> CodeTable<Basic, 30>
    ensures codes { (basic : Basic) → slice_index result (basic_number basic) ≡ basic_code basic }
{
    CodeTable::new([
        0, 1, 2, 3, 4, 5, 6, 7, 8, 9, 10, 11, 12, 13, 14, 15, 16, 17, 18, 19, 20, 21, 22, 23, 24,
        25, 26, 27, 30, 31,
    ])
}
