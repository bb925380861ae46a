ghost use Rattle.std.specs.Prelude.{◌≡◌, slice_index};
ghost use Rattle.code_tables.specs.TypeTag.{type_tag_code, type_tag_number};

use crate::code_table::CodeTable;
use crate::ordinals::{Coded, number_arms, value_arms};

/// The kind of a type that has a descriptor in export data.
#[derive(Clone, Copy, Debug, PartialEq, Eq, PartialOrd, Ord, Hash)]
pub enum TypeTag {
    Defined,
    Pointer,
    Slice,
    Array,
    Chan,
    Map,
    Signature,
    Struct,
    Interface,
    TypeParameter,
    Instance,
    Union,
    Alias,
}

macro_rules! type_tag_arms {
    ($arms:ident, $value:expr) => {
        $arms!($value, TypeTag;
            Defined = 0, Pointer = 1, Slice = 2, Array = 3, Chan = 4, Map = 5, Signature = 6,
            Struct = 7, Interface = 8, TypeParameter = 9, Instance = 10, Union = 11, Alias = 12)
    };
}

impl Coded for TypeTag {
    ghost use Rattle.code_tables.specs.TypeTag.{type_tag_number};
    ghost use Rattle.code_tables.specs.TypeTagLaws.{type_tag_below, type_tag_exact};

    ghost number = { type_tag_number };

    ghost count = { 13 };

    ghost below = { type_tag_below };

    ghost exact = { type_tag_exact };

    fn ordinal(self) -> usize {
        type_tag_arms!(number_arms, self)
    }

    fn of_ordinal(n: usize) -> Option<TypeTag> {
        type_tag_arms!(value_arms, n)
    }
}

/// The numbers that stand before the descriptors of types.
pub fn type_tags() -> CodeTable<TypeTag, 13>
    ensures codes { (tag : TypeTag) → slice_index result (type_tag_number tag) ≡ type_tag_code tag }
{
    CodeTable::new([0, 1, 2, 3, 4, 5, 6, 7, 8, 9, 10, 11, 12])
}
