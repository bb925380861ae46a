ghost use Rattle.std.specs.Prelude.{◌≡◌, slice_index};
ghost use Rattle.code_tables.specs.DeclTag.{decl_tag_code, decl_tag_number};

use crate::code_table::CodeTable;
use crate::ordinals::{Coded, number_arms, value_arms};

/// The kind of a declaration in export data.
#[derive(Clone, Copy, Debug, PartialEq, Eq, PartialOrd, Ord, Hash)]
pub enum DeclTag {
    Var, // V
    Func, // F
    GenericFunc, // G, a function with type parameters
    Const, // C
    Defined, // T, a defined type
    GenericDefined, // U, a defined type with type parameters
    Alias, // A
    GenericAlias, // B, an alias with type parameters
    TypeParameter, // P
}

macro_rules! decl_tag_arms {
    ($arms:ident, $value:expr) => {
        $arms!($value, DeclTag;
            Var = 0, Func = 1, GenericFunc = 2, Const = 3, Defined = 4, GenericDefined = 5,
            Alias = 6, GenericAlias = 7, TypeParameter = 8)
    };
}

impl Coded for DeclTag {
    ghost use Rattle.code_tables.specs.DeclTag.{decl_tag_number};
    ghost use Rattle.code_tables.specs.DeclTagLaws.{decl_tag_below, decl_tag_exact};

    ghost number = { decl_tag_number };

    ghost count = { 9 };

    ghost below = { decl_tag_below };

    ghost exact = { decl_tag_exact };

    fn ordinal(self) -> usize {
        decl_tag_arms!(number_arms, self)
    }

    fn of_ordinal(n: usize) -> Option<DeclTag> {
        decl_tag_arms!(value_arms, n)
    }
}

/// The letters, as ASCII bytes, that stand before declarations: V, F, G, C, T, U, A, B and P.
pub fn decl_tags() -> CodeTable<DeclTag, 9>
    ensures codes { (tag : DeclTag) → slice_index result (decl_tag_number tag) ≡ decl_tag_code tag }
{
    CodeTable::new([86, 70, 71, 67, 84, 85, 65, 66, 80])
}
