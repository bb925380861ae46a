ghost use Rattle.std.specs.Prelude.{◌≡◌, slice_index};
ghost use Rattle.code_tables.specs.EntryTag.{entry_tag_code, entry_tag_number};

use crate::code_table::CodeTable;
use crate::ordinals::{Coded, number_arms, value_arms};

/// The kind of an entry of the table that importers share.
#[derive(Clone, Copy, Debug, PartialEq, Eq, PartialOrd, Ord, Hash)]
pub enum EntryTag {
    Str, // a text of a file
    Num, // a number below 2^56
    Wide, // a larger number
    Neg, // a number below 0
    Nil, // the empty list
    Cons, // a list that is not empty
    Name, // a name of a package
    Ask, // a name that was asked for
    Object, // the object of a name
    Predecl, // a predeclared type
    TypeOf, // a descriptor with its parts
    DeclOf, // a declaration with its parts
}

macro_rules! entry_tag_arms {
    ($arms:ident, $value:expr) => {
        $arms!($value, EntryTag;
            Str = 0, Num = 1, Wide = 2, Neg = 3, Nil = 4, Cons = 5, Name = 6, Ask = 7, Object = 8,
            Predecl = 9, TypeOf = 10, DeclOf = 11)
    };
}

impl Coded for EntryTag {
    ghost use Rattle.code_tables.specs.EntryTag.{entry_tag_number};
    ghost use Rattle.code_tables.specs.EntryTagLaws.{entry_tag_below, entry_tag_exact};

    ghost number = { entry_tag_number };

    ghost count = { 12 };

    ghost below = { entry_tag_below };

    ghost exact = { entry_tag_exact };

    fn ordinal(self) -> usize {
        entry_tag_arms!(number_arms, self)
    }

    fn of_ordinal(n: usize) -> Option<EntryTag> {
        entry_tag_arms!(value_arms, n)
    }
}

/// The numbers in the top byte of the entries' words.
pub fn entry_tags() -> CodeTable<EntryTag, 12>
    ensures codes { (tag : EntryTag) → slice_index result (entry_tag_number tag) ≡ entry_tag_code tag }
{
    CodeTable::new([1, 2, 3, 4, 5, 6, 7, 8, 9, 10, 11, 12])
}
