ghost use Rattle.std.specs.Prelude.{◌≡◌, IsTrue, Some, slice_index, slice_get};
ghost use Rattle.code_tables.specs.Codes.{rises};
ghost use Rattle.code_tables.specs.Keyword.{keyword_code, keyword_number, keyword_text, keyword_texts};

use crate::code_table::CodeTable;
use crate::ordinals::{Coded, number_arms, value_arms};

/// A keyword of Go (the language specification's section Keywords).
#[derive(Clone, Copy, Debug, PartialEq, Eq, PartialOrd, Ord, Hash)]
pub enum Keyword {
    Break,
    Case,
    Chan,
    Const,
    Continue,
    Default,
    Defer,
    Else,
    Fallthrough,
    For,
    Func,
    Go,
    Goto,
    If,
    Import,
    Interface,
    Map,
    Package,
    Range,
    Return,
    Select,
    Struct,
    Switch,
    Type,
    Var,
}

macro_rules! keyword_arms {
    ($arms:ident, $value:expr) => {
        $arms!($value, Keyword;
            Break = 0, Case = 1, Chan = 2, Const = 3, Continue = 4, Default = 5, Defer = 6,
            Else = 7, Fallthrough = 8, For = 9, Func = 10, Go = 11, Goto = 12, If = 13,
            Import = 14, Interface = 15, Map = 16, Package = 17, Range = 18, Return = 19,
            Select = 20, Struct = 21, Switch = 22, Type = 23, Var = 24)
    };
}

impl Coded for Keyword {
    ghost use Rattle.code_tables.specs.Keyword.{keyword_number};
    ghost use Rattle.code_tables.specs.KeywordLaws.{keyword_below, keyword_exact};

    ghost number = { keyword_number };

    ghost count = { 25 };

    ghost below = { keyword_below };

    ghost exact = { keyword_exact };

    fn ordinal(self) -> usize {
        keyword_arms!(number_arms, self)
    }

    fn of_ordinal(n: usize) -> Option<Keyword> {
        keyword_arms!(value_arms, n)
    }
}

/// The places of the keywords in their bytewise order, from 0.
pub fn keywords() -> CodeTable<Keyword, 25>
    ensures codes { (keyword : Keyword) → slice_index result (keyword_number keyword) ≡ keyword_code keyword }
    ensures places { (keyword : Keyword)
        → slice_get keyword_texts (keyword_code keyword) ≡ Some (keyword_text keyword) }
    ensures order { IsTrue (rises keyword_texts) }
{
    CodeTable::new([
        0, 1, 2, 3, 4, 5, 6, 7, 8, 9, 10, 11, 12, 13, 14, 15, 16, 17, 18, 19, 20, 21, 22, 23, 24,
    ])
}
