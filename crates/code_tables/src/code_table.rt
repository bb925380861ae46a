ghost use Rattle.std.specs.Prelude.{◌≡◌, ◌≢◌, ◌<◌, ℕ, List, IfSome, IfNone, IsTrue, slice_index};
ghost use Rattle.code_tables.specs.Codes.{all_distinct};

use crate::ordinals::Coded;
use std::marker::{Model, PhantomData};

/// The codes of the values of `T`, one byte each, in the order of the ordinals. No two values have the
/// same code.
#[derive(Drop)]
pub struct CodeTable<T: Coded, const N: usize> {
    codes: [u8; N],
    kind: PhantomData<T>,
}

impl<T: Coded, const N: usize> Model for CodeTable<T, N> {
    ghost Value = { List ℕ };

    ghost view = { λ table. table.codes };

    ghost invariant = { λ table. (T.count ≡ N) × IsTrue (all_distinct table.codes) };
}

impl<T: Coded, const N: usize> CodeTable<T, N> {
    /// The table with these codes, in the order of the ordinals.
    pub(crate) fn new(codes: [u8; N]) -> CodeTable<T, N>
        requires all { T.count ≡ N }
        requires distinct { IsTrue (all_distinct codes) }
        ensures { result ≡ codes.entry }
    {
        CodeTable {
            codes,
            kind: PhantomData,
        }
    }

    /// The code of a value. Takes no memory.
    pub fn code_of(&self, value: T) -> u8
        ensures { result ≡ slice_index self.now (T.number value) }
    {
        self.codes[value.ordinal()]
    }

    /// The value that has the code, if there is one: the inverse of `code_of`. Takes no memory, and at most
    /// one comparison for each code.
    pub fn of_code(&self, code: u64) -> Option<T>
        ensures found { IfSome result (λ value. slice_index self.now (T.number value) ≡ code) }
        ensures inverse { (value : T) → slice_index self.now (T.number value) ≡ code → result ≡ Some value }
        ensures missing { IfNone result ((value : T) → slice_index self.now (T.number value) ≢ code) }
    {
        for (place, own) in self.codes.iter().enumerate() {
            if u64::from(*own) == code {
                return T::of_ordinal(place);
            }
        }
        None
    }
}
