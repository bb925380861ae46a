ghost use Rattle.std.specs.Prelude.{◌≡◌, ◌<◌, ℕ, IfSome, IsSome};

/// A plain enum whose values are the rows of a code table. Each value has a number of its own, its
/// ordinal, and the ordinals are those below the count of the values.
pub trait Coded: Copy {
    // The ordinal.
    ghost number: { Self → ℕ };

    // How many values there are.
    ghost count: { ℕ };

    /// The value's place in the table, from 0.
    fn ordinal(self) -> usize
        ensures { result ≡ number self };

    /// The value at a place of the table, if there is one.
    fn of_ordinal(n: usize) -> Option<Self>
        ensures numbered { IfSome result (λ value. number value ≡ n) }
        ensures every { n < count → IsSome result };

    ghost below: { (value : Self) → number value < count };

    ghost exact: { (left right : Self) → number left ≡ number right → left ≡ right };
}

/// The number of a value: an arm for each variant.
macro_rules! number_arms {
    ($value:expr, $kind:ident; $($variant:ident = $number:literal),+) => {
        match $value {
            $($kind::$variant => $number,)+
        }
    };
}

/// The value with a number, if there is one: an arm for each variant.
macro_rules! value_arms {
    ($value:expr, $kind:ident; $($variant:ident = $number:literal),+) => {
        match $value {
            $($number => Some($kind::$variant),)+
            _ => None,
        }
    };
}

pub(crate) use number_arms;
pub(crate) use value_arms;
