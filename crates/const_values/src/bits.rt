ghost use Rattle.std.specs.Prelude.{◌≡◌};
ghost use Rattle.const_values.specs.Bitwise.{flip, both, either, one_of};

/// The bits that both numbers have.
pub fn and(left: i128, right: i128) -> i128
    ensures { result ≡ both left right }
{
    left & right
}

/// The bits that a number has and the other one lacks.
pub fn and_not(left: i128, right: i128) -> i128
    ensures { result ≡ both left (flip right) }
{
    left & !right
}

/// The bits that one of the numbers has, or both.
pub fn or(left: i128, right: i128) -> i128
    ensures { result ≡ either left right }
{
    left | right
}

/// The bits that one of the numbers has, and not both.
pub fn xor(left: i128, right: i128) -> i128
    ensures { result ≡ one_of left right }
{
    left ^ right
}

/// The bits that a number lacks.
pub fn not(number: i128) -> i128
    ensures { result ≡ flip number }
{
    !number
}
