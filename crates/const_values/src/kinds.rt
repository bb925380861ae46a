ghost use Rattle.std.specs.Prelude.{◌≡◌, IsTrue};
ghost use Rattle.const_values.specs.Exact.{flip_within};
ghost use Rattle.const_values.specs.Kinds as kinds;
ghost use Rattle.const_values.specs.Values as values;

use crate::bits;
use code_tables::Basic;
use go_values::Const;

/// Whether the kind is one of floating or complex numbers.
pub fn is_floating(kind: Basic) -> bool
    ensures { result ≡ kinds.is_floating kind }
{
    match kind {
        Basic::Float32
        | Basic::Float64
        | Basic::Complex64
        | Basic::Complex128
        | Basic::UntypedFloat
        | Basic::UntypedComplex => true,
        _ => false,
    }
}

fn is_unsigned(kind: Basic) -> bool
    ensures { result ≡ kinds.is_unsigned kind }
{
    match kind {
        Basic::Uint
        | Basic::Uint8
        | Basic::Uint16
        | Basic::Uint32
        | Basic::Uint64
        | Basic::Uintptr
        | Basic::Byte => true,
        _ => false,
    }
}

fn is_whole(kind: Basic) -> bool
    ensures { result ≡ kinds.is_whole kind }
{
    match kind {
        Basic::Int
        | Basic::Int8
        | Basic::Int16
        | Basic::Int32
        | Basic::Int64
        | Basic::Rune
        | Basic::UntypedInt
        | Basic::UntypedRune => true,
        _ => is_unsigned(kind),
    }
}

fn is_untyped(kind: Basic) -> bool
    ensures { result ≡ kinds.is_untyped kind }
{
    match kind {
        Basic::UntypedBool | Basic::UntypedInt | Basic::UntypedRune | Basic::UntypedString => true,
        _ => false,
    }
}

/// Whether the kind has values of this class: truth values, whole numbers or texts.
pub fn admits(kind: Basic, value: &Const) -> bool
    ensures { result ≡ values.admits kind value.now }
{
    match value {
        Const::Bool(_) => match kind {
            Basic::Bool | Basic::UntypedBool => true,
            _ => false,
        },
        Const::Int(_) => is_whole(kind),
        Const::Str(_) => match kind {
            Basic::String | Basic::UntypedString => true,
            _ => false,
        },
    }
}

/// The least whole number of the kind.
fn least(kind: Basic) -> i128
    ensures { result ≡ kinds.least kind }
{
    match kind {
        Basic::Int8 => -0x80,
        Basic::Int16 => -0x8000,
        Basic::Int32 | Basic::Rune => -0x8000_0000,
        Basic::UntypedInt | Basic::UntypedRune => i128::MIN,
        _ => if is_unsigned(kind) {
            0
        } else {
            -0x8000_0000_0000_0000
        },
    }
}

/// The greatest whole number of the kind.
fn greatest(kind: Basic) -> i128
    ensures { result ≡ kinds.greatest kind }
{
    match kind {
        Basic::Int8 => 0x7f,
        Basic::Uint8 | Basic::Byte => 0xff,
        Basic::Int16 => 0x7fff,
        Basic::Uint16 => 0xffff,
        Basic::Int32 | Basic::Rune => 0x7fff_ffff,
        Basic::Uint32 => 0xffff_ffff,
        Basic::UntypedInt | Basic::UntypedRune => i128::MAX,
        _ => if is_unsigned(kind) {
            0xffff_ffff_ffff_ffff
        } else {
            0x7fff_ffff_ffff_ffff
        },
    }
}

/// Whether a whole number is in the range of the kind. Other values have no range to leave.
pub fn in_range(kind: Basic, value: &Const) -> bool
    ensures { result ≡ values.in_range kind value.now }
{
    match value {
        Const::Int(number) => least(kind) <= *number && *number <= greatest(kind),
        _ => true,
    }
}

/// byte as uint8, and rune as int32.
fn named_kind(kind: Basic) -> Basic
    ensures { result ≡ kinds.named_kind kind }
{
    match kind {
        Basic::Byte => Basic::Uint8,
        Basic::Rune => Basic::Int32,
        _ => kind,
    }
}

fn same_kind(left: Basic, right: Basic) -> bool
    ensures { result ≡ kinds.same_kind left right }
{
    named_kind(left) == named_kind(right)
}

/// The kind that two operands of one class have together, if they have one: an untyped operand takes the
/// other's kind, and of two untyped ones an int with a rune gives a rune.
pub fn common_kind(left: Basic, right: Basic) -> Option<Basic>
    ensures { result ≡ kinds.common_kind left right }
{
    match (is_untyped(left), is_untyped(right)) {
        (true, true) => match left {
            Basic::UntypedRune => Some(Basic::UntypedRune),
            _ => Some(right),
        },
        (true, false) => Some(right),
        (false, true) => Some(left),
        (false, false) => if same_kind(left, right) {
            Some(left)
        } else {
            None
        },
    }
}

/// `^` of a whole number of the kind: it flips the bits of an unsigned kind's size, and all bits of
/// another's.
pub fn flip_within(kind: Basic, number: i128) -> i128
    requires { IsTrue (kinds.fits kind number) }
    ensures { result ≡ flip_within kind number }
{
    if is_unsigned(kind) {
        greatest(kind) - number
    } else {
        bits::not(number)
    }
}
