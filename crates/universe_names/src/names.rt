ghost use Rattle.std.specs.Prelude.{◌≡◌};
ghost use Rattle.universe_names.specs.Universe.{standing_for, whole_types, other_types, values, universe};

use code_tables::Basic;

/// What a predeclared name stands for. The predeclared functions are left out.
#[derive(Clone, Copy, Debug, PartialEq, Eq)]
pub enum Predeclared {
    Basic(Basic),
    Truth(bool),
    Iota,
    Nil,
}

macro_rules! first_equal {
    ($name:expr; $($text:literal => $meaning:expr),+) => {{
        $(if $name == $text.as_bytes() {
            return Some($meaning);
        })+
        None
    }};
}

macro_rules! first_type {
    ($name:expr; $($text:literal => $basic:ident),+) => {
        first_equal!($name; $($text => Predeclared::Basic(Basic::$basic)),+)
    };
}

/// The predeclared type of whole numbers that has this name.
fn whole_type(name: &[u8]) -> Option<Predeclared>
    ensures { result ≡ standing_for name.now whole_types }
{
    first_type!(
        name;
        "int" => Int, "int8" => Int8, "int16" => Int16, "int32" => Int32, "int64" => Int64, "uint" => Uint,
        "uint8" => Uint8, "uint16" => Uint16, "uint32" => Uint32, "uint64" => Uint64, "uintptr" => Uintptr,
        "byte" => Byte, "rune" => Rune
    )
}

/// Another predeclared type that has this name.
fn other_type(name: &[u8]) -> Option<Predeclared>
    ensures { result ≡ standing_for name.now other_types }
{
    first_type!(
        name;
        "bool" => Bool, "float32" => Float32, "float64" => Float64, "complex64" => Complex64,
        "complex128" => Complex128, "string" => String, "error" => Error, "comparable" => Comparable, "any" => Any
    )
}

/// The predeclared value that has this name.
fn value(name: &[u8]) -> Option<Predeclared>
    ensures { result ≡ standing_for name.now values }
{
    first_equal!(
        name;
        "true" => Predeclared::Truth(true), "false" => Predeclared::Truth(false), "iota" => Predeclared::Iota,
        "nil" => Predeclared::Nil
    )
}

/// What a name stands for before any package declares it. Takes no memory.
pub fn predeclared_meaning(name: &[u8]) -> Option<Predeclared>
    ensures { result ≡ standing_for name.now universe }
{
    match whole_type(name) {
        Some(found) => Some(found),
        None => match other_type(name) {
            Some(found) => Some(found),
            None => value(name),
        },
    }
}
