ghost use Rattle.std.specs.Prelude.{◌≡◌, ◌++◌, [], if◌then◌else◌, OnOk, decimal};
ghost use Rattle.decl_text.specs.BasicNames.{basic_name};
ghost use Rattle.decl_text.specs.TypeText.{pos_text, qualified, param_name, tag_text};
ghost use Rattle.decl_text.specs.DeclText.{value_text};

use crate::escapes::{put_printed, put_quoted};
use code_tables::Basic;
use go_values::{Const, Pos, QName};
use itoa::Buffer;
use std::alloc::AllocError;

/// Adds a number.
pub fn put_decimal(line: &mut Vec<u8>, number: u64) -> Result<(), AllocError>
    ensures { OnOk result (line.new.items ≡ line.old.items ++ decimal number) }
{
    line.extend_from_slice(Buffer::new().format(number).as_bytes())
}

/// Adds a position.
pub fn put_position(line: &mut Vec<u8>, pos: &Pos) -> Result<(), AllocError>
    ensures { OnOk result (line.new.items ≡ line.old.items ++ pos_text pos.now) }
{
    match pos {
        Pos::Nowhere => line.extend_from_slice(b"-"),
        Pos::At {
            file,
            line: row,
            column,
        } => {
            put_printed(line, file.as_slice())?;
            line.extend_from_slice(b":")?;
            put_decimal(line, u64::from(*row))?;
            line.extend_from_slice(b":")?;
            put_decimal(line, u64::from(*column))
        }
    }
}

/// Adds a name with the path of its package.
pub fn put_qualified(line: &mut Vec<u8>, q: &QName) -> Result<(), AllocError>
    ensures { OnOk result (line.new.items ≡ line.old.items ++ qualified q.now.path q.now.name) }
{
    put_printed(line, q.path.as_slice())?;
    line.extend_from_slice(b".")?;
    put_printed(line, q.name.as_slice())
}

/// Adds the name of a parameter.
pub fn put_param_name(line: &mut Vec<u8>, name: &[u8]) -> Result<(), AllocError>
    ensures { OnOk result (line.new.items ≡ line.old.items ++ param_name name.now) }
{
    match name {
        [] => line.extend_from_slice(b"-"),
        name => put_printed(line, name),
    }
}

/// Adds a mark where it is due.
pub fn put_mark(line: &mut Vec<u8>, mark: &[u8], is_due: bool) -> Result<(), AllocError>
    ensures { OnOk result (line.new.items ≡ line.old.items ++ (if is_due then mark.now else [])) }
{
    if is_due {
        line.extend_from_slice(mark)
    } else {
        Ok(())
    }
}

/// Adds a field's tag, if there is one.
pub fn put_tag(line: &mut Vec<u8>, tag: &[u8]) -> Result<(), AllocError>
    ensures { OnOk result (line.new.items ≡ line.old.items ++ tag_text tag.now) }
{
    match tag {
        [] => Ok(()),
        tag => {
            line.extend_from_slice(b" ")?;
            put_quoted(line, tag)
        }
    }
}

/// Adds the value of a constant.
pub fn put_value(line: &mut Vec<u8>, value: &Const) -> Result<(), AllocError>
    ensures { OnOk result (line.new.items ≡ line.old.items ++ value_text value.now) }
{
    match value {
        Const::Bool(true) => line.extend_from_slice(b"true"),
        Const::Bool(false) => line.extend_from_slice(b"false"),
        Const::Int(number) => line.extend_from_slice(Buffer::new().format(*number).as_bytes()),
        Const::Str(text) => put_quoted(line, text.as_slice()),
    }
}

/// The name of a predeclared type.
pub fn basic_name(basic: Basic) -> &'static [u8]
    ensures { result.now ≡ basic_name basic }
{
    match basic {
        Basic::Bool => b"bool",
        Basic::Int => b"int",
        Basic::Int8 => b"int8",
        Basic::Int16 => b"int16",
        Basic::Int32 => b"int32",
        Basic::Int64 => b"int64",
        Basic::Uint => b"uint",
        Basic::Uint8 => b"uint8",
        Basic::Uint16 => b"uint16",
        Basic::Uint32 => b"uint32",
        Basic::Uint64 => b"uint64",
        Basic::Uintptr => b"uintptr",
        Basic::Float32 => b"float32",
        Basic::Float64 => b"float64",
        Basic::Complex64 => b"complex64",
        Basic::Complex128 => b"complex128",
        Basic::String => b"string",
        Basic::Byte => b"byte",
        Basic::Rune => b"rune",
        Basic::Error => b"error",
        Basic::UntypedBool => b"untyped bool",
        Basic::UntypedInt => b"untyped int",
        Basic::UntypedRune => b"untyped rune",
        Basic::UntypedFloat => b"untyped float",
        Basic::UntypedComplex => b"untyped complex",
        Basic::UntypedString => b"untyped string",
        Basic::UntypedNil => b"untyped nil",
        Basic::UnsafePointer => b"unsafe.Pointer",
        Basic::Comparable => b"comparable",
        Basic::Any => b"any",
    }
}
