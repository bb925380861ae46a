//! What the number of a type in a block names.

ghost use Rattle.decl_reader.specs.TypeOffs.{IsTypeOff};

use decl_spelling::FIRST_DESCRIPTOR;

/// What a typeOff names.
#[derive(Clone, Copy, Debug, PartialEq, Eq)]
pub(crate) enum TypeOff {
    /// A predeclared type, by its code.
    Basic(u64),
    /// A descriptor, by its offset in the data section.
    At(u64),
}

impl TypeOff {
    pub(crate) fn new(number: u64) -> TypeOff
        ensures { IsTypeOff number result }
    {
        if number < FIRST_DESCRIPTOR {
            TypeOff::Basic(number)
        } else {
            TypeOff::At(number - FIRST_DESCRIPTOR)
        }
    }
}
