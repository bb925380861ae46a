//! Types as a block names them.

/// A typeOff below it is the code of a predeclared type. Any other is this much more than a descriptor's offset in the
/// data section.
pub const FIRST_DESCRIPTOR: u64 = 32;

/// What the holder of a type asks of it.
#[derive(Clone, Copy, Debug, PartialEq, Eq)]
pub enum Demand {
    /// Any type.
    Any,
    /// A type parameter, in a list of these.
    Parameter,
    /// A type that a defined type may have as its underlying one.
    Underlying,
    /// A defined type or an alias by its name, as the base of an instance.
    Base,
    /// Any type but a type parameter, as the right side of a generic alias.
    NoParameter,
    /// An interface, as a constraint that was written without `interface`. Its flag stands at `flag`.
    Interface { flag: u64 },
}

/// A typeOff in a block, and what the block asks of the type.
#[derive(Clone, Copy, Debug, PartialEq, Eq)]
pub struct Mention {
    /// Where the number stands in the file.
    pub at: u64,
    /// The typeOff itself.
    pub value: u64,
    pub asked: Demand,
}
