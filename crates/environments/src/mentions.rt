use go_values::QName;

/// How a name is used. The base of an instance has as many arguments.
#[derive(Clone, Copy, Debug, PartialEq, Eq, Hash)]
pub enum Role {
    /// A defined type without arguments.
    Defined,
    /// A type parameter.
    Parameter,
    /// An alias without arguments.
    Alias,
    DefinedBase(usize),
    AliasBase(usize),
}

/// A mention of a name.
#[derive(Clone, Debug, Drop, PartialEq, Eq, Hash)]
pub struct Reference {
    pub name: QName,
    pub role: Role,
}
