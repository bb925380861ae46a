use go_values::Bytes;

/// What tells methods of a type set apart: the name, and the home of one that isn't exported. Keys are ordered bytewise,
/// by name and then by home.
#[derive(Debug, Drop, PartialEq, Eq, PartialOrd, Ord, Hash)]
pub struct MethodKey {
    pub name: Bytes,
    pub home: Bytes,
}
