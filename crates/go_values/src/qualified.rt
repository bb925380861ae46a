use crate::byte_list::Bytes;

/// A name of a package's declaration: the package's import path and the name in it. Type parameters have
/// the export names `Owner.Name`, which hold a dot.
#[derive(Clone, Debug, Drop, PartialEq, Eq, PartialOrd, Ord, Hash)]
pub struct QName {
    pub path: Bytes,
    pub name: Bytes,
}
