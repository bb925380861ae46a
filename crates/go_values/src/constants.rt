use crate::byte_list::Bytes;

/// The value of a constant: a truth value, a whole number, or a text.
#[derive(Clone, Debug, Drop, PartialEq, Eq, PartialOrd, Ord, Hash)]
pub enum Const {
    Bool(bool),
    Int(i128),
    Str(Bytes),
}
