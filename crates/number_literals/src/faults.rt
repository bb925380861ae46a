/// Why bytes have no value.
#[derive(Clone, Copy, Debug, PartialEq, Eq)]
pub enum ValueFault {
    /// They are no literal of this kind.
    NotALiteral,
    /// The value is above 2^127 - 1.
    Wide,
}
