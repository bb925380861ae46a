//! The files that are asked for.

/// What a file is to hold.
#[derive(Debug, Drop, Clone, Copy, PartialEq, Eq)]
pub enum Content<'a> {
    /// A full file of the package with this path.
    Full(&'a [u8]),
}

/// A file that is asked for.
#[derive(Debug, Drop, Clone, Copy, PartialEq, Eq)]
pub struct Source<'a> {
    /// The text by which messages name it.
    pub label: &'a str,
    pub file: &'a str,
    pub content: Content<'a>,
}
