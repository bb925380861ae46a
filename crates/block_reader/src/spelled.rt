//! What the parts of a block are spelled with.

use go_values::{Bytes, Const, Pos};

/// A text, and the stringOff that spelled it.
#[derive(Debug, Drop)]
pub struct SpelledText {
    pub offset: u64,
    pub text: Bytes,
}

/// The path of a package, and the stringOff of the text that stood for it.
#[derive(Debug, Drop)]
pub struct SpelledPath {
    pub offset: u64,
    pub path: Bytes,
}

/// A name, and the path of its package.
#[derive(Debug, Drop)]
pub struct SpelledName {
    pub name: SpelledText,
    pub path: SpelledPath,
}

/// A position, and the stringOff that spelled its file so far in the block, if one did.
#[derive(Debug, Drop)]
pub struct SpelledPos {
    pub pos: Pos,
    pub file: Option<u64>,
}

/// A type that is embedded in an interface, by its number, and its position, which the interface drops.
#[derive(Debug, Drop)]
pub struct Embedded {
    pub pos: SpelledPos,
    pub ty: u64,
}

/// The value of a constant, and the stringOff of one that is a text.
#[derive(Debug, Drop)]
pub struct SpelledConst {
    pub offset: Option<u64>,
    pub value: Const,
}
