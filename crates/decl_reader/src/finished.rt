//! What is read of a declaration, with types as numbers.

use block_reader::{DeclParts, Flat};

/// A descriptor that was read whole: where it starts and ends in the data section, and what it spells.
#[derive(Drop)]
pub(crate) struct Descriptor {
    pub(crate) start: u64,
    pub(crate) end: u64,
    pub(crate) flat: Flat,
}

/// A declaration, and the descriptors that it reaches, each once and behind those that it names.
#[derive(Drop)]
pub(crate) struct Spelled {
    pub(crate) decl: DeclParts,
    pub(crate) finished: Vec<Descriptor>,
}
