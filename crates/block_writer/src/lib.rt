//! Writing a block of the data section: a descriptor of a type whose parts have numbers, or a declaration. What a
//! block holds is one list of items in the order of writing, and each item is written alone. `file_layout` has what a
//! block is to hold, and with which bytes.
#![tactic(auto)]

mod blocks;
mod declarations;
mod descriptors;
mod items;
mod lists;
mod members;
mod numbers;
mod positions;
mod signatures;
mod values;
mod writing;

pub use blocks::{put_declaration, put_descriptor};
pub use declarations::{Told, push_declaration};
pub use descriptors::push_descriptor;
pub use items::Item;
pub use writing::put_items;
