//! The bytes of export data, read one spelling at a time: numbers and texts, each in its one shortest form, with the
//! first fault where none is spelled. docs/FORMAT.md has the rules in words, `specs/` has them as definitions.
#![tactic(auto)]

mod codes;
mod cursor;
mod fault;
mod laws;
mod number;
mod spelling;
mod strings;
mod text;
mod whole;
mod writer;

pub use codes::{one_flag_spelling, one_varint_spelling, one_whole_spelling, texts_stand};
pub use cursor::Cursor;
pub use fault::{ByteFault, ReadFault};
pub use laws::{numbers_are_local, one_number_spelling, one_text};
pub use spelling::uvarint_of;
pub use strings::Strings;
pub use text::{Span, text_at, text_span};
pub use writer::Writer;
