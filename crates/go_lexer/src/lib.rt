//! The tokens of Go source, with the first fault at its place.
#![tactic(auto)]

mod characters;
mod classes;
mod comments;
mod escapes;
mod fronts;
mod lexing;
mod literals;
mod marks;
mod numbers;
mod pieces;
mod source;
mod source_tokens;
mod token_kinds;
mod words;

pub use lexing::{SOURCE_LIMIT, one_reading, tokens};
pub use numbers::{is_digits, is_led_digits, number_literals};
pub use source_tokens::{SourceTokens, each_token, lex};
pub use token_kinds::{LexFault, Token, TokenKind};
