//! Texts of a string section, by where they stand.

ghost use Rattle.std.specs.Prelude.{◌≡◌};
ghost use Rattle.file_parts.specs.Paths.{text_of};

use std::cmp::min;

/// A text of a string section: where it starts there, and where it ends.
#[derive(Clone, Copy, Debug)]
pub struct TextSpan {
    pub start: u32,
    pub end: u32,
}

/// The text of a string section that stands there, as far as the section goes.
pub fn text_of(strings: &[u8], span: TextSpan) -> &[u8]
    ensures { result.now ≡ text_of strings.now span }
{
    let end = min(span.end as usize, strings.len());
    let start = min(span.start as usize, end);
    &strings[start..end]
}
