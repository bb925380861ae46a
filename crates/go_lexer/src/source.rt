ghost use Rattle.std.specs.Prelude.{◌≡◌, ◌≤◌, take, length};
ghost use Rattle.std.specs.List.{position_or_len, before_first};
ghost use Rattle.std.specs.Str.{chars};
ghost use Rattle.go_lexer.specs.Source.{is_nul, valid_front, text_of, ending_of, after_mark};

use crate::characters::strip;

/// Why the text of a source ends.
#[derive(Clone, Copy, PartialEq, Eq)]
pub(crate) enum Ending {
    /// The source ends.
    File,
    /// No UTF-8 follows.
    BadUtf8,
    /// A zero byte follows.
    Nul,
}

/// The longest front of a source that is UTF-8.
fn valid_front(src: &[u8]) -> &str
    ensures { result.now ≡ valid_front src.now }
{
    match str::from_utf8(src) {
        Ok(text) => text,
        Err(fault) => match str::from_utf8(&src[..fault.valid_up_to()]) {
            Ok(text) => text,
            Err(_) => unreachable!(),
        },
    }
}

/// The place of the first zero byte, or the length.
fn nul_place(bytes: &[u8]) -> usize
    ensures { result ≡ position_or_len is_nul bytes.now }
{
    for (place, byte) in bytes.iter().enumerate() {
        if *byte == 0 {
            return place;
        }
    }
    bytes.len()
}

/// The longest front of a source that is UTF-8 and has no zero byte.
fn text_of(src: &[u8]) -> &str
    ensures { result.now ≡ text_of src.now }
{
    let text = valid_front(src);
    let (front, _) = text.split_at(nul_place(text.as_bytes()));
    front
}

/// The text of a source, and why it ends.
pub(crate) fn read_source(src: &[u8]) -> (&str, Ending)
    ensures text { result.0.now ≡ text_of src.now }
    ensures ending { result.1 ≡ ending_of src.now }
    ensures shorter { length result.0.now ≤ length src.now }
{
    let text = text_of(src);
    let ending = match src.get(text.len()) {
        None => Ending::File,
        Some(0) => Ending::Nul,
        Some(_) => Ending::BadUtf8,
    };
    (text, ending)
}

/// The text after a byte order mark, or all of it.
pub(crate) fn after_mark(text: &str) -> &str
    ensures rest { chars result.now ≡ after_mark (chars text.now) }
    ensures shorter { length result.now ≤ length text.now }
{
    match strip('\u{feff}', text) {
        Some(rest) => rest,
        None => text,
    }
}
