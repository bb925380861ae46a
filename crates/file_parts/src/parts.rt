//! The parts of a file, as its readers take them.

ghost use Rattle.std.specs.Prelude.{◌≡◌, ◌+◌, ◌-◌, ◌<◌, ◌≤◌, ◌&&◌, ◌||◌, nat_eq, get_or, take, drop, List, [], ℕ};
ghost use Rattle.std.specs.Prelude.{length};
ghost use Rattle.std.specs.Prelude.{IfSome, IfNone};
ghost use Rattle.std.specs.Cmp.Lexicographic.{pointwise};
ghost use Rattle.std.specs.Option.{option_copied};
ghost use Rattle.std.specs.List.{AllByRecursion};
ghost use Rattle.wire_bytes.specs.Order.{Rise};
ghost use Rattle.file_parts.specs.Paths.{IsInside, texts_of, IsPathAt, is_among, path_for, path_in};
ghost use Rattle.file_parts.specs.FileParts.{strings_of, body_of, paths_of, IsOfFile};

use crate::search::find_titled;
use crate::spans::TextSpan;
use wire_bytes::{Cursor, text_at};

/// The form of a file.
#[derive(Clone, Copy, Debug, PartialEq, Eq)]
pub enum FileForm {
    Full,
    Shallow,
    Bundle,
}

/// A file and where its parts are. Each reader asks that the two sections lie inside the file.
#[derive(Clone, Copy)]
pub struct Parts<'a> {
    /// The bytes of the file.
    pub file: &'a [u8],
    /// Where the string section begins, and how many bytes it has.
    pub strings_at: u64,
    pub strings_len: u64,
    /// Where the data section begins, and how many bytes it has.
    pub body_at: u64,
    pub body_len: u64,
    /// The format version.
    pub version: u8,
    pub form: FileForm,
    /// The path of the file's own package; empty for a bundle, which has none.
    pub own: &'a [u8],
    /// Where the paths of the index stand in the string section, in the order of the index.
    pub paths: &'a [TextSpan],
}

impl<'a> Parts<'a> {
    /// The bytes of the string section.
    pub fn strings(&self) -> &'a [u8]
        requires { self.now.strings_at + self.now.strings_len ≤ length self.now.file.now }
        ensures { result.now ≡ strings_of self.now }
    {
        let start = self.strings_at as usize;
        &self.file[start..start + self.strings_len as usize]
    }

    /// The bytes of the data section.
    pub fn body(&self) -> &'a [u8]
        requires { self.now.body_at + self.now.body_len ≤ length self.now.file.now }
        ensures { result.now ≡ body_of self.now }
    {
        let start = self.body_at as usize;
        &self.file[start..start + self.body_len as usize]
    }

    /// The bytes of the data section from an offset up to another, to be read.
    pub fn cursor(&self, from: u64, to: u64) -> Cursor<'a>
        requires section { self.now.body_at + self.now.body_len ≤ length self.now.file.now }
        requires order { from ≤ to }
        requires inside { to ≤ self.now.body_len }
        ensures end { result.end ≡ self.now.body_at + to }
        ensures left { result.left ≡ take (to - from) (drop from (body_of self.now)) }
        // A proof knows it of a slice, and not of one in a struct behind a reference.
        ensures bytes { (i : ℕ) → get_or self.now.file.now i 0 < 256 }
    {
        let at = self.body_at as usize;
        cursor_in(self.file, at + from as usize, at + to as usize)
    }

    /// The package path for which the text at an offset of the string section stands. The empty text stands for the
    /// file's own path, where the index has the empty text; any other for itself, where it is a path of the index. The
    /// path is found by halves, and no memory is taken.
    pub fn path_at(&self, offset: u64) -> Option<&'a [u8]>
        requires { IsOfFile self.now }
        ensures found { IfSome result (λ path.
            IsPathAt (strings_of self.now) self.now.own.now (paths_of self.now) offset path.now) }
        ensures none { IfNone result ((path : List ℕ)
            → IsPathAt (strings_of self.now) self.now.own.now (paths_of self.now) offset path → ⊥) }
        ensures exact { option_copied result
            ≡ path_in (strings_of self.now) self.now.own.now (paths_of self.now) offset }
    {
        path_at(self.strings(), self.own, self.paths, offset)
    }
}

fn cursor_in(file: &[u8], from: usize, to: usize) -> Cursor<'_>
    requires order { from ≤ to }
    requires inside { to ≤ length file.now }
    ensures end { result.end ≡ to }
    ensures left { result.left ≡ take (to - from) (drop from file.now) }
    ensures bytes { (i : ℕ) → get_or file.now i 0 < 256 }
{
    Cursor::new(file, from, to)
}

fn path_at<'a>(
    strings: &'a [u8],
    own: &'a [u8],
    paths: &[TextSpan],
    offset: u64,
) -> Option<&'a [u8]>
    requires inside { AllByRecursion (λ s. IsInside strings.now s) paths.now }
    requires rising { Rise (texts_of strings.now paths.now) }
    ensures found { IfSome result (λ path.
        IsPathAt strings.now own.now (texts_of strings.now paths.now) offset path.now) }
    ensures none { IfNone result ((path : List ℕ)
        → IsPathAt strings.now own.now (texts_of strings.now paths.now) offset path → ⊥) }
    ensures exact { option_copied result ≡ path_in strings.now own.now (texts_of strings.now paths.now) offset }
{
    path_for(strings, own, paths, text_at(strings, offset)?)
}

/// The path for which a text stands.
fn path_for<'a>(
    strings: &[u8],
    own: &'a [u8],
    paths: &[TextSpan],
    text: &'a [u8],
) -> Option<&'a [u8]>
    requires inside { AllByRecursion (λ s. IsInside strings.now s) paths.now }
    requires rising { Rise (texts_of strings.now paths.now) }
    ensures { option_copied result ≡ path_for own.now (texts_of strings.now paths.now) text.now }
{
    if text.is_empty() {
        return is_listed(strings, paths, text).then_some(own);
    }
    is_path(strings, own, paths, text).then_some(text)
}

/// Whether a text is a path of the index, or the own path where the index has the empty text for it.
fn is_path(strings: &[u8], own: &[u8], paths: &[TextSpan], text: &[u8]) -> bool
    requires inside { AllByRecursion (λ s. IsInside strings.now s) paths.now }
    requires rising { Rise (texts_of strings.now paths.now) }
    ensures { result
        ≡ (is_among (texts_of strings.now paths.now) text.now
        || (pointwise nat_eq text.now own.now && is_among (texts_of strings.now paths.now) [])) }
{
    is_listed(strings, paths, text) || text == own && is_listed(strings, paths, &[])
}

/// Whether the index spells a path so.
fn is_listed(strings: &[u8], paths: &[TextSpan], path: &[u8]) -> bool
    requires inside { AllByRecursion (λ s. IsInside strings.now s) paths.now }
    requires rising { Rise (texts_of strings.now paths.now) }
    ensures { result ≡ is_among (texts_of strings.now paths.now) path.now }
{
    find_titled(strings, paths, path).is_some()
}
