//! A search by halves among records that are sorted by a text.

ghost use Rattle.std.specs.Prelude.{◌≡◌, ◌<◌, ◌^◌, ℕ, List, length, map, Some, IfSome, IfNone, slice_get};
ghost use Rattle.std.specs.Ordering.{nat_cmp};
ghost use Rattle.std.specs.List.{AllByRecursion};
ghost use Rattle.std.specs.Cmp.Lexicographic.{slice_cmp};
ghost use Rattle.wire_bytes.specs.Order.{Rise};
ghost use Rattle.file_parts.specs.Paths.{IsInside, text_of};

use crate::spans::{TextSpan, text_of};
use std::cmp::Ordering;

/// A record that is found by a text of the string section.
pub trait Titled {
    ghost use Rattle.file_parts.specs.declared.spans.TextSpan.{TextSpan};

    ghost title: { Self → TextSpan };

    fn title(&self) -> TextSpan
        ensures { result ≡ title self.now };
}

impl Titled for TextSpan {
    ghost title = { λ s. s };

    fn title(&self) -> TextSpan {
        *self
    }
}

/// Which of the records, whose titles rise, has this title. It compares with as many as the number of records has bits,
/// and takes no memory.
pub fn find_titled<T: Titled>(strings: &[u8], records: &[T], wanted: &[u8]) -> Option<usize>
    requires small { length records.now < 2 ^ 63 }
    requires inside { AllByRecursion (λ r. IsInside strings.now (T.title r)) records.now }
    requires rising { Rise (map (λ r. text_of strings.now (T.title r)) records.now) }
    ensures within { IfSome result (λ i. i < length records.now) }
    ensures found { IfSome result (λ i.
        slice_get (map (λ r. text_of strings.now (T.title r)) records.now) i ≡ Some wanted.now) }
    ensures none { IfNone result ((i : ℕ)
        → slice_get (map (λ r. text_of strings.now (T.title r)) records.now) i ≡ Some wanted.now → ⊥) }
{
    records
        .binary_search_by(
            |record: &T| -> Ordering
                ensures { result ≡ slice_cmp nat_cmp (text_of strings.entry.now (T.title record.now)) wanted.entry.now }
            { text_of(strings, record.title()).cmp(wanted) },
        )
        .ok()
}
