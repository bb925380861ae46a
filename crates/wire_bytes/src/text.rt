//! Texts of a string section.

ghost use Rattle.std.specs.Prelude.{◌≡◌, ◌≤◌, List, ℕ, length, IfSome, IfNone, slice_range, option_map};
ghost use Rattle.std.specs.Option.{option_copied};
ghost use Rattle.std.specs.Prelude.{◌-◌, drop};
ghost use Rattle.wire_bytes.specs.Text.{Text, text_in};
ghost use Rattle.wire_bytes.specs.Uvarint.{BeginsWith};

use crate::number::leading_uvarint;

/// A range of places in a list of bytes, the end not included.
#[derive(Clone, Copy, Debug, PartialEq, Eq)]
pub struct Span {
    pub start: usize,
    pub end: usize,
}

/// The text at an offset of a string section: its length and then the text, both wholly inside the section. The text is
/// lent, and no memory is taken.
pub fn text_at(strings: &[u8], offset: u64) -> Option<&[u8]>
    ensures found { IfSome result (λ t. Text strings.now offset t.now) }
    ensures none { IfNone result ((t : List ℕ) → Text strings.now offset t → ⊥) }
    ensures exact { option_copied result ≡ text_in strings.now offset }
{
    lent_at(strings, offset)
}

/// Where in the section the text at an offset stands: behind the spelling of its length, which is at the offset.
#[tactic(auto, using(crate::proofs::TextLemmas::text_lies, crate::proofs::TextLemmas::text_place))]
pub fn text_span(strings: &[u8], offset: u64) -> Option<Span>
    ensures order { IfSome result (λ s. s.start ≤ s.end) }
    ensures inside { IfSome result (λ s. s.end ≤ length strings.now) }
    ensures place { IfSome result (λ s. BeginsWith (drop offset strings.now) (s.end - s.start)
        (drop s.start strings.now)) }
    ensures exact { option_map (λ s. slice_range strings.now s.start s.end) result ≡ text_in strings.now offset }
{
    if offset > strings.len() as u64 {
        return None;
    }
    let Ok((len, rest)) = leading_uvarint(&strings[offset as usize..]) else {
        return None;
    };
    if len > rest.len() as u64 {
        return None;
    }
    let start = strings.len() - rest.len();
    Some(Span {
        start,
        end: start + len as usize,
    })
}

fn lent_at(strings: &[u8], offset: u64) -> Option<&[u8]>
    ensures { option_copied result ≡ text_in strings.now offset }
{
    let span = text_span(strings, offset)?;
    Some(&strings[span.start..span.end])
}
