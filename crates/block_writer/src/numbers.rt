//! Numbers and texts.

ghost use Rattle.std.specs.Prelude.{◌≡◌, ◌++◌, ◌∷◌, [], IsTrue, OnOk};
ghost use Rattle.wire_bytes.specs.Section.{spelling_of};
ghost use Rattle.wire_bytes.specs.Whole.{IsGreatestLength, in_range};
ghost use Rattle.file_envelope.specs.FileBytes.{text_number};
ghost use Rattle.file_layout.specs.Bytes.{signed_bytes, flag_bytes, whole_bytes};
ghost use Rattle.file_writer.specs.Puts.{Puts};

use std::alloc::AllocError;
use wire_bytes::{Strings, Writer, uvarint_of};

pub(crate) fn put_number(w: &mut Writer, number: u64) -> Result<(), AllocError>
    ensures { OnOk result (w.new ≡ w.old ++ spelling_of number) }
{
    w.put_uvarint(number)
}

pub(crate) fn put_signed(w: &mut Writer, number: i64) -> Result<(), AllocError>
    ensures { OnOk result (w.new ≡ w.old ++ signed_bytes number) }
{
    put_number(w, uvarint_of(number))
}

pub(crate) fn put_flag(w: &mut Writer, flag: bool) -> Result<(), AllocError>
    ensures { OnOk result (w.new ≡ w.old ++ flag_bytes flag) }
{
    w.put_flag(flag)
}

pub(crate) fn put_whole(
    w: &mut Writer,
    signed: bool,
    max: u8,
    value: i128,
) -> Result<(), AllocError>
    requires length { IsGreatestLength max }
    requires untyped { max ≡ 64 → IsTrue signed }
    requires of_type { IsTrue (in_range signed max value) }
    ensures { OnOk result (w.new ≡ w.old ++ whole_bytes signed max value) }
{
    w.put_whole(value, signed, max)
}

/// Adds the offset of a text, which is mentioned by it.
pub(crate) fn put_text(w: &mut Writer, strings: &mut Strings, text: &[u8]) -> Result<(), AllocError>
    ensures { OnOk result (Puts (text.now ∷ []) (λ texts. spelling_of (text_number texts text.now))
        strings.old strings.new w.old w.new) }
{
    let offset = strings.add(text)?;
    w.put_uvarint(offset)
}
