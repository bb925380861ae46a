ghost use Rattle.std.specs.Prelude.{◌≡◌, ◌↔◌, IsTrue};
ghost use Rattle.environments.specs.Exported.{IsExported, StartsUpper, valid_front, starts_upper, exported};
ghost use Rattle.std.specs.Str.{chars};

use std::str;
use unicode::properties::GeneralCategory;

/// Whether a name is exported: it begins with the UTF-8 spelling of an upper case letter (the Go specification,
/// "Exported identifiers"). Takes no memory; costs one pass over the name.
pub fn is_exported(name: &[u8]) -> bool
    ensures meant { IsTrue result ↔ IsExported name.now }
    ensures tested { result ≡ exported name.now }
{
    starts_upper(valid_front(name))
}

fn starts_upper(text: &str) -> bool
    ensures meant { IsTrue result ↔ StartsUpper (chars text.now) }
    ensures tested { result ≡ starts_upper (chars text.now) }
{
    match text.chars().next() {
        Some(c) => matches!(
            GeneralCategory::for_char(c),
            GeneralCategory::UppercaseLetter
        ),
        None => false,
    }
}

/// The longest front that is UTF-8.
fn valid_front(bytes: &[u8]) -> &str
    ensures { result.now ≡ valid_front bytes.now }
{
    match str::from_utf8(bytes) {
        Ok(text) => text,
        Err(fault) => match str::from_utf8(&bytes[..fault.valid_up_to()]) {
            Ok(text) => text,
            Err(_) => unreachable!(),
        },
    }
}
