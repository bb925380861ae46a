//! Writing the items of a block.

ghost use Rattle.std.specs.Prelude.{◌≡◌, ◌∷◌, [], ℕ, slice_index_or, OnOk};
ghost use Rattle.wire_bytes.specs.Section.{spelling_of};
ghost use Rattle.position_codec.specs.Place.{no_place};
ghost use Rattle.type_terms.specs.Trees.{Tree};
ghost use Rattle.file_envelope.specs.FileBytes.{text_number};
ghost use Rattle.file_layout.specs.Bytes.{path_text, place_after};
ghost use Rattle.file_writer.specs.Puts.{Puts};
ghost use Rattle.block_writer.specs.Adding.{meant};
ghost use Rattle.block_writer.specs.Putting.{place_over, PutsItem, PutsItems};

use crate::items::Item;
use crate::numbers::{put_flag, put_number, put_text};
use crate::positions::{Place, no_place, place_of, put_place};
use std::alloc::AllocError;
use type_terms::NodeId;
use wire_bytes::{Strings, Writer};

/// Adds the bytes of items, with the number of each type at its node's place. The texts that they mention are added to
/// the strings. The own path is spelled as the empty text. After a refusal for want of memory some of the bytes may be
/// written, and some of the texts added.
pub fn put_items(
    w: &mut Writer,
    strings: &mut Strings,
    own: &[u8],
    numbers: &[u64],
    items: &[Item<'_>],
) -> Result<(), AllocError>
    ensures { OnOk result (PutsItems own.now numbers.now no_place items.now strings.old strings.new w.old w.new) }
{
    let mut before = no_place();
    for item in items {
        put_item(w, strings, own, numbers, before, item)?;
        before = place_after(before, item);
    }
    Ok(())
}

/// The place before what follows an item.
fn place_after<'a>(before: Place<'a>, item: &Item<'a>) -> Place<'a>
    ensures { (type : ℕ → Tree) → place_over result ≡ place_after (place_over before.entry) (meant type item.now) }
{
    match item {
        Item::Position(pos) => place_of(*pos),
        Item::NoPosition => no_place(),
        Item::Number(_) | Item::Flag(_) | Item::Text(_) | Item::Path(_) | Item::Type(_) => before,
    }
}

/// Adds the bytes of an item behind a place.
fn put_item(
    w: &mut Writer,
    strings: &mut Strings,
    own: &[u8],
    numbers: &[u64],
    before: Place<'_>,
    item: &Item<'_>,
) -> Result<(), AllocError>
    ensures { OnOk result
        (PutsItem own.now numbers.now (place_over before.entry) item.now strings.old strings.new w.old w.new) }
{
    match item {
        Item::Number(number) => put_number(w, *number),
        Item::Flag(flag) => put_flag(w, *flag),
        Item::Text(text) => put_text(w, strings, *text),
        Item::Path(path) => put_path(w, strings, own, *path),
        Item::Position(pos) => put_place(w, strings, before, place_of(*pos)),
        Item::NoPosition => put_place(w, strings, before, no_place()),
        Item::Type(id) => put_number(w, number_of(numbers, *id)),
    }
}

/// The number of a type; one that has none gives 0.
fn number_of(numbers: &[u64], id: NodeId) -> u64
    ensures { result ≡ slice_index_or numbers.now id 0 }
{
    match numbers.get(id.number() as usize) {
        Some(number) => *number,
        None => 0,
    }
}

/// Adds the offset of the text that stands for a package's path, which is empty for the own one.
fn put_path(
    w: &mut Writer,
    strings: &mut Strings,
    own: &[u8],
    path: &[u8],
) -> Result<(), AllocError>
    ensures { OnOk result (Puts (path_text own.now path.now ∷ [])
        (λ texts. spelling_of (text_number texts (path_text own.now path.now))) strings.old strings.new w.old w.new) }
{
    if path == own {
        put_text(w, strings, &[])
    } else {
        put_text(w, strings, path)
    }
}
