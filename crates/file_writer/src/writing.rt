//! A full file of format version 2.

ghost use Rattle.std.specs.Prelude.{◌≡◌, [], ◌∷◌, ◌++◌, List, ℕ, map, fold, length, IfOk, OnOk};
ghost use Rattle.std.specs.List.{flat_map};
ghost use Rattle.wire_bytes.specs.Section.{section_of, spelling_of, with_text};
ghost use Rattle.name_index.specs.Envelope.{Envelope};
ghost use Rattle.file_envelope.specs.FileBytes.{
  text_number,
  entry_bytes,
  package_bytes,
  package_texts,
  index_texts,
  index_bytes,
  header,
  full_bytes,
  file_of,
  MayFollow,
};
ghost use Rattle.file_writer.specs.Puts.{Puts, entry_of, package_of, front_bytes};

use std::alloc::{AllocError, Global};
use wire_bytes::{Strings, Writer};

/// A name of a package, and the offset in the data section at which its declaration starts.
#[derive(Clone, Copy)]
pub struct IndexEntry<'a> {
    pub name: &'a [u8],
    pub offset: u64,
}

/// A package of an index: its path, which is empty for the file's own, its name, and its names in order.
#[derive(Clone, Copy)]
pub struct IndexPackage<'a> {
    pub path: &'a [u8],
    pub name: &'a [u8],
    pub entries: &'a [IndexEntry<'a>],
}

/// The bytes of a full file. The texts of the index are added to those that the data section mentions. After a refusal
/// for want of memory some of them may be added.
///
/// Where the index keeps the rules of one, the bytes are a full file of just these parts.
pub fn write_file(
    alloc: Global,
    strings: &mut Strings,
    body: &[u8],
    index: &[IndexPackage<'_>],
) -> Result<Vec<u8>, AllocError>
    ensures written { IfOk result (λ bytes. bytes.items
        ≡ full_bytes strings.new body.now (map package_of index.now)) }
    ensures strings { OnOk result (strings.new
        ≡ fold with_text strings.old (index_texts (map package_of index.now))) }
    ensures envelope { IfOk result (λ bytes. (own : List ℕ)
        → MayFollow own strings.new body.now (map package_of index.now)
        → Envelope own bytes.items (file_of own strings.new body.now (map package_of index.now))) }
{
    let packages = index_part(alloc, strings, index)?;
    whole(alloc, strings.bytes(), body, packages.bytes())
}

/// The header, and behind it the sections and the index.
fn whole(alloc: Global, strings: &[u8], body: &[u8], index: &[u8]) -> Result<Vec<u8>, AllocError>
    ensures { IfOk result (λ bytes. bytes.items ≡ front_bytes (length strings.now) (length body.now)
        ++ (strings.now ++ (body.now ++ index.now))) }
{
    let front = header_part(alloc, strings.len() as u64, body.len() as u64)?;
    joined(alloc, front.bytes(), strings, body, index)
}

fn joined(
    alloc: Global,
    front: &[u8],
    strings: &[u8],
    body: &[u8],
    index: &[u8],
) -> Result<Vec<u8>, AllocError>
    ensures { IfOk result (λ bytes. bytes.items ≡ front.now ++ (strings.now ++ (body.now ++ index.now))) }
{
    let mut bytes = Vec::from_slice(alloc, front)?;
    bytes.extend_from_slice(strings)?;
    bytes.extend_from_slice(body)?;
    bytes.extend_from_slice(index)?;
    Ok(bytes)
}

/// The letter, the version and the sizes of the two sections.
fn header_part(alloc: Global, strings: u64, body: u64) -> Result<Writer, AllocError>
    ensures { IfOk result (λ w. w ≡ front_bytes strings body) }
{
    let mut w = Writer::new(alloc);
    w.put_byte(b'i')?;
    put_number(&mut w, 2)?;
    put_number(&mut w, strings)?;
    put_number(&mut w, body)?;
    Ok(w)
}

fn index_part(
    alloc: Global,
    strings: &mut Strings,
    index: &[IndexPackage<'_>],
) -> Result<Writer, AllocError>
    ensures { IfOk result (λ w. Puts (index_texts (map package_of index.now))
        (λ texts. index_bytes texts (map package_of index.now)) strings.old strings.new [] w) }
{
    let mut w = Writer::new(alloc);
    put_number(&mut w, index.len() as u64)?;
    put_packages(&mut w, strings, index)?;
    Ok(w)
}

fn put_packages(
    w: &mut Writer,
    strings: &mut Strings,
    index: &[IndexPackage<'_>],
) -> Result<(), AllocError>
    ensures { OnOk result (Puts (index_texts (map package_of index.now))
        (λ texts. flat_map (package_bytes texts) (map package_of index.now)) strings.old strings.new w.old w.new) }
{
    for listed in index {
        put_package(w, strings, listed)?;
    }
    Ok(())
}

fn put_package(
    w: &mut Writer,
    strings: &mut Strings,
    listed: &IndexPackage<'_>,
) -> Result<(), AllocError>
    ensures { OnOk result (Puts (package_texts (package_of listed.now))
        (λ texts. package_bytes texts (package_of listed.now)) strings.old strings.new w.old w.new) }
{
    put_text(w, strings, listed.path)?;
    put_text(w, strings, listed.name)?;
    put_number(w, 0)?;
    put_number(w, listed.entries.len() as u64)?;
    put_entries(w, strings, listed.entries)
}

fn put_entries(
    w: &mut Writer,
    strings: &mut Strings,
    entries: &[IndexEntry<'_>],
) -> Result<(), AllocError>
    ensures { OnOk result (Puts (flat_map (λ e. e.name ∷ []) (map entry_of entries.now))
        (λ texts. flat_map (entry_bytes texts) (map entry_of entries.now)) strings.old strings.new w.old w.new) }
{
    for entry in entries {
        put_entry(w, strings, entry)?;
    }
    Ok(())
}

fn put_entry(
    w: &mut Writer,
    strings: &mut Strings,
    entry: &IndexEntry<'_>,
) -> Result<(), AllocError>
    ensures { OnOk result (Puts (entry.now.name.now ∷ []) (λ texts. entry_bytes texts (entry_of entry.now))
        strings.old strings.new w.old w.new) }
{
    put_text(w, strings, entry.name)?;
    put_number(w, entry.offset)
}

fn put_number(w: &mut Writer, number: u64) -> Result<(), AllocError>
    ensures { OnOk result (w.new ≡ w.old ++ spelling_of number) }
{
    w.put_uvarint(number)
}

/// The offset of a text, which is mentioned by it.
fn put_text(w: &mut Writer, strings: &mut Strings, text: &[u8]) -> Result<(), AllocError>
    ensures { OnOk result (Puts (text.now ∷ []) (λ texts. spelling_of (text_number texts text.now))
        strings.old strings.new w.old w.new) }
{
    let offset = strings.add(text)?;
    w.put_uvarint(offset)
}
