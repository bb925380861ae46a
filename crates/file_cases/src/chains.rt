use std::alloc::{AllocError, Global};
use wire_bytes::Writer;

/// How a descriptor names the one before it.
#[derive(Clone, Copy)]
pub enum Link {
    Pointer,
    /// In each of two fields.
    Struct,
}

/// Below this number a type is a predeclared one.
const FIRST_DESCRIPTOR: u64 = 32;

/// The string section: "" at 0, "p" at 1, "A" at 3, "a" at 5 and "b" at 7.
const STRINGS: &[u8] = b"\x00\x01p\x01A\x01a\x01b";

/// The index but for the offset of A: one package, whose path is empty and whose name is `p`, of height 0, with one
/// name.
const INDEX: [u8; 6] = [1, 0, 1, 0, 1, 3];

/// A file of `package p` that declares the variable A. Its type is the last of a chain of so many descriptors, of
/// which the first names int, or is a struct without fields.
pub fn chain_file(alloc: Global, link: Link, count: u64) -> Result<Vec<u8>, AllocError> {
    let mut data = Writer::new(alloc);
    let last = put_chain(&mut data, link, count)?;
    let variable = data.bytes().len() as u64;
    data.put_byte(b'V')?;
    data.put_uvarint(0)?;
    data.put_uvarint(last)?;
    let mut file = Writer::new(alloc);
    put_all(&mut file, b"i\x02")?;
    file.put_uvarint(STRINGS.len() as u64)?;
    file.put_uvarint(data.bytes().len() as u64)?;
    put_all(&mut file, STRINGS)?;
    put_all(&mut file, data.bytes())?;
    put_all(&mut file, &INDEX)?;
    file.put_uvarint(variable)?;
    Vec::from_slice(alloc, file.bytes())
}

/// The number of the last type.
fn put_chain(data: &mut Writer, link: Link, count: u64) -> Result<u64, AllocError> {
    let mut before = match link {
        Link::Pointer => 1,
        Link::Struct => put_empty_struct(data)?,
    };
    for _ in 0..count {
        let next = next_number(data);
        put_link(data, link, before)?;
        before = next;
    }
    Ok(before)
}

fn next_number(data: &Writer) -> u64 {
    (data.bytes().len() as u64).saturating_add(FIRST_DESCRIPTOR)
}

fn put_empty_struct(data: &mut Writer) -> Result<u64, AllocError> {
    let number = next_number(data);
    put_all(data, &[7, 0, 0])?;
    Ok(number)
}

fn put_link(data: &mut Writer, link: Link, before: u64) -> Result<(), AllocError> {
    match link {
        Link::Pointer => {
            data.put_uvarint(1)?;
            data.put_uvarint(before)
        }
        Link::Struct => {
            put_all(data, &[7, 0, 2])?;
            put_field(data, 5, before)?;
            put_field(data, 7, before)
        }
    }
}

/// A field without position or tag.
fn put_field(data: &mut Writer, name: u8, ty: u64) -> Result<(), AllocError> {
    put_all(data, &[0, name])?;
    data.put_uvarint(ty)?;
    put_all(data, &[0, 0])
}

fn put_all(writer: &mut Writer, bytes: &[u8]) -> Result<(), AllocError> {
    for byte in bytes {
        writer.put_byte(*byte)?;
    }
    Ok(())
}
