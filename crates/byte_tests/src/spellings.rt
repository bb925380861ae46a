//! Numbers and texts that are written, and the parts of a file that are read.
use go_values::Bytes;
use std::test::Fail;
use wire_bytes::{ByteFault, Cursor, Span, Strings, Writer, text_span};

#[test]
fn parts(rt: HostRuntime) -> Result<(), Fail> {
    let mut cursor = Cursor::new(b"xabcyz", 1, 5);
    assert_eq!(rt; cursor.place(), 1);
    assert_eq!(rt; cursor.byte(), Ok(b'a'));
    assert_eq!(rt; cursor.take(2), Ok(b"bc".as_slice()));
    assert_eq!(rt; cursor.take(2), Err(ByteFault::Ended { at: 5 }));
    assert_eq!(rt; cursor.place(), 4);
    assert!(rt; !cursor.is_at_end());
    assert_eq!(rt; cursor.byte(), Ok(b'y'));
    assert!(rt; cursor.is_at_end());
    assert_eq!(rt; cursor.byte(), Err(ByteFault::Ended { at: 5 }));
    assert_eq!(rt; text_span(b"\x04p.go", 0), Some(Span { start: 1, end: 5 }));
    Ok(())
}

#[test]
fn written_numbers(rt: HostRuntime) -> Result<(), Fail> {
    let mut writer = Writer::new(rt.alloc());
    writer.put_uvarint(300)?;
    writer.put_varint(-1)?;
    writer.put_flag(true)?;
    writer.put_byte(9)?;
    assert_eq!(rt; writer.bytes(), [0xac, 2, 1, 1, 9].as_slice());
    writer.put_uvarint(u64::MAX)?;
    writer.put_varint(i64::MIN)?;
    const GREATEST: [u8; 10] = [255, 255, 255, 255, 255, 255, 255, 255, 255, 1];
    assert_eq!(rt; writer.bytes().len(), 25);
    assert!(rt; writer.bytes().ends_with(&GREATEST));
    assert!(rt; writer.bytes()[..15].ends_with(&GREATEST));
    Ok(())
}

#[test]
fn written_constants(rt: HostRuntime) -> Result<(), Fail> {
    let mut writer = Writer::new(rt.alloc());
    writer.put_whole(i128::from(u64::MAX), false, 8)?;
    writer.put_whole(i128::from(i64::MIN), true, 8)?;
    writer.put_whole(-128, true, 1)?;
    writer.put_whole(-65, true, 64)?;
    const WRITTEN: [u8; 21] = [
        0xf8, 255, 255, 255, 255, 255, 255, 255, 255, 0xf1, 0x80, 0, 0, 0, 0, 0, 0, 0, 0xff, 0xff,
        0x41,
    ];
    assert_eq!(rt; writer.bytes(), WRITTEN.as_slice());
    Ok(())
}

#[test]
fn written_texts(rt: HostRuntime) -> Result<(), Fail> {
    let mut strings = Strings::new(rt.alloc());
    for (text, offset) in [("a", 0), ("b", 2), ("a", 0), ("", 4)] {
        assert_eq!(rt; strings.add(text.as_bytes()), Ok(offset), "{text}");
    }
    assert_eq!(rt; strings.bytes(), b"\x01a\x01b\x00".as_slice());
    Ok(())
}

#[test]
fn owned_texts(rt: HostRuntime) -> Result<(), Fail> {
    let first = Bytes::from_slice(rt.alloc(), b"ab")?;
    let other = Bytes::from_vec(Vec::from_slice(rt.alloc(), b"b")?);
    assert_eq!(rt; first.clone()?.as_slice(), b"ab".as_slice());
    assert!(rt; first < other && first != other);
    Ok(())
}
