//! Positions that are written one after another.
use go_values::{Bytes, Pos};
use position_codec::{PrevPos, write_full};
use std::alloc::{AllocError, Global};
use std::test::Fail;
use wire_bytes::{Strings, Writer};

fn place(alloc: Global, file: &str, line: u32, column: u32) -> Result<Pos, AllocError> {
    Ok(Pos::At {
        file: Bytes::from_slice(alloc, file.as_bytes())?,
        line,
        column,
    })
}

// Files, lines and columns; the last are no position.
const PLACES: [(&str, u32, u32); 7] = [
    ("p.go", 2, 7),
    ("p.go", 2, 3),
    ("p.go", 9, 1),
    ("p.go", 3, 1),
    ("q.go", 3, 1),
    ("p.go", 3, 1),
    ("", 0, 0),
];

const WRITTEN: [u8; 17] = [
    0x1e, 0x0a, 0, 0x0f, 0x05, 0x1c, 0x02, 0x17, 0x02, 0x02, 5, 0x02, 0x02, 0, 0x01, 0x09, 10,
];

#[test]
fn positions_follow_one_another(rt: HostRuntime) -> Result<(), Fail> {
    let alloc = rt.alloc();
    let mut writer = Writer::new(alloc);
    let mut strings = Strings::new(alloc);
    let mut last = PrevPos::start(alloc);
    for (file, line, column) in PLACES {
        let pos = place(alloc, file, line, column)?;
        write_full(alloc, &mut writer, &mut strings, &mut last, &pos)?;
    }
    assert_eq!(rt; writer.bytes(), WRITTEN.as_slice());
    assert_eq!(rt; strings.bytes(), b"\x04p.go\x04q.go\x00".as_slice());
    assert_eq!(rt; last.file_off(), Some(10));
    Ok(())
}
