//! The fakes of devices, with the calls that they are to fail.
use outside::{FetchFault, Files, MemoryFiles, MemorySink, Sink, SinkFault, StoreFault};
use std::alloc::{AllocError, Global};
use std::test::Fail;

// Two bodies of one name, of which the first counts, and another file.
fn some_files(alloc: Global) -> Result<Vec<(String, Vec<u8>)>, AllocError> {
    let mut files = Vec::new(alloc);
    for (name, body) in [("p.x", "one"), ("p.x", "two"), ("d/q.x", "")] {
        files.push((
            String::from_str(alloc, name)?,
            Vec::from_slice(alloc, body.as_bytes())?,
        ))?;
    }
    Ok(files)
}

#[test]
fn files_are_stored(rt: HostRuntime) -> Result<(), Fail> {
    let alloc = rt.alloc();
    let mut files = MemoryFiles::new(alloc, some_files(alloc)?, Vec::from_slice(alloc, &[1])?)?;
    let mut into = Vec::new(alloc);
    assert_eq!(rt; files.fetch("p.x", 3, &mut into), Ok(()));
    assert_eq!(rt; files.store("q.x", b"new"), Err(StoreFault::Failed));
    assert_eq!(rt; files.fetch("q.x", 9, &mut into), Err(FetchFault::Missing));
    assert_eq!(rt; files.store("p.x", b"new"), Ok(()));
    assert_eq!(rt; files.fetch("p.x", 3, &mut into), Ok(()));
    assert_eq!(rt; into.as_slice(), b"onenew".as_slice());
    Ok(())
}

// Pieces, and whether they go whole: put 1 is planned to fail after 3 bytes and put 3 after 9, and 16 bytes have
// room.
const PIECES: [(&str, bool); 6] = [
    ("abcd", true),
    ("efgh", false),
    ("ij", true),
    ("kl", false),
    ("mnopqr", false),
    ("s", false),
];

#[test]
fn a_sink_in_memory(rt: HostRuntime) -> Result<(), Fail> {
    let alloc = rt.alloc();
    let mut sink = MemorySink::new(alloc, Vec::from_slice(alloc, &[(1, 3), (3, 9), (1, 0)])?)?;
    sink.reserve(16)?;
    for (piece, goes) in PIECES {
        let wanted = if goes { Ok(()) } else { Err(SinkFault::Failed) };
        assert_eq!(rt; sink.put(piece.as_bytes()), wanted, "{piece}");
    }
    assert_eq!(rt; sink.written(), b"abcdefgijklmnopq".as_slice());
    Ok(())
}
