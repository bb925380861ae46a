//! The files and outputs of this machine.
use crate::host_files::HostFiles;
use crate::std_sink::StdSink;
use outside::{FetchFault, Files, Sink};
use std::test::Fail;
use std::{env, fs};

/// A file is written by pieces, fetched, stored anew and removed.
#[test]
fn real_files(rt: HostRuntime) -> Result<(), Fail> {
    let alloc = rt.alloc();
    let folder = env::temp_dir(&rt)?;
    let folder = folder.as_str();
    let name = format!(in alloc; "{folder}/exportdata-real-files")?;
    let name = name.as_str();
    let mut sink = StdSink::new(alloc, fs::create(&rt, name)?)?;
    let long = vec![in alloc; b'x'; 100_000]?;
    for piece in [b"first ".as_slice(), long.as_slice(), b" last".as_slice()] {
        assert!(rt; sink.put(piece).is_ok());
    }
    assert!(rt; sink.finish().is_ok());
    let mut files = HostFiles::new(&rt);
    let mut bytes = Vec::from_slice(alloc, b"-")?;
    assert!(rt; files.fetch(name, 100_011, &mut bytes).is_ok());
    assert!(rt; bytes.as_slice().starts_with(b"-first x") && bytes.as_slice().ends_with(b"x last"));
    assert_eq!(rt;
        files.fetch(name, 100_010, &mut bytes),
        Err(FetchFault::TooLong)
    );
    assert!(rt; files.store(name, b"stored").is_ok());
    assert!(rt; files.fetch(name, 6, &mut bytes).is_ok());
    assert!(rt; bytes.as_slice().ends_with(b"x laststored"));
    fs::remove_file(&rt, name)?;
    Ok(())
}

#[test]
fn files_that_are_no_files(rt: HostRuntime) -> Result<(), Fail> {
    let alloc = rt.alloc();
    let folder = env::temp_dir(&rt)?;
    let folder = folder.as_str();
    let none = format!(in alloc; "{folder}/exportdata-no-such-file")?;
    let mut files = HostFiles::new(&rt);
    let mut bytes = Vec::new(alloc);
    assert_eq!(rt;
        files.fetch(none.as_str(), 5, &mut bytes),
        Err(FetchFault::Missing)
    );
    assert_eq!(rt; files.fetch(folder, 5, &mut bytes), Err(FetchFault::Failed));
    assert!(rt; files.store(folder, b"").is_err());
    assert!(rt; bytes.is_empty());
    Ok(())
}
