//! The adapters pass bytes on.

use crate::files::OsFiles;
use crate::sink::OsSink;
use ptg_io::{Failed, Files, LoadFault, Sink, load};
use std::alloc::{AllocError, Global};
use std::test::Fail;
use std::{env, fs};

#[test]
fn files_pass_bytes_on(rt: HostRuntime) -> Result<(), Fail> {
    let mut path = env::temp_dir(&rt)?;
    path.push("ptg_files_pass_bytes_on")?;
    fs::write(&rt, path.as_path(), b"0123456789")?;
    let Some(name) = path.as_path().to_str() else {
        assert!(rt; false);
        return Ok(());
    };
    let mut files = OsFiles::new(&rt, rt.alloc());
    let mut into = [0u8; 4];
    for (from, count, bytes) in [
        (0, 4, b"0123"),
        (4, 4, b"4567"),
        (8, 2, b"8967"),
        (10, 0, b"8967"),
        (2, 4, b"2345"),
    ] {
        assert_eq!(rt; files.read(name, from, &mut into), Ok(count));
        assert_eq!(rt; into.as_slice(), bytes.as_slice());
    }
    assert_eq!(rt; files.read("no such file", 0, &mut into), Err(Failed));
    fs::remove_file(&rt, path.as_path())?;
    Ok(())
}

#[test]
fn the_sink_passes_bytes_on(rt: HostRuntime) -> Result<(), Fail> {
    let mut path = env::temp_dir(&rt)?;
    path.push("ptg_the_sink_passes_bytes_on")?;
    let mut sink = OsSink::new(fs::create(&rt, path.as_path())?);
    for piece in [b"ab".as_slice(), b"cde"] {
        assert_eq!(rt; sink.write(piece), Ok(piece.len()));
    }
    let written = fs::read(&rt, path.as_path())?;
    assert_eq!(rt; written.as_slice(), b"abcde".as_slice());
    fs::remove_file(&rt, path.as_path())?;
    Ok(())
}

// This many bytes; the last one differs from the others.
fn content(alloc: Global, count: usize) -> Result<Vec<u8>, AllocError> {
    let mut bytes = vec![in alloc; 7u8; count]?;
    if let Some(last) = bytes.last_mut() {
        *last = 9;
    }
    Ok(bytes)
}

// A file is loaded whole by reads of 65,536 bytes.
#[test]
fn files_are_loaded_whole(rt: HostRuntime) -> Result<(), Fail> {
    let mut path = env::temp_dir(&rt)?;
    path.push("ptg_files_are_loaded_whole")?;
    let Some(name) = path.as_path().to_str() else {
        assert!(rt; false);
        return Ok(());
    };
    for count in [0, 1, 65_536, 65_537] {
        let bytes = content(rt.alloc(), count)?;
        fs::write(&rt, path.as_path(), bytes.as_slice())?;
        let mut files = OsFiles::new(&rt, rt.alloc());
        match load(rt.alloc(), &mut files, name) {
            Ok(loaded) => assert!(rt; loaded.as_slice() == bytes.as_slice()),
            Err(_) => panic!(rt; "the file is not loaded"),
        }
    }
    fs::remove_file(&rt, path.as_path())?;
    Ok(())
}

// A file of more than 16 MiB is too long.
#[test]
fn a_file_of_more_than_16_mib_is_too_long(rt: HostRuntime) -> Result<(), Fail> {
    let mut path = env::temp_dir(&rt)?;
    path.push("ptg_a_file_of_more_than_16_mib")?;
    let Some(name) = path.as_path().to_str() else {
        assert!(rt; false);
        return Ok(());
    };
    for (count, loaded) in [
        (16_777_216, Ok(16_777_216)),
        (16_777_217, Err(LoadFault::TooLong)),
    ] {
        let bytes = content(rt.alloc(), count)?;
        fs::write(&rt, path.as_path(), bytes.as_slice())?;
        let mut files = OsFiles::new(&rt, rt.alloc());
        let result = load(rt.alloc(), &mut files, name).map(|bytes| bytes.len());
        assert_eq!(rt; result, loaded);
    }
    fs::remove_file(&rt, path.as_path())?;
    Ok(())
}

// The file grows between two reads: each read gives what the file has by then.
#[test]
fn a_file_grows_between_two_reads(rt: HostRuntime) -> Result<(), Fail> {
    let mut path = env::temp_dir(&rt)?;
    path.push("ptg_a_file_grows_between_two_reads")?;
    let Some(name) = path.as_path().to_str() else {
        assert!(rt; false);
        return Ok(());
    };
    let mut files = OsFiles::new(&rt, rt.alloc());
    let mut into = [0u8; 4];
    for (content, from, count, bytes) in [
        (b"0123".as_slice(), 0, 4, b"0123"),
        (b"012345", 4, 2, b"4523"),
        (b"012345", 6, 0, b"4523"),
        (b"01234567", 6, 2, b"6723"),
    ] {
        fs::write(&rt, path.as_path(), content)?;
        assert_eq!(rt; files.read(name, from, &mut into), Ok(count));
        assert_eq!(rt; into.as_slice(), bytes.as_slice());
    }
    fs::remove_file(&rt, path.as_path())?;
    Ok(())
}
