//! Files are loaded and bytes are written one byte at a time.

use crate::{ByteFiles, ByteSink, Failed, File, LoadFault, MemFiles, MemSink, load, write_all};
use ptg_base::{OutOfMemory, Seq, Text};
use std::alloc::Global;
use std::test::Fail;

// The list of failing calls: the one with this number alone.
fn failing(alloc: Global, number: u64) -> Result<Seq<u64>, OutOfMemory> {
    let mut numbers = Seq::new(alloc);
    numbers.push(number)?;
    Ok(numbers)
}

// Loads the file `f` of these bytes; the read with this number fails.
fn loaded(
    alloc: Global,
    bytes: &[u8],
    fails: u64,
) -> Result<Result<Seq<u8>, LoadFault>, OutOfMemory> {
    let mut content = Seq::new(alloc);
    content.append(bytes)?;
    let mut list = Seq::new(alloc);
    list.push(File::new(Text::of(alloc, b"f")?, content))?;
    let mut files = ByteFiles {
        files: MemFiles::new(alloc, list, failing(alloc, fails)?)?,
    };
    Ok(load(alloc, &mut files, "f"))
}

// Five bytes take five reads, and a sixth finds the end.
#[test]
fn a_file_is_loaded_byte_by_byte(rt: HostRuntime) -> Result<(), Fail> {
    match loaded(rt.alloc(), b"abcde", 7)? {
        Ok(bytes) => assert_eq!(rt; bytes.as_slice(), b"abcde".as_slice()),
        Err(_) => panic!(rt; "the file is not loaded"),
    }
    Ok(())
}

// A failed read is a fault, even after good reads, and even if it would have found the end.
#[test]
fn a_read_fails_in_the_middle_of_a_file(rt: HostRuntime) -> Result<(), Fail> {
    for number in [1, 3, 6] {
        match loaded(rt.alloc(), b"abcde", number)? {
            Err(fault) => assert_eq!(rt; fault, LoadFault::Failed),
            Ok(_) => panic!(rt; "the file is loaded"),
        }
    }
    Ok(())
}

// Of five writes, the one with this number fails. Each write before it took one byte.
#[test]
fn bytes_are_written_one_by_one(rt: HostRuntime) -> Result<(), Fail> {
    for (number, result, written) in [
        (1, Err(Failed), b"".as_slice()),
        (3, Err(Failed), b"ab"),
        (5, Err(Failed), b"abcd"),
        (6, Ok(()), b"abcde"),
    ] {
        let sink = MemSink::new(rt.alloc(), failing(rt.alloc(), number)?);
        let mut out = ByteSink { sink };
        assert_eq!(rt; write_all(&mut out, b"abcde"), result);
        assert_eq!(rt; out.sink.bytes(), written);
    }
    Ok(())
}
