//! Either all arguments are read, or the call is refused.

use crate::arguments::{LONGEST, words};
use ptg_base::OutOfMemory;
use std::alloc::Global;
use std::env::{Env, FillError};
use std::test::Fail;

// A process with these arguments, the program's name first, and without an environment.
#[derive(Drop)]
struct Process<'a> {
    arguments: &'a [&'a [u8]],
}

impl Env for Process<'_> {
    fn arg(&self, i: usize, buf: &mut [u8]) -> Result<usize, FillError> {
        let Some(word) = self.arguments.get(i) else {
            return Err(FillError::NotPresent);
        };
        let Some(start) = buf.get_mut(..word.len()) else {
            return Err(FillError::TooLong);
        };
        start.copy_from_slice(word);
        Ok(word.len())
    }

    fn var(&self, _name: &str, _buf: &mut [u8]) -> Result<usize, FillError> {
        Err(FillError::NotPresent)
    }

    fn var_at(&self, _i: usize, _buf: &mut [u8]) -> Result<usize, FillError> {
        Err(FillError::NotPresent)
    }
}

// How many arguments are read, and how many bytes they have together. None if they are refused.
fn counts(alloc: Global, arguments: &[&[u8]]) -> Option<(usize, usize)> {
    match words(&Process { arguments }, alloc) {
        Ok(list) => {
            let mut bytes = 0usize;
            for text in list.as_slice() {
                bytes = bytes.saturating_add(text.bytes().len());
            }
            Some((list.len(), bytes))
        }
        Err(OutOfMemory) => None,
    }
}

#[test]
fn each_argument_is_read(rt: HostRuntime) -> Result<(), Fail> {
    let process = Process {
        arguments: &[b"ptg", b"run", b"", b"a\xff.jdf"],
    };
    let list = words(&process, rt.alloc())?;
    assert_eq!(rt; list.len(), 3);
    for (text, word) in list
        .as_slice()
        .iter()
        .zip([b"run".as_slice(), b"", b"a\xff.jdf"])
    {
        assert_eq!(rt; text.bytes(), word);
    }
    Ok(())
}

#[test]
fn no_argument_is_dropped(rt: HostRuntime) -> Result<(), Fail> {
    let alloc = rt.alloc();
    let longest = vec![in alloc; 120u8; LONGEST]?;
    let too_long = vec![in alloc; 120u8; LONGEST + 1]?;
    assert_eq!(rt; counts(alloc, &[]), Some((0, 0)));
    assert_eq!(rt; counts(alloc, &[b"ptg"]), Some((0, 0)));
    assert_eq!(rt; counts(alloc, &[b"ptg", b"show"]), Some((1, 4)));
    assert_eq!(rt;
        counts(alloc, &[b"ptg", longest.as_slice(), b"a"]),
        Some((2, 262145))
    );
    assert_eq!(rt;
        counts(alloc, &[b"ptg", b"show", too_long.as_slice()]),
        None
    );
    assert_eq!(rt; counts(alloc, &[b"ptg", too_long.as_slice(), b"a"]), None);
    Ok(())
}
