//! That calls succeed where memory is there, and that a fault in mid-stream is told.

use resh_io::{
    Cut, MemorySink, MemorySource, ReadAllFault, StdSink, StdSource, read_all, write_all,
};
use std::alloc::Global;
use std::io;
use std::test::Fail;

/// What comes of reading `abcdef`, and the bytes that are left.
fn reading(alloc: Global, most: usize, failing: u64, limit: u32) -> Result<String, Fail> {
    let bytes = b"abcdef".to_vec(alloc)?;
    let mut source = MemorySource::new(bytes, [failing].to_vec(alloc)?, most.max(1));
    let read = read_all(alloc, &mut source, u64::from(limit));
    Ok(format!(in alloc; "{read:?} {}", source.rest().len())?)
}

/// What comes of writing `abcdef`, and how many bytes were written.
fn writing(alloc: Global, most: usize, failing: u64) -> Result<String, Fail> {
    let mut sink = MemorySink::new(alloc, [failing].to_vec(alloc)?, most.max(1));
    let written = write_all(&mut sink, b"abcdef");
    Ok(format!(in alloc; "{written:?} {}", sink.bytes().len())?)
}

#[test]
fn all_is_read_and_written_or_a_fault_is_told(rt: HostRuntime) -> Result<(), Fail> {
    let alloc = rt.alloc();
    // The most bytes in a call, the number of the call that fails, and the limit.
    for (most, failing, limit, want) in [
        (1, 0, 6, "Ok([97, 98, 99, 100, 101, 102]) 0"),
        (9, 0, 100, "Ok([97, 98, 99, 100, 101, 102]) 0"),
        (4, 0, 0, "Err(TooLong { limit: 0 }) 5"),
        (4, 0, 4, "Err(TooLong { limit: 4 }) 1"),
        (2, 1, 100, "Err(Read) 6"),
        (2, 3, 100, "Err(Read) 2"),
        (2, 4, 100, "Err(Read) 0"),
    ] {
        assert_eq!(rt; reading(alloc, most, failing, limit)?.as_str(), want);
    }
    for (most, failing, want) in [
        (1, 0, "Ok(()) 6"),
        (4, 0, "Ok(()) 6"),
        (2, 1, "Err(Cut { sent: 0 }) 0"),
        (2, 3, "Err(Cut { sent: 4 }) 4"),
    ] {
        assert_eq!(rt; writing(alloc, most, failing)?.as_str(), want);
    }
    Ok(())
}

/// A reader of std that gives one byte and then fails.
#[derive(Drop)]
struct Broken {
    good: bool,
}

impl io::Read for Broken {
    fn read(&mut self, buf: &mut [u8]) -> io::Result<usize> {
        if !self.good || buf.is_empty() {
            return Err(io::Error::from(io::ErrorKind::Other));
        }
        self.good = false;
        buf[0] = b'x';
        Ok(1)
    }
}

#[test]
fn readers_and_writers_of_std_are_ends(rt: HostRuntime) -> Result<(), Fail> {
    let alloc = rt.alloc();
    let mut source = StdSource::new(b"abc".as_slice());
    assert_eq!(rt;
        read_all(alloc, &mut source, 3)?.as_slice(),
        b"abc".as_slice()
    );
    let mut source = StdSource::new(Broken { good: true });
    assert_eq!(rt;
        read_all(alloc, &mut source, 100).err(),
        Some(ReadAllFault::Read)
    );
    let mut room = [0; 5];
    let mut sink = StdSink::new(room.as_mut_slice());
    assert_eq!(rt; write_all(&mut sink, b"abc"), Ok(()));
    assert_eq!(rt; write_all(&mut sink, b"defg"), Err(Cut { sent: 2 }));
    assert_eq!(rt; room, *b"abcde");
    Ok(())
}
