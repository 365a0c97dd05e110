//! Reading to the end of input.

ghost use Rattle.std.specs.Prelude.{◌≡◌, ◌+◌, ◌^◌, ◌<◌, ◌≤◌, length, IsErrOf, vec_len};
ghost use Rattle.resh_io.specs.Causes.{Rose};
ghost use Rattle.resh_io.specs.Reading.{ReadsAll, ReadsSome};

use crate::{ReadFailed, Source};
use std::alloc::Global;
use thiserror::Error;

/// The most bytes of one read.
const CHUNK: usize = 65536;

/// Why there is no whole input.
#[derive(Clone, Copy, Debug, PartialEq, Eq, Error)]
pub enum ReadAllFault {
    #[error("the source failed")]
    Read,
    #[error("the input is longer than {limit} bytes")]
    TooLong { limit: u64 },
    #[error("no memory")]
    NoMemory,
}

/// Reads all bytes to the end of input, which may be `limit` bytes long.
/// After a fault the source has lost what was read, of at most `limit + 1` bytes.
pub fn read_all<S: Source>(
    alloc: Global,
    source: &mut S,
    limit: u64,
) -> Result<Vec<u8>, ReadAllFault>
    requires { limit < 2 ^ 62 }
    ensures bytes { ReadsAll (S.left source.old) (S.left source.new) limit result }
    ensures read { IsErrOf result ReadAllFault.Read
        → Rose (S.faults source.old) (S.faults source.new) }
    ensures later { S.faults source.old ≤ S.faults source.new }
{
    let mut bytes = Vec::new(alloc);
    let mut chunk = [0u8; CHUNK];
    loop {
        // One byte past the limit shows that there are too many.
        let room = limit + 1 - bytes.len() as u64;
        let count = read_some(source, &mut bytes, &mut chunk, room)?;
        if count == 0 {
            return Ok(bytes);
        }
        if bytes.len() as u64 > limit {
            return Err(ReadAllFault::TooLong { limit });
        }
    }
}

// Reads once, at most `room` bytes through the chunk, and puts them behind those that are there.
fn read_some<S: Source>(
    source: &mut S,
    bytes: &mut Vec<u8>,
    chunk: &mut [u8; CHUNK],
    room: u64,
) -> Result<usize, ReadAllFault>
    requires { 0 < room }
    ensures bytes { ReadsSome (S.left source.old) (S.left source.new) room
        bytes.old.items bytes.new.items result }
    ensures read { IsErrOf result ReadAllFault.Read
        → Rose (S.faults source.old) (S.faults source.new) }
    ensures later { S.faults source.old ≤ S.faults source.new }
{
    let most = room.min(CHUNK as u64) as usize;
    read_through(source, bytes, &mut chunk[..most])
}

// Reads once, into a buffer that isn't empty, and puts what came behind the bytes that are there.
fn read_through<S: Source>(
    source: &mut S,
    bytes: &mut Vec<u8>,
    buffer: &mut [u8],
) -> Result<usize, ReadAllFault>
    requires { 0 < length buffer.old }
    ensures bytes { ReadsSome (S.left source.old) (S.left source.new) (length buffer.old)
        bytes.old.items bytes.new.items result }
    ensures read { IsErrOf result ReadAllFault.Read
        → Rose (S.faults source.old) (S.faults source.new) }
    ensures later { S.faults source.old ≤ S.faults source.new }
{
    let count = match source.read(buffer) {
        Ok(count) => count,
        Err(ReadFailed) => return Err(ReadAllFault::Read),
    };
    match bytes.extend_from_slice(&buffer[..count]) {
        Ok(()) => Ok(count),
        Err(_) => Err(ReadAllFault::NoMemory),
    }
}
